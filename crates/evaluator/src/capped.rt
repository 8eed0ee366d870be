//! Lists that are kept up to a limit.

ghost use Rattle.std.specs.Prelude.{◌≡◌, [], false, true, length, nat_lt, OnOk};
ghost use Rattle.evaluator.specs.Capping.{put};

use expressions::tier_base::Seq;
use std::alloc::{AllocError, Global};

/// The first elements of a list, and whether there are more than there is room for.
#[derive(Drop)]
pub struct Capped<T> {
    /// The first elements.
    pub kept: Seq<T>,
    /// How many are kept at most.
    pub room: usize,
    /// Whether more came.
    pub over: bool,
}

impl<T> Capped<T> {
    /// No elements, with room for so many. It takes no memory yet.
    pub fn new(alloc: Global, room: usize) -> Self
        ensures { result ≡ record { kept = []; room = room; over = false } }
    {
        Capped {
            kept: Seq::new(alloc),
            room,
            over: false,
        }
    }

    /// Whether another element would be kept.
    pub fn has_room(&self) -> bool
        ensures { result ≡ nat_lt (length self.now.kept) self.now.room }
    {
        self.kept.len() < self.room
    }

    /// Puts an element behind the others.
    pub fn push(&mut self, item: T) -> Result<(), AllocError>
    where
        T: Drop,
        ensures { OnOk result (self.new ≡ put self.old item) }
    {
        if self.kept.len() < self.room {
            match self.kept.push(item) {
                Ok(()) => Ok(()),
                Err(failed) => Err(AllocError::from(failed)),
            }
        } else {
            self.over = true;
            Ok(())
        }
    }

    /// Notes that an element came for which there is no room.
    pub fn skip(&mut self)
        requires { nat_lt (length self.old.kept) self.old.room ≡ false }
        ensures { self.new ≡ record self.old { over = true } }
    {
        self.over = true;
    }
}
