//! Taking over a body as the other slot's first batch.

ghost use Rattle.std.specs.Prelude.{◌≡◌, ◌+◌, ◌^◌, ◌<◌, ◌≤◌, ◌↔◌, ℕ, List, [], length, Err, IfOk, OnOk, OnErr, IsTrue, true, false};
ghost use Rattle.outside.specs.Calls.{Certain, Leaves};
ghost use Rattle.outside.specs.Holding.{Held};
ghost use Rattle.journal_entries.specs.declared.entry.Entry.{Entry as OneEntry};
ghost use Rattle.journal_entries.specs.declared.standing.Standing.{Standing as OneStanding};
ghost use Rattle.journal_entries.specs.declared.standing.Ending.TheVariants.{Whole};
ghost use Rattle.journal_entries.specs.Bodies.{Body, beginning};
ghost use Rattle.commit_journal.specs.Layout.{Placed, entries_of};
ghost use Rattle.commit_journal.specs.Opening.{IsBlank};
ghost use Rattle.commit_journal.specs.Resting.{AtRest, Rested};
ghost use Rattle.commit_journal.specs.Scanning.{IsWholeBody};
ghost use Rattle.commit_journal.specs.Turning.{MidRotation, slot_bytes};
ghost use Rattle.commit_journal.specs.Causes.{RotateHasCause};
ghost use Rattle.commit_journal.specs.declared.fault.RotateError.TheVariants.{Limit};

use crate::fault::RotateError;
use crate::journal::Journal;
use crate::placing::begin;
use journal_entries::writing::put_bytes;
use journal_entries::{Ending, Standing, read_body};
use outside::{Disk, Slot};
use std::alloc::{AllocError, Global};

/// The bytes of a slot behind its first: a header of version 2, this body as a batch, and a closed gate.
pub(crate) fn slot_image(alloc: Global, generation: u64, body: &[u8]) -> Result<Vec<u8>, AllocError>
    requires { length body.now ≤ 2 ^ 24 }
    ensures { IfOk result (λ bytes. bytes.items ≡ slot_bytes generation body.now) }
{
    let mut bytes = Vec::with_capacity(alloc, body.len() + 15)?;
    put_bytes(&mut bytes, &[2]);
    put_bytes(&mut bytes, &generation.to_be_bytes());
    put_bytes(&mut bytes, &[1]);
    put_bytes(&mut bytes, &(body.len() as u32).to_be_bytes());
    put_bytes(&mut bytes, body);
    put_bytes(&mut bytes, &[0]);
    Ok(bytes)
}

/// What stands behind a body that reads.
pub(crate) fn standing_behind(
    alloc: Global,
    version: u8,
    standing: Standing,
    place: u64,
    body: &[u8],
) -> Result<Standing, AllocError>
    requires small { place + length body.now < 2 ^ 64 }
    requires reads { IsWholeBody version standing place body.now }
    ensures { IfOk result (λ s. (placed : List Placed) (t : OneStanding)
        → Body version standing place body.now placed (Whole t) → s ≡ t) }
{
    let mut scratch = Vec::new(alloc);
    match read_body(alloc, version, standing, place, body, &mut scratch)? {
        Ending::Whole(behind) => Ok(behind),
        Ending::Stops(_) => unreachable!(),
    }
}

impl Journal {
    /// Fills the other slot with this body as its only batch, and moves on to it. The generation is above the present
    /// one, and the body reads as a slot's first batch.
    pub fn adopt<D: Disk>(
        &mut self,
        alloc: Global,
        d: &mut D,
        generation: u64,
        body: &[u8],
    ) -> Result<(), RotateError>
        requires reads { IsWholeBody 2 beginning 15 body.now }
        ensures crash { (o : Held) (flushed : List OneEntry) (placed : List Placed) (t : OneStanding)
            → Certain D.state D.possible d.old o → AtRest self.old o.slots flushed []
            → self.old.generation < generation → Body 2 beginning 15 body.now placed (Whole t)
            → Leaves D.state D.possible d.old d.new (MidRotation o flushed (entries_of placed)) }
        ensures moved { OnOk result ((o : Held) (flushed : List OneEntry) (placed : List Placed) (t : OneStanding)
            → Certain D.state D.possible d.old o → AtRest self.old o.slots flushed []
            → self.old.generation < generation → Body 2 beginning 15 body.now placed (Whole t)
            → Rested D.state D.possible d.new self.new o (entries_of placed) []) }
        ensures generation { OnOk result (self.new.generation ≡ generation) }
        ensures limit { (result ≡ Err Limit) ↔ (2 ^ 24 < length body.now) }
        ensures cause { RotateHasCause (D.state d.old) (D.state d.new) result }
    {
        if body.len() > 16_777_216 {
            return Err(RotateError::Limit);
        }
        let standing = standing_behind(alloc, 2, Standing::beginning(), 15, body)?;
        let bytes = slot_image(alloc, generation, body)?;
        self.move_on(d, generation, standing, &bytes)?;
        Ok(())
    }

    /// A journal where no slot is live: fills slot 0 with this body as its only batch, and opens it. The body reads as
    /// a slot's first batch. The other slot isn't written.
    ///
    /// `Limit` exactly where the body is longer than 2^24 bytes. `Memory` for want of memory. In both the disk isn't
    /// called.
    pub fn adopt_new<D: Disk>(
        alloc: Global,
        d: &mut D,
        generation: u64,
        body: &[u8],
    ) -> Result<Journal, RotateError>
        requires reads { IsWholeBody 2 beginning 15 body.now }
        ensures crash { (o : Held) (placed : List Placed) (t : OneStanding) → Certain D.state D.possible d.old o
            → IsBlank o.slots → Body 2 beginning 15 body.now placed (Whole t)
            → Leaves D.state D.possible d.old d.new (MidRotation o [] (entries_of placed)) }
        ensures made { IfOk result (λ journal. (o : Held) (placed : List Placed) (t : OneStanding)
            → Certain D.state D.possible d.old o → IsBlank o.slots → Body 2 beginning 15 body.now placed (Whole t)
            → Rested D.state D.possible d.new journal o (entries_of placed) []) }
        ensures generation { IfOk result (λ journal. journal.generation ≡ generation) }
        ensures limit { (result ≡ Err Limit) ↔ (2 ^ 24 < length body.now) }
        ensures cause { RotateHasCause (D.state d.old) (D.state d.new) result }
    {
        if body.len() > 16_777_216 {
            return Err(RotateError::Limit);
        }
        let standing = standing_behind(alloc, 2, Standing::beginning(), 15, body)?;
        let bytes = slot_image(alloc, generation, body)?;
        let mut staged = Vec::from_elem(alloc, 0, 4)?;
        staged.reserve(1)?;
        begin(d, Slot::First, &bytes)?;
        Ok(Journal {
            slot: Slot::First,
            version: 2,
            generation,
            gate: bytes.len() as u64,
            standing,
            staged,
        })
    }

    /// Whether the body reads behind the entries so far, or as a slot's first batch. The tail is empty.
    pub fn readable(&self, alloc: Global, body: &[u8], first: bool) -> Result<bool, AllocError>
        requires { self.now.gate + 5 + length body.now < 2 ^ 64 }
        ensures first { first ≡ true → IfOk result (λ b. IsTrue b ↔ IsWholeBody 2 beginning 15 body.now) }
        ensures behind { first ≡ false → IfOk result
            (λ b. IsTrue b ↔ IsWholeBody self.now.version self.now.standing (self.now.gate + 5) body.now) }
    {
        if first {
            return reads_first(alloc, body);
        }
        reads_whole(alloc, self.version, self.standing, self.gate + 5, body)
    }
}

/// Whether the body reads as a slot's first batch.
///
/// It fails for want of memory alone.
pub fn reads_first(alloc: Global, body: &[u8]) -> Result<bool, AllocError>
    ensures { IfOk result (λ b. IsTrue b ↔ IsWholeBody 2 beginning 15 body.now) }
{
    reads_whole(alloc, 2, Standing::beginning(), 15, body)
}

/// Whether all of a body reads.
fn reads_whole(
    alloc: Global,
    version: u8,
    standing: Standing,
    place: u64,
    body: &[u8],
) -> Result<bool, AllocError>
    requires { place + length body.now < 2 ^ 64 }
    ensures { IfOk result (λ b. IsTrue b ↔ IsWholeBody version standing place body.now) }
{
    let mut scratch = Vec::new(alloc);
    match read_body(alloc, version, standing, place, body, &mut scratch)? {
        Ending::Whole(_) => Ok(true),
        Ending::Stops(_) => Ok(false),
    }
}
