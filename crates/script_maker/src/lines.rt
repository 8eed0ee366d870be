//! The lines of a script, one after the other.

ghost use Rattle.std.specs.Prelude.{◌≡◌, ◌≤◌, ◌^◌, IfOk, length};
ghost use Rattle.script_maker.specs.Giving.{Gives};
ghost use Rattle.script_maker.specs.Script.{script_lines};

use crate::fixed::{CLOSING_LINES, OPENING_LINES, closing_line, opening_line};
use crate::wording::put_next_drawn;
use std::alloc::AllocError;
use std::marker::Model;

/// The lines of a script that are to come. They are made one by one, and none is kept. Clauses see them as a list.
#[derive(Debug, Drop)]
pub struct ScriptLines {
    // How many lines of the opening were given.
    opened: u8,
    // How many drawn lines are to come, the number of the next one, and the generator's state before it.
    coming: u64,
    number: u64,
    state: u64,
    // How many lines of the closing were given.
    closed: u8,
}

impl Model for ScriptLines {
    ghost use Rattle.std.specs.Prelude.{List, ℕ};
    ghost use Rattle.script_maker.specs.Giving.{lines_left, IsWithin};

    ghost Value = { List (List ℕ) };

    ghost view = { λ s. lines_left s.opened s.coming s.number s.state s.closed };

    ghost invariant = { λ s. IsWithin s.opened s.coming s.number s.closed };
}

impl ScriptLines {
    /// All lines of the script of a number.
    pub fn new(number: u32) -> ScriptLines
        ensures all { result ≡ script_lines number }
        ensures few { length result ≤ 2 ^ 33 }
    {
        let count = u64::from(number);
        ScriptLines {
            opened: 0,
            coming: count,
            number: 1,
            state: count,
            closed: 0,
        }
    }

    /// Puts the next line behind what is there, without a line end. It answers false where no line is left.
    ///
    /// The error is want of memory.
    pub fn put_next(&mut self, out: &mut Vec<u8>) -> Result<bool, AllocError>
        ensures { IfOk result (Gives self.old self.new out.old.items out.new.items) }
    {
        if self.opened < OPENING_LINES {
            out.extend_from_slice(opening_line(self.opened))?;
            self.opened += 1;
            return Ok(true);
        }
        if self.coming > 0 {
            self.state = put_next_drawn(out, self.state, self.number)?;
            self.coming -= 1;
            self.number += 1;
            return Ok(true);
        }
        if self.closed < CLOSING_LINES {
            out.extend_from_slice(closing_line(self.closed))?;
            self.closed += 1;
            return Ok(true);
        }
        Ok(false)
    }
}
