//! How far a site in memory is.

ghost use Rattle.std.specs.Prelude.{◌≡◌};
ghost use Rattle.backing_gate.specs.Marks.{least, lesser};

/// How far the disk and the history of a site are.
#[derive(Clone, Copy, Debug, PartialEq, Eq)]
pub struct Mark {
    /// How many calls have changed the disk.
    pub calls: u64,
    /// How many entries the history has.
    pub entries: u64,
}

/// Not further than any of these marks, nor than this one.
pub(crate) fn least(marks: &[Mark], present: Mark) -> Mark
    ensures { result ≡ least marks.now present }
{
    let mut mark = present;
    let mut place = marks.len();
    while place > 0 {
        place -= 1;
        mark = lesser(marks[place], mark);
    }
    mark
}

fn lesser(a: Mark, b: Mark) -> Mark
    ensures { result ≡ lesser a b }
{
    Mark {
        calls: a.calls.min(b.calls),
        entries: a.entries.min(b.entries),
    }
}
