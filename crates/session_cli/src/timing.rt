//! What the moment of a line is counted from.

ghost use Rattle.std.specs.Prelude.{◌≡◌};
ghost use Rattle.session_cli.specs.Timing.{TakesBase, has_base};

use outside::Clock;
use sql_subset::line::is_silent;
use tier_base::Moment;

/// The greatest number of bytes of a line.
const LINE_BYTES: usize = 65_536;

/// What the moment of this line is counted from: what the clock answers. A line that is empty or a comment asks no
/// clock, and has no moment.
pub fn line_base<C: Clock>(clock: &mut C, line: &[u8]) -> Moment
    ensures { TakesBase line.now (C.coming clock.old) (C.coming clock.new) result.0 }
{
    if has_base(line) {
        clock.now()
    } else {
        Moment(0)
    }
}

/// Whether a line is counted from a base: it isn't empty, and no comment within the limit of a line.
fn has_base(line: &[u8]) -> bool
    ensures { result ≡ has_base line.now }
{
    line.len() > LINE_BYTES || !is_silent(line)
}
