//! The lines for which nothing is drawn.

ghost use Rattle.std.specs.Prelude.{◌≡◌, ◌<◌, ◌+◌, ◌∷◌, drop};
ghost use Rattle.script_maker.specs.Script.{closing, opening};

/// How many lines stand before those that are drawn.
pub(crate) const OPENING_LINES: u8 = 6;

/// How many lines stand behind them.
pub(crate) const CLOSING_LINES: u8 = 2;

/// The line of the opening at a place.
pub(crate) fn opening_line(place: u8) -> &'static [u8]
    requires { place < 6 }
    ensures { drop place opening ≡ result.now ∷ drop (place + 1) opening }
{
    match place {
        0 => b"backing: CREATE TABLE C (ID TT_INTEGER, NAME VARCHAR2(20), PRIMARY KEY (ID))",
        1 => b"backing: CREATE TABLE R (ID TT_INTEGER, V TT_BIGINT, PRIMARY KEY (ID))",
        2 => b"s1: OPEN",
        3 =>
            b"s1: CREATE ASYNCHRONOUS WRITETHROUGH CACHE GROUP GC FROM C (ID TT_INTEGER, NAME VARCHAR2(20), PRIMARY KEY (ID))",
        4 =>
            b"s1: CREATE READONLY CACHE GROUP GR AUTOREFRESH INTERVAL 5 SECONDS FROM R (ID TT_INTEGER, V TT_BIGINT, PRIMARY KEY (ID))",
        _ => b"s1: LOAD CACHE GROUP GR",
    }
}

/// The line of the closing at a place.
pub(crate) fn closing_line(place: u8) -> &'static [u8]
    requires { place < 2 }
    ensures { drop place closing ≡ result.now ∷ drop (place + 1) closing }
{
    match place {
        0 => b"s1: COMMIT",
        _ => b"s1: CALL ttDrain",
    }
}
