//! A law of the definitions, on the contract of a function that does nothing. It is this project's rule.

ghost use Rattle.aging_cycles.specs.Coming.{StayKeyed, StayVerified};

/// Where sessions may read and write over the stored rows of a tier, the rows of another one with the same definitions
/// stand under their keys and fit their tables, if each was stored in the first, or came, stands under its key and fits
/// (`keyed`). So sessions may read and write over these, too, where there are not too many of them and each session's
/// operations apply on them (`verified`).
pub fn kept_rows_law()
    ensures keyed { StayKeyed }
    ensures verified { StayVerified }
{}
