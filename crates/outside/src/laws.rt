//! Laws of the definitions, each on the contract of a function that does nothing.

ghost use Rattle.outside.specs.Laws.{UntouchedStays};

/// An instance that isn't told among the changes since a position has the rows that it had there.
pub fn changes_law()
    ensures untouched_stays { UntouchedStays }
{}
