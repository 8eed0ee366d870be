//! A law of commits, on the contract of a function that does nothing.

ghost use Rattle.recalling.specs.Recalled.{NotesTellCommits};

/// Which transactions a journal's entries commit is told by the entries alone: the schema that their notes are read
/// under doesn't matter. (The journal is this project's.)
pub fn commits_law()
    ensures { NotesTellCommits }
{}
