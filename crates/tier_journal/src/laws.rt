//! Laws of what is written. A law is the contract of a function that does nothing.

ghost use Rattle.std.specs.Prelude.{◌≡◌, ◌++◌, ◌≤◌, ◌<◌, ◌^◌, ℕ, List, length, true};
ghost use Rattle.table_defs.specs.declared.definition.TableDef.{TableDef};
ghost use Rattle.outside.specs.Holding.{Slots};
ghost use Rattle.journal_entries.specs.Bodies.{rises};
ghost use Rattle.journal_entries.specs.Spelling.{entry_bytes};
ghost use Rattle.commit_journal.specs.Layout.{Gives};
ghost use Rattle.cache_tier.specs.Journals.{Journal, JournalEntry, entry_size, next_behind};
ghost use Rattle.cache_tier.specs.JournalSteps.{name_size};
ghost use Rattle.tier_journal.specs.declared.journal.TierJournal.{TierJournal};
ghost use Rattle.tier_journal.specs.Keeping.{Keeps, standing_in};
ghost use Rattle.tier_journal.specs.Leaving.{GivesEntries};
ghost use Rattle.tier_journal.specs.Writing.{written};

/// The size of an entry is the length of the bytes that it is written in.
pub fn size_law()
    ensures { (schema : List TableDef) (e : JournalEntry)
        → entry_size (name_size schema) e ≡ length (entry_bytes (written schema e)) }
{}

/// What a journal keeps it keeps under a schema that has grown.
pub fn grown_law()
    ensures { (schema more : List TableDef) (t : TierJournal) (slots : Slots) (j : Journal) → Keeps schema t slots j
        → Keeps (schema ++ more) t slots j }
{}

/// Of a journal that is kept the slots give the flushed entries, and none is without bytes.
pub fn kept_law()
    ensures { (schema : List TableDef) (t : TierJournal) (slots : Slots) (j : Journal) → Keeps schema t slots j
        → GivesEntries schema slots j.flushed }
{}

/// A ticket that isn't below the next one behind the journal's entries may stand behind them.
pub fn next_law()
    ensures { (schema : List TableDef) (t : TierJournal) (slots : Slots) (j : Journal) (ticket : ℕ)
        → Keeps schema t slots j → next_behind (j.flushed ++ j.tail) ≤ ticket → ticket < 2 ^ 63
        → rises (standing_in t) (record { 0 = ticket }) ≡ true }
{}
