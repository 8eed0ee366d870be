//! Laws of journals.

ghost use Rattle.std.specs.Prelude.{◌≡◌, ◌++◌, ℕ, List, Option};
ghost use Rattle.journal_entries.specs.Bodies.{beginning, behind_all};
ghost use Rattle.outside.specs.declared.disk.Slot.{Slot};
ghost use Rattle.outside.specs.Holding.{Slots};
ghost use Rattle.journal_entries.specs.declared.entry.Entry.{Entry};
ghost use Rattle.journal_entries.specs.declared.standing.Standing.{Standing};
ghost use Rattle.commit_journal.specs.declared.journal.Journal.{Journal};
ghost use Rattle.commit_journal.specs.Layout.{Batches, Gives, Outcome, Placed, Reads};
ghost use Rattle.commit_journal.specs.Resting.{AtRest};

/// The batches of a slot say one thing.
pub fn one_reading()
    ensures { (version : ℕ) (s : Standing) (place : ℕ) (bytes : List ℕ) (entries others : List Placed)
        (outcome another : Outcome) → Batches version s place bytes entries outcome
        → Batches version s place bytes others another → (entries ≡ others) × (outcome ≡ another) }
{}

/// Of a journal at rest the slots give what is flushed.
pub fn rest_law()
    ensures { (j : Journal) (slots : Slots) (flushed tail : List Entry) → AtRest j slots flushed tail
        → Gives slots flushed }
{}

/// A journal at rest stands behind its entries, flushed or not.
pub fn standing_law()
    ensures { (j : Journal) (slots : Slots) (flushed tail : List Entry) → AtRest j slots flushed tail
        → j.standing ≡ behind_all beginning (flushed ++ tail) }
{}

/// Two slots say one thing.
pub fn one_journal()
    ensures { (slots : Slots) (entries others : List Placed) (damaged another : Option (Slot × ℕ))
        → Reads slots entries damaged → Reads slots others another → (entries ≡ others) × (damaged ≡ another) }
{}
