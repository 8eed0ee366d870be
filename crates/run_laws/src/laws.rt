//! Laws of whole lines, each on the contract of a function that does nothing. They are this project's rules.

ghost use Rattle.std.specs.Prelude.{◌≡◌, false, true, ℕ, List, Option, None, length};
ghost use Rattle.table_state.specs.declared.history.Sealed.{Sealed};
ghost use Rattle.cache_tier.specs.declared.reply.Reply.{Reply};
ghost use Rattle.cache_tier.specs.Journals.{Journal, JournalEntry};
ghost use Rattle.cache_tier.specs.Steps.{Asked, Finishes};
ghost use Rattle.cache_tier.specs.TierStates.{Settings};
ghost use Rattle.cache_tier.specs.Worlds.{IsUnshared, World};
ghost use Rattle.recovery.specs.Journalled.{IsFlushed, IsJournalled};
ghost use Rattle.recovery.specs.Recalling.{notes_of};
ghost use Rattle.recovery.specs.Reopening.{IsReopened};
ghost use Rattle.recovery_laws.specs.Crashes.{AreHeld};
ghost use Rattle.line_laws.specs.Keeping.{IsBrokenOff, is_broken};
ghost use Rattle.run_laws.specs.Lines.{IsLeft, MayBegin};
ghost use Rattle.run_laws.specs.Runs.{IsKeptOf, KeepsOn, KeepsThrough, Reopened, RunsOn, StepBreaksJournal, StepKeepsJournal, StepKeepsKinds, StoodOpening, Survives};

/// A line, whatever it says, keeps the journal the tier's, and what was held is held (`journal`). What is unsettled is
/// on tables of asynchronous groups behind it, and each session has written tables of synchronous groups alone, or of
/// none (`kinds`). Where a call of the journal's disk failed in it, the journal as it may be there is that of a tier,
/// perhaps of the one that the line would have left, and what was held is held (`breaks`).
pub fn line_law()
    ensures journal { StepKeepsJournal }
    ensures kinds { StepKeepsKinds }
    ensures breaks { StepBreaksJournal }
{}

/// Where the tier stands or a ticket is in doubt, and the journal is the tier's, a crash leaves entries whose tier
/// stands over the history (`survives`). So it is behind each line of a run, and all that was held before is held
/// (`keeps_through`).
pub fn run_law()
    ensures survives { (w : World) (early : List Sealed) (settings : Settings) (moment : ℕ) → IsLeft w
        → IsJournalled w early → Survives w early settings moment }
    ensures keeps_through { (w w' : World) (lines : List Asked) (replies : List (Option Reply)) (early : List Sealed)
        → MayBegin w → IsJournalled w early → RunsOn w lines replies w' → KeepsThrough w early lines replies w' }
{}

/// A flush of the tail comes whole or not at all. Before it a crash leaves what is needed, as `run_law` tells; so it
/// does behind it (`flushed`), and behind the flush at the end of the input (`ended`), whether a ticket is in doubt or
/// not. Where that flush fails, the journal as it may be there is that of a tier (`ended_broken`).
pub fn flush_law()
    ensures flushed { (w : World) (early : List Sealed) (new : Journal) → IsLeft w → IsJournalled w early
        → IsFlushed (length w.history) w.journal new → KeepsOn (record w { journal = new }) early }
    ensures ended { (w w' : World) (early : List Sealed) (stop : Option Reply) → IsLeft w → IsJournalled w early
        → Finishes w w' stop → is_broken stop ≡ false → KeepsOn w' early }
    ensures ended_broken { (w w' : World) (early : List Sealed) (stop : Option Reply) → IsJournalled w early
        → Finishes w w' stop → is_broken stop ≡ true → IsBrokenOff w' early }
{}

/// The tier that is opened again over a journal whose entries are all flushed, and each point of whose way is safe,
/// keeps it: the journal is its own behind the opening, which writes nothing to it, and what the entries and the
/// history hold is held (`reopens`). So it is after a crash between two lines, over the entries that were flushed then:
/// all that was held is held (`again`). A run may begin there. Where the opening's round or one of its readings stopped
/// it with a reply, the journal is the tier's there, too, and what was held is held (`stops`).
pub fn reopened_law()
    ensures reopens { (settings : Settings) (moment : ℕ) (entries : List JournalEntry) (w w' : World)
        (early : List Sealed) (x : IsReopened settings moment entries w w' None) → IsKeptOf entries w
        → AreHeld (notes_of x.matched.backing.schema entries) w.history early → IsUnshared w → Reopened w' early }
    ensures again { (w v v' : World) (early : List Sealed) (settings : Settings) (moment : ℕ) → IsLeft w
        → IsJournalled w early → v.history ≡ w.history → IsKeptOf w.journal.flushed v → IsUnshared v
        → IsReopened settings moment w.journal.flushed v v' None → Reopened v' early }
    ensures stops { (settings : Settings) (moment : ℕ) (entries : List JournalEntry) (w w' : World)
        (early : List Sealed) (stop : Option Reply) (x : IsReopened settings moment entries w w' stop)
        → IsKeptOf entries w → AreHeld (notes_of x.matched.backing.schema entries) w.history early → IsUnshared w
        → StoodOpening w' early }
{}
