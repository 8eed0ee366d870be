//! Laws of a run's end and the next opening, each on the contract of a function that does nothing. They are this
//! project's rules, over recovery as the TimesTen Cache User's Guide tells of it.

ghost use Rattle.std.specs.Prelude.{ℕ, List, None, Option};
ghost use Rattle.table_state.specs.declared.history.Sealed.{Sealed};
ghost use Rattle.outside.specs.Holding.{Held};
ghost use Rattle.cache_tier.specs.declared.reply.Reply.{Reply};
ghost use Rattle.cache_tier.specs.Steps.{Finishes};
ghost use Rattle.cache_tier.specs.TierStates.{Settings};
ghost use Rattle.cache_tier.specs.Worlds.{IsUnshared, World};
ghost use Rattle.recovery.specs.Journalled.{IsJournalled};
ghost use Rattle.run_laws.specs.Lines.{IsLeft, MayGoOn};
ghost use Rattle.tier_opening.specs.Opening.{MayOpen};
ghost use Rattle.cache_engine.specs.Opening.{Opens};
ghost use Rattle.cache_engine.specs.Requests.{Given, LineRun};
ghost use Rattle.session_cli.specs.Serving.{HasFlushed, Rests};
ghost use Rattle.reopened_laws.specs.Within.{BrokenEndsAreSafe, BrokenLinesAreSafe, CrashesWithinAreSafe, ImportsAreSafe, RunsAreSafe};
ghost use Rattle.reopened_laws.specs.Within.{UnopenedImportsAreSafe, UnopenedRunsAreSafe};
ghost use Rattle.reopened_laws.specs.Ending.{CrashesLeaveSites, ImportsLeaveSites, LeavesSite, RunsLeaveSites};
ghost use Rattle.reopened_laws.specs.Leaving.{GoesOnThrough, IsKeptAt, IsLeftAt};

use outside::Site;

/// Where the tier stands or a ticket is in doubt, the journal is the tier's, others change no table of a live
/// writethrough group, and the site's slots say what the journal has flushed, a tier may be opened over the site.
pub fn site_law()
    ensures { (w : World) (early : List Sealed) (o : Held) → IsLeft w → IsJournalled w early → IsUnshared w
        → IsLeftAt o w → MayOpen w.shared o }
{}

/// Where the world's journal is kept in the site's slots, no two tables of the bank have one name, and the text of each
/// definition reads, the slots say what the journal has flushed, and nothing else.
pub fn slots_law()
    ensures { (o : Held) (w : World) → IsKeptAt o w → IsLeftAt o w }
{}

/// A run that began with a tier that was opened over a site, and that went on through all of its lines and the flush
/// behind them, leaves a site over which the next one may be opened, where the slots say what the journal has flushed.
pub fn run_leaves_law()
    ensures { (settings : Settings) (moment : ℕ) (there o : Held) (w ran last : World) (lines : List Given)
        (replies : List (Option Reply)) → Opens settings moment there w → MayOpen w.shared there → MayGoOn w
        → (run : LineRun w lines replies ran) → GoesOnThrough w lines replies ran run → Finishes ran last None
        → IsLeftAt o last → MayOpen last.shared o }
{}

/// A run that began with a tier which was opened over a site, over what the clause `runs` of `top` says of it: where
/// all of its lines were answered and the tail was flushed, as with the status 0 (`flushed`), or wasn't, as with 3 and
/// 10 (`rests`), the next one may be opened over what the site holds at its end. That asks no more than that others
/// change no table of a writethrough group then. No two tables of the bank have one name still.
pub fn answered_law<P: Site>()
    ensures flushed { LeavesSite P.Disk.state P.Disk.possible HasFlushed }
    ensures rests { LeavesSite P.Disk.state P.Disk.possible Rests }
{}

/// So it is of a run of the program that was opened and ended with the status 0.
pub fn program_law<P: Site>()
    ensures { RunsLeaveSites P.Disk.state P.Disk.possible }
{}

/// So it is of the command `import` that was opened, whether its rows were imported or refused, or nothing was done.
pub fn import_law<P: Site>()
    ensures { ImportsLeaveSites P.Disk.state P.Disk.possible }
{}

/// The same over what that clause says of each world between two lines: a tier may be opened over whatever a crash
/// leaves of the site there.
pub fn crash_law<P: Site>()
    ensures { CrashesLeaveSites P.Disk.state P.Disk.possible }
{}

/// And at each moment of a run, inside its lines too: what the slots give and the history belong together, and hold
/// each commit that was held where the last line before began, or the flush behind the last one. And a tier may be
/// opened over what is left, where others change no table of a writethrough group behind the last line. Where all lines
/// were answered that is said of the site as it is at the end, whether the tail was flushed (`flushed`) or wasn't
/// (`rests`); and so it is since the way of its journal began, with the commits that were held then. Where a call of
/// the journal's disk failed in the last line (`broken`), or in the flush at the end of the input (`unflushed`), it is
/// said of the site as it is then, and of the call that failed, too; there a tier may be opened where others change no
/// table of a writethrough group that the entries there leave. So it is of a run of the program that was opened,
/// whatever its status (`program`), and of the command `import` that was opened, with nothing asked of others
/// (`imports`): since it began, in its opening too, where a crash left just what the site told then, and else since the
/// journal was found. A run and an `import` that weren't opened leave a site over which a tier may be opened, at each
/// moment since they began: as it was found, but for transactions of others, or with each commit that was held
/// (`unopened`, `unimported`).
pub fn within_law<P: Site>()
    ensures flushed { CrashesWithinAreSafe P.Disk.state P.Disk.possible HasFlushed }
    ensures rests { CrashesWithinAreSafe P.Disk.state P.Disk.possible Rests }
    ensures broken { BrokenLinesAreSafe P.Disk.state P.Disk.possible }
    ensures unflushed { BrokenEndsAreSafe P.Disk.state P.Disk.possible }
    ensures program { RunsAreSafe P.Disk.state P.Disk.possible }
    ensures imports { ImportsAreSafe P.Disk.state P.Disk.possible }
    ensures unopened { UnopenedRunsAreSafe P.Disk.state P.Disk.possible }
    ensures unimported { UnopenedImportsAreSafe P.Disk.state P.Disk.possible }
{}
