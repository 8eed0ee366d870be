//! The program's one way in.

ghost use Rattle.std.specs.Prelude.{◌≡◌, ◌⊎◌, ℕ, List, Option, MatchResult, true};
ghost use Rattle.std.specs.Borrow.{Bor};
ghost use Rattle.outside.specs.Faults.{Rose};
ghost use Rattle.cache_tier.specs.declared.reply.Reply.{Reply};
ghost use Rattle.cache_tier.specs.MoreFacts.{FaultsAreCaused};
ghost use Rattle.cache_tier.specs.Worlds.{World};
ghost use Rattle.cache_engine.specs.Requests.{Given, LineRun};
ghost use Rattle.command_line.specs.declared.command.Command.{Command as Task};
ghost use Rattle.command_line.specs.declared.settings.ClockSource.TheVariants.{Script};
ghost use Rattle.command_line.specs.declared.settings.Settings.{Settings as Set};
ghost use Rattle.command_line.specs.Keys.{AreBad, IsSetBy};
ghost use Rattle.command_line.specs.Words.{Asks, Refuses, texts};
ghost use Rattle.session_cli.specs.declared.commands.End.{End};
ghost use Rattle.session_cli.specs.Checking.{AreChecked, CheckRuns};
ghost use Rattle.session_cli.specs.Commands.{Benches, Makes, number_of as number_of_end};
ghost use Rattle.session_cli.specs.Ends.{Runs, Takes, Unstarted, number_of, takes_none};
ghost use Rattle.session_cli.specs.Importing.{ImportRuns};
ghost use Rattle.session_cli.specs.Opening.{tier_settings};
ghost use Rattle.session_cli.specs.Outside.{seen};
ghost use Rattle.session_cli.specs.Timing.{bases_by};

use crate::checker::check_law;
use crate::checking::check;
use crate::commands::{make, tell_bench};
use crate::fixed_clock::FixedClock;
use crate::importing::import;
use crate::laws::caused_law;
use crate::progress::Progress;
use crate::serving::{Status, pace_in, serve};
use command_line::{
    ClockSource, Command, CommandError, Settings, SettingsError, read_command, read_settings,
    settings_law,
};
use outside::{Clock, Sink, Site, Source};
use std::alloc::Global;
use tier_base::Moment;

/// The status where the words aren't taken.
const WRONG_WORDS: u8 = 1;

/// The status where the settings aren't taken.
const WRONG_SETTINGS: u8 = 2;

/// The status where memory is wanting.
const NO_MEMORY: u8 = 7;

/// The program, over its words, its settings and the world outside. The answer is its status:
///
/// - 0: the input was read to its end, and in `run` nothing waits in the journal's tail; of `import` the reply is
///   written, which may refuse the file; of `make` and `bench` all was written.
/// - 1: exactly where `clap` refuses the words for another cause than memory. Nothing else is looked at.
/// - 2: exactly where the words are taken and the settings are refused for another cause than memory: they are no TOML
///   table, or a key isn't known, or a value is of the wrong type or out of its range. Nothing else is looked at.
/// - 3: the source failed in this call. All lines that ended before are answered; in `import` nothing is done.
/// - 4: the sink failed in this call, or took nothing of something. A front of the replies is written.
/// - 5: in `run`, a call of the journal's disk failed. The last line that is written is `fault 202`: at the opening,
///   with no line answered; at a line, whose reply it ends, and no line behind it is answered; or behind the last
///   line. In `import` such a call failed at the opening, and nothing is written.
/// - 6: in `run` and `import`, the backing database failed in this call as the tier was opened. No line is answered,
///   and neither source nor sink is touched.
/// - 7: want of memory before the first request, the words', the settings' and the opening's included; no line is
///   answered then. In `import` also before the file is read whole; nothing is done then. In `check` also want of
///   memory for a line. A front of the replies is then written. In `make` and `bench` want of memory anywhere outside
///   a request; of the script a front is then written, of the summary nothing.
/// - 8: in `run` and `import`, the journal is damaged: the line `damaged S P` tells the slot, and the byte in it. No
///   line is answered, and the source isn't touched.
/// - 9: in `run` and `import`, a row of a backing table wasn't as a committed transaction of the journal says, as
///   that was tried: the line `fault 210 TABLE KEY` tells it. No line is answered, and the source isn't touched.
/// - 10: exactly where 2^32 bytes were taken from the source without an end, and the sink took all replies. All lines
///   that ended in them are answered; in `import` nothing is done.
///
/// `run` opens a tier over the site, with its journal, and lets it answer each line, and `check` says of each line
/// whether it is spelt right. `check` calls neither site nor clock. `import` opens a tier as `run` does, takes the
/// whole source, and inserts its rows into the backing table that the words name, as one transaction of the console.
/// `make` writes the generated script of a number, and `bench` runs that script on a new site in memory and writes what
/// its run comes to; both touch nothing but the sink. How far `bench` has come is told to `progress`, which no clause
/// speaks of.
///
/// Of the settings three act in `run` and `import`. The moments of the opening and of each line that isn't empty or a
/// comment are counted from `start_ms` where `clock` is `"script"`, and the clock isn't asked; where it is `"system"`,
/// each from an answer of the clock, in their order. After `propagate_ms` milliseconds a round of propagation is due,
/// and it rotates a journal longer than `rotate_bytes`.
///
/// Others may change tables of the backing database in each of the site's calls. Of `run` something is said where no
/// writethrough group is over a table that others change in the run: those are the tier's to write.
pub fn top<'a, S: Source, K: Sink, P: Site, C: Clock, G: Progress>(
    alloc: Global,
    words: &'a [&'a str],
    settings: &[u8],
    source: &mut S,
    sink: &mut K,
    site: &mut P,
    clock: &mut C,
    progress: &mut G,
) -> u8
    ensures words { result ≡ 1 → Refuses (texts words.entry.now) }
    ensures refused { Refuses (texts words.entry.now) → (result ≡ 1) ⊎ (result ≡ 7) }
    ensures settings { result ≡ 2 → ((task : Task) × Asks (texts words.entry.now) task) × AreBad settings.now }
    ensures bad { (task : Task) → Asks (texts words.entry.now) task → AreBad settings.now
        → (result ≡ 2) ⊎ (result ≡ 7) }
    ensures idle { (result ≡ 1) ⊎ (result ≡ 2)
        → (source.new ≡ source.old) × (sink.new ≡ sink.old) × (site.new ≡ site.old) × (clock.new ≡ clock.old) }
    ensures unread { Refuses (texts words.entry.now) ⊎ AreBad settings.now
        → (source.new ≡ source.old) × (sink.new ≡ sink.old) × (site.new ≡ site.old) × (clock.new ≡ clock.old) }
    ensures runs { Asks (texts words.entry.now) Task.Run → (s : Set) → IsSetBy settings.now s
        → ((status : Status) × (result ≡ number_of status) × Runs (tier_settings s) status (S.left source.old)
        (seen (K.written sink.old) (bases_by s (C.coming clock.old)) P.Disk.state P.Disk.possible site.old)
        (S.left source.new)
        (seen (K.written sink.new) (bases_by s (C.coming clock.new)) P.Disk.state P.Disk.possible site.new)) }
    ensures checks { Asks (texts words.entry.now) Task.Check → (s : Set) → IsSetBy settings.now s
        → ((status : Status) × (result ≡ number_of status)
        × CheckRuns status (S.left source.old) (K.written sink.old) (S.left source.new) (K.written sink.new)) }
    // The word is the one that the words give.
    ensures imports { (any : Bor (List ℕ)) → Asks (texts words.entry.now) (Task.Import any)
        → (s : Set) → IsSetBy settings.now s
        → ((word : Bor (List ℕ)) × Asks (texts words.entry.now) (Task.Import word)
        × (status : Status) × (result ≡ number_of status)
        × ImportRuns (tier_settings s) word.now status (S.left source.old)
        (seen (K.written sink.old) (bases_by s (C.coming clock.old)) P.Disk.state P.Disk.possible site.old)
        (S.left source.new)
        (seen (K.written sink.new) (bases_by s (C.coming clock.new)) P.Disk.state P.Disk.possible site.new)) }
    // The number is the one that the words give.
    ensures makes { (m : ℕ) → Asks (texts words.entry.now) (Task.Make m) → (s : Set) → IsSetBy settings.now s
        → ((n : ℕ) × Asks (texts words.entry.now) (Task.Make n) × (end : End) × (result ≡ number_of_end end)
        × Makes end n (K.written sink.old) (K.written sink.new)) }
    ensures benches { (m : ℕ) → Asks (texts words.entry.now) (Task.Bench m) → (s : Set) → IsSetBy settings.now s
        → ((n : ℕ) × Asks (texts words.entry.now) (Task.Bench n) × (end : End) × (result ≡ number_of_end end)
        × Benches end n (K.written sink.old) (K.written sink.new)) }
    ensures alone { (m : ℕ) → Asks (texts words.entry.now) (Task.Make m) ⊎ Asks (texts words.entry.now) (Task.Bench m)
        → (source.new ≡ source.old) × (site.new ≡ site.old) × (clock.new ≡ clock.old) }
    ensures takes { Asks (texts words.entry.now) Task.Run ⊎ Asks (texts words.entry.now) Task.Check
        → (s : Set) → IsSetBy settings.now s
        → ((status : Status) × (result ≡ number_of status) × Takes status (S.left source.old) (S.left source.new)) }
    ensures read { result ≡ 3 → Rose (S.faults source.old) (S.faults source.new) }
    ensures write { result ≡ 4 → Rose (K.faults sink.old) (K.faults sink.new) }
    ensures disk { result ≡ 5 → Rose (P.Disk.state site.old).disk_faults (P.Disk.state site.new).disk_faults }
    ensures unopened { result ≡ 6 → (source.new ≡ source.old) × (sink.new ≡ sink.old) }
    ensures untaken { (result ≡ 8) ⊎ (result ≡ 9) → source.new ≡ source.old }
    ensures schema { result ≡ 6 → Rose (P.Disk.state site.old).bank_faults (P.Disk.state site.new).bank_faults }
    // In the run that the clause `runs` speaks of, each fault that is told has a failed call of its own.
    ensures caused { (w w' : World) (lines : List Given) (replies : List (Option Reply)) → LineRun w lines replies w'
        → FaultsAreCaused w w' replies }
    // What `check` replies is a function of the lines.
    ensures same { (lines : List (List ℕ)) (rs ss : List (Option Reply)) → AreChecked lines rs → AreChecked lines ss
        → rs ≡ ss }
    ensures apart { Asks (texts words.entry.now) Task.Check → (site.new ≡ site.old) × (clock.new ≡ clock.old) }
    ensures unasked { (s : Set) → IsSetBy settings.now s → s.clock ≡ Script → clock.new ≡ clock.old }
{
    caused_law();
    check_law();
    settings_law();
    let asked = match asked_task(alloc, words, settings) {
        Ok(asked) => asked,
        Err(status) => return status,
    };
    match asked.command {
        Command::Run => run(alloc, &asked.settings, source, sink, site, clock).number(),
        Command::Check => check(alloc, source, sink).number(),
        Command::Import(word) => {
            import(alloc, word, &asked.settings, source, sink, site, clock).number()
        }
        Command::Make(number) => make(alloc, sink, number).number(),
        Command::Bench(number) => tell_bench(alloc, sink, number, progress).number(),
    }
}

/// The command `run` with these settings.
fn run<S: Source, K: Sink, P: Site, C: Clock>(
    alloc: Global,
    settings: &Settings,
    source: &mut S,
    sink: &mut K,
    site: &mut P,
    clock: &mut C,
) -> Status
    ensures runs { Runs (tier_settings settings.now) result (S.left source.old)
        (seen (K.written sink.old) (bases_by settings.now (C.coming clock.old)) P.Disk.state P.Disk.possible site.old)
        (S.left source.new)
        (seen (K.written sink.new) (bases_by settings.now (C.coming clock.new)) P.Disk.state P.Disk.possible site.new) }
    ensures takes { Takes result (S.left source.old) (S.left source.new) }
    ensures read { result ≡ Status.SourceFailed → Rose (S.faults source.old) (S.faults source.new) }
    ensures write { result ≡ Status.SinkFailed → Rose (K.faults sink.old) (K.faults sink.new) }
    ensures disk { result ≡ Status.DiskFailed
        → Rose (P.Disk.state site.old).disk_faults (P.Disk.state site.new).disk_faults }
    ensures untaken { takes_none result ≡ true → source.new ≡ source.old }
    ensures untold { (result ≡ Status.SchemaFailed) ⊎ (result ≡ Status.NoMemory) → sink.new ≡ sink.old }
    ensures schema { result ≡ Status.SchemaFailed
        → Rose (P.Disk.state site.old).bank_faults (P.Disk.state site.new).bank_faults }
    ensures unasked { settings.now.clock ≡ Script → clock.new ≡ clock.old }
{
    match settings.clock {
        ClockSource::Script => {
            let mut fixed = FixedClock(Moment(settings.start_ms));
            serve(alloc, pace_in(settings), source, sink, site, &mut fixed)
        }
        ClockSource::System => serve(alloc, pace_in(settings), source, sink, site, clock),
    }
}

/// What the program is asked to do.
#[derive(Clone, Copy)]
struct AskedTask<'a> {
    // the command that the words name
    command: Command<'a>,
    settings: Settings,
}

/// The command that the words name, with the settings, where these are good too; else the status.
fn asked_task<'a>(alloc: Global, words: &'a [&'a str], settings: &[u8]) -> Result<AskedTask<'a>, u8>
    ensures { MatchResult result
        (λ asked. Asks (texts words.entry.now) asked.command × IsSetBy settings.now asked.settings)
        (Unstarted (texts words.entry.now) settings.now) }
{
    let command = match read_command(alloc, words) {
        Ok(command) => command,
        Err(CommandError::Refused) => return Err(WRONG_WORDS),
        Err(CommandError::Memory) => return Err(NO_MEMORY),
    };
    match read_settings(alloc, settings) {
        Ok(settings) => Ok(AskedTask { command, settings }),
        Err(SettingsError::Bad) => Err(WRONG_SETTINGS),
        Err(SettingsError::Memory) => Err(NO_MEMORY),
    }
}
