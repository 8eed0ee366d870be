//! `import`: the rows of a CSV file go into a backing table.

ghost use Rattle.std.specs.Prelude.{◌≡◌, ◌<◌, ◌⊎◌, [], Err, IfOk, List, ℕ, Some, length, true};
ghost use Rattle.outside.specs.Faults.{HasCause, Rose};
ghost use Rattle.cache_tier.specs.Worlds.{World};
ghost use Rattle.command_line.specs.declared.settings.ClockSource.TheVariants.{Script};
ghost use Rattle.tier_journal.specs.KeptOver.{IsLeftOver, KeepsOver};
ghost use Rattle.stored_tier.specs.Sites.{IsAt};
ghost use Rattle.stored_tier.specs.Stored.{IsStoredAs};
ghost use Rattle.session_cli.specs.Ends.{Taken};
ghost use Rattle.session_cli.specs.Importing.{ImportRuns, Imported, TakesAll, TellsImport};
ghost use Rattle.session_cli.specs.Opening.{tier_settings};
ghost use Rattle.session_cli.specs.Outside.{seen};
ghost use Rattle.session_cli.specs.Timing.{IsNext, bases_by};

use crate::serving::{Status, end_told, pace_in};
use cache_engine::engine::Engine;
use cache_engine::importing::import_rows;
use cache_engine::opening::{OpenError, open};
use command_line::{ClockSource, Settings};
use outside::{Clock, Failed, Sink, Site, Source};
use reply_lines::{Output, write_reply};
use std::alloc::Global;
use tier_base::Moment;

/// At most so many bytes are taken without an end.
const INPUT_BYTES: u64 = 4_294_967_296;

/// How many bytes of the input are taken at once.
const PIECE_BYTES: usize = 65_536;

/// Why an input isn't taken whole.
#[derive(Clone, Copy, PartialEq, Eq)]
enum InputError {
    /// The source failed.
    Source,
    /// 2^32 bytes were taken without an end.
    TooLong,
    /// Memory was wanting.
    Memory,
}

/// The command `import`: opens an engine over the site, with its journal, takes the whole source, and inserts its rows
/// into the backing table of the word, as `cache_engine::importing::import_rows` does. The reply is written.
///
/// No due work is done, and the journal isn't written to. Where no engine is opened nothing of the source is taken. A
/// line says why then, as `serve` writes it, but none of a failed call of the journal's disk. Nothing is done and
/// nothing is written where the source failed, where 2^32 bytes were taken from it without an end, or where memory
/// was wanting before the rows were read. (This project's rule.)
pub fn import<S: Source, K: Sink, P: Site, C: Clock>(
    alloc: Global,
    word: &str,
    settings: &Settings,
    source: &mut S,
    sink: &mut K,
    site: &mut P,
    clock: &mut C,
) -> Status
    ensures imports { ImportRuns (tier_settings settings.now) word.now result (S.left source.old)
        (seen (K.written sink.old) (bases_by settings.now (C.coming clock.old)) P.Disk.state P.Disk.possible site.old)
        (S.left source.new)
        (seen (K.written sink.new) (bases_by settings.now (C.coming clock.new)) P.Disk.state P.Disk.possible site.new) }
    ensures read { result ≡ Status.SourceFailed → Rose (S.faults source.old) (S.faults source.new) }
    ensures write { result ≡ Status.SinkFailed → Rose (K.faults sink.old) (K.faults sink.new) }
    ensures disk { result ≡ Status.DiskFailed
        → Rose (P.Disk.state site.old).disk_faults (P.Disk.state site.new).disk_faults }
    ensures schema { result ≡ Status.SchemaFailed
        → Rose (P.Disk.state site.old).bank_faults (P.Disk.state site.new).bank_faults }
    ensures untaken { (result ≡ Status.SchemaFailed) ⊎ ((result ≡ Status.Damaged) ⊎ (result ≡ Status.Differs))
        → source.new ≡ source.old }
    ensures untold { result ≡ Status.SchemaFailed → sink.new ≡ sink.old }
    ensures unasked { settings.now.clock ≡ Script → clock.new ≡ clock.old }
{
    let Ok(mut piece) = vec![in alloc; 0u8; PIECE_BYTES] else {
        return Status::NoMemory;
    };
    let Ok(mut output) = Output::new(alloc) else {
        return Status::NoMemory;
    };
    let start = first_moment(settings, clock);
    let engine = match open(alloc, site, start, pace_in(settings)) {
        Ok(engine) => engine,
        Err(error) => return end_unopened(&mut output, sink, &error),
    };
    let mut bytes = Vec::new(alloc);
    match take_all(&mut bytes, piece.as_mut_slice(), source) {
        Err(InputError::Source) => return Status::SourceFailed,
        Err(InputError::TooLong) => return Status::InputTooLong,
        Err(InputError::Memory) => return Status::NoMemory,
        Ok(()) => {}
    }
    let bytes = bytes.as_slice();
    match import_and_tell(alloc, &engine, &mut output, sink, site, word, bytes) {
        Ok(()) => Status::Finished,
        Err(Failed) => Status::SinkFailed,
    }
}

// What the moment of the opening is counted from: the settings' first moment, or an answer of the clock.
fn first_moment<C: Clock>(settings: &Settings, clock: &mut C) -> Moment
    ensures next { IsNext (bases_by settings.now (C.coming clock.old) 0) result.0 }
    ensures unasked { settings.now.clock ≡ Script → clock.new ≡ clock.old }
{
    match settings.clock {
        ClockSource::Script => Moment(settings.start_ms),
        ClockSource::System => clock.now(),
    }
}

// Writes the line that says why no engine is opened, where there is one, and tells the status.
fn end_unopened<K: Sink>(output: &mut Output, sink: &mut K, error: &OpenError) -> Status
    requires { output.old ≡ [] }
    ensures tells { TellsImport result (K.written sink.old) (K.written sink.new) error.now }
    ensures untold { result ≡ Status.SchemaFailed → sink.new ≡ sink.old }
    ensures write { result ≡ Status.SinkFailed → Rose (K.faults sink.old) (K.faults sink.new) }
{
    match error {
        OpenError::Disk => Status::DiskFailed,
        OpenError::Bank => Status::SchemaFailed,
        OpenError::Memory => Status::NoMemory,
        OpenError::Damaged(_, _) => end_told(output, sink, error, Status::Damaged),
        OpenError::Differs(_, _) => end_told(output, sink, error, Status::Differs),
    }
}

// Takes the whole source, with a buffer for pieces.
fn take_all<S: Source>(
    bytes: &mut Vec<u8>,
    piece: &mut [u8],
    source: &mut S,
) -> Result<(), InputError>
    requires empty { bytes.old.items ≡ [] }
    requires room { 0 < length piece.old }
    ensures all { IfOk result (λ done. (input : List ℕ) → S.left source.old ≡ Some input
        → TakesAll input bytes.new.items (S.left source.new)) }
    ensures failed { result ≡ Err InputError.Source → (input : List ℕ) → S.left source.old ≡ Some input
        → Taken Status.SourceFailed input (S.left source.new) }
    ensures long { result ≡ Err InputError.TooLong → (input : List ℕ) → S.left source.old ≡ Some input
        → Taken Status.InputTooLong input (S.left source.new) }
    ensures read { result ≡ Err InputError.Source → Rose (S.faults source.old) (S.faults source.new) }
{
    let mut room = INPUT_BYTES;
    while room > 0 {
        let want = room.min(piece.len() as u64) as usize;
        let Ok(count) = source.take(&mut piece[..want]) else {
            return Err(InputError::Source);
        };
        if count == 0 {
            return Ok(());
        }
        let Ok(()) = bytes.extend_from_slice(&piece[..count]) else {
            return Err(InputError::Memory);
        };
        room -= count as u64;
    }
    Err(InputError::TooLong)
}

// Imports the rows, and writes the reply.
fn import_and_tell<K: Sink, P: Site>(
    alloc: Global,
    engine: &Engine,
    output: &mut Output,
    sink: &mut K,
    site: &mut P,
    word: &str,
    bytes: &[u8],
) -> Result<(), Failed>
    requires { output.old ≡ [] }
    ensures imports { (w : World) → IsAt (P.Disk.state site.old) w → IsStoredAs engine.now.tier w.tier
        → KeepsOver P.Disk.state P.Disk.possible site.old engine.now.journal w → w.journal.kept ≡ true
        → Imported result word.now bytes.now w (K.written sink.old) (K.written sink.new) (P.Disk.state site.new)
        (IsLeftOver P.Disk.state P.Disk.possible site.new) }
    ensures cause { HasCause (K.faults sink.old) (K.faults sink.new) result }
{
    let reply = import_rows(engine, alloc, site, word.as_bytes(), bytes);
    let Ok(()) = write_reply(output, sink, &reply) else {
        return Err(Failed);
    };
    output.flush(sink)
}
