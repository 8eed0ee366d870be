//! A run over a whole input.

ghost use Rattle.std.specs.Prelude.{◌≡◌, ◌<◌, ◌⊎◌, [], false, length, true};
ghost use Rattle.outside.specs.Faults.{Rose};
ghost use Rattle.cache_tier.specs.TierStates.{Settings as TierSettings};
ghost use Rattle.cache_engine.specs.Engines.{IsInOrder};
ghost use Rattle.stored_tier.specs.Stored.{pace_of};
ghost use Rattle.session_cli.specs.Ends.{Runs, Serves, Takes, status_of, takes_none};
ghost use Rattle.session_cli.specs.Opening.{TellsLine, TellsWhy, tier_settings};
ghost use Rattle.session_cli.specs.Outside.{seen};

use crate::answering::Stop;
use crate::line::LineBuffer;
use crate::session::Session;
use crate::unopened::write_unopened;
use cache_engine::opening::{OpenError, open};
use command_line::Settings;
use outside::{Clock, Failed, Sink, Site, Source};
use reply_lines::Output;
use std::alloc::Global;
use stored_tier::clock::Pace;

/// At most so many bytes are taken without an end.
const INPUT_BYTES: u64 = 4_294_967_296;

/// How many bytes of the input are taken at once.
const PIECE_BYTES: usize = 65_536;

/// How a run ended.
#[derive(Clone, Copy, PartialEq, Eq)]
pub enum Status {
    /// The input was read to its end.
    Finished,
    /// The source failed.
    SourceFailed,
    /// The sink failed, or took nothing of something.
    SinkFailed,
    /// A call of the journal's disk failed.
    DiskFailed,
    /// The backing database failed as the tier was opened.
    SchemaFailed,
    /// Memory was wanting before the first request.
    NoMemory,
    /// Memory was wanting while a line was checked.
    LineUnchecked,
    /// A place of the journal doesn't read, or its entry doesn't fit the schema.
    Damaged,
    /// A row of a backing table isn't as an entry of the journal says.
    Differs,
    /// 2^32 bytes were taken without an end.
    InputTooLong,
}

impl Status {
    ghost use Rattle.std.specs.Prelude.{◌≡◌};
    ghost use Rattle.session_cli.specs.Ends.{number_of};

    /// The program's status.
    pub fn number(self) -> u8
        ensures { result ≡ number_of self }
    {
        match self {
            Status::Finished => 0,
            Status::SourceFailed => 3,
            Status::SinkFailed => 4,
            Status::DiskFailed => 5,
            Status::SchemaFailed => 6,
            Status::NoMemory => 7,
            Status::LineUnchecked => 7,
            Status::Damaged => 8,
            Status::Differs => 9,
            Status::InputTooLong => 10,
        }
    }
}

/// Opens an engine over the site, with its journal, lets it answer each request line of the source, and writes the
/// replies into the sink. Behind the last line what waits in the journal's tail is flushed. The moments of the opening
/// and of the lines are counted from what the clock answers. `pace` says when work is done.
///
/// One pass over the input, in pieces. All memory of its own is taken before the engine is opened. Replies are
/// written before more of the input is asked for. Where no engine is opened a line says why: `fault 202` of a failed
/// call of the journal's disk, `damaged S P` of its first damaged place, `fault 210 TABLE KEY` of a backing row that
/// differs. A line or a flush in which a call of that disk failed ends the run with `fault 202`.
pub fn serve<S: Source, K: Sink, P: Site, C: Clock>(
    alloc: Global,
    pace: Pace,
    source: &mut S,
    sink: &mut K,
    site: &mut P,
    clock: &mut C,
) -> Status
    ensures runs { (settings : TierSettings) → pace_of settings ≡ pace
        → Runs settings result (S.left source.old)
        (seen (K.written sink.old) (C.coming clock.old) P.Disk.state P.Disk.possible site.old) (S.left source.new)
        (seen (K.written sink.new) (C.coming clock.new) P.Disk.state P.Disk.possible site.new) }
    ensures takes { Takes result (S.left source.old) (S.left source.new) }
    ensures read { result ≡ Status.SourceFailed → Rose (S.faults source.old) (S.faults source.new) }
    ensures write { result ≡ Status.SinkFailed → Rose (K.faults sink.old) (K.faults sink.new) }
    ensures disk { result ≡ Status.DiskFailed
        → Rose (P.Disk.state site.old).disk_faults (P.Disk.state site.new).disk_faults }
    ensures untaken { takes_none result ≡ true → source.new ≡ source.old }
    ensures untold { (result ≡ Status.SchemaFailed) ⊎ (result ≡ Status.NoMemory) → sink.new ≡ sink.old }
    ensures schema { result ≡ Status.SchemaFailed
        → Rose (P.Disk.state site.old).bank_faults (P.Disk.state site.new).bank_faults }
{
    let Ok(mut piece) = vec![in alloc; 0u8; PIECE_BYTES] else {
        return Status::NoMemory;
    };
    let Ok(line) = LineBuffer::new(alloc) else {
        return Status::NoMemory;
    };
    let Ok(mut output) = Output::new(alloc) else {
        return Status::NoMemory;
    };
    let start = clock.now();
    match open(alloc, site, start, pace) {
        Ok(engine) => {
            let mut session = Session {
                engine,
                line,
                output,
            };
            let piece = piece.as_mut_slice();
            serve_pieces(alloc, &mut session, piece, source, sink, site, clock)
        }
        Err(error) => end_unopened(&mut output, sink, &error),
    }
}

/// When work is done, by the settings.
pub(crate) fn pace_in(settings: &Settings) -> Pace
    ensures { result ≡ pace_of (tier_settings settings.now) }
{
    Pace {
        propagate_ms: settings.propagate_ms,
        rotate_bytes: settings.rotate_bytes,
        lru_high: settings.lru_high,
        lru_low: settings.lru_low,
        lru_cycle_ms: settings.lru_cycle_ms,
    }
}

// Writes the line that says why no engine is opened, where there is one, and tells with which status the run ends.
fn end_unopened<K: Sink>(output: &mut Output, sink: &mut K, error: &OpenError) -> Status
    requires { output.old ≡ [] }
    ensures tells { TellsWhy result (K.written sink.old) (K.written sink.new) error.now }
    ensures untold { (result ≡ Status.SchemaFailed) ⊎ (result ≡ Status.NoMemory) → sink.new ≡ sink.old }
    ensures write { result ≡ Status.SinkFailed → Rose (K.faults sink.old) (K.faults sink.new) }
{
    match error {
        OpenError::Bank => Status::SchemaFailed,
        OpenError::Memory => Status::NoMemory,
        OpenError::Disk => end_told(output, sink, error, Status::DiskFailed),
        OpenError::Damaged(_, _) => end_told(output, sink, error, Status::Damaged),
        OpenError::Differs(_, _) => end_told(output, sink, error, Status::Differs),
    }
}

/// Writes the line. The status is the one that is given, unless the sink failed.
pub(crate) fn end_told<K: Sink>(
    output: &mut Output,
    sink: &mut K,
    error: &OpenError,
    status: Status,
) -> Status
    requires { output.old ≡ [] }
    ensures tells { TellsLine result status (K.written sink.old) (K.written sink.new) error.now }
    ensures write { result ≡ Status.SinkFailed
        → (status ≡ Status.SinkFailed) ⊎ Rose (K.faults sink.old) (K.faults sink.new) }
{
    let Ok(()) = write_unopened(output, sink, error) else {
        return Status::SinkFailed;
    };
    match output.flush(sink) {
        Ok(()) => status,
        Err(Failed) => Status::SinkFailed,
    }
}

// The same with a new session, which has been given nothing, and a buffer for pieces.
fn serve_pieces<S: Source, K: Sink, P: Site, C: Clock>(
    alloc: Global,
    session: &mut Session,
    piece: &mut [u8],
    source: &mut S,
    sink: &mut K,
    site: &mut P,
    clock: &mut C,
) -> Status
    requires empty { session.old.output ≡ [] }
    requires room { 0 < length piece.old }
    requires order { IsInOrder session.old.engine }
    ensures serves { Serves session.old result (S.left source.old)
        (seen (K.written sink.old) (C.coming clock.old) P.Disk.state P.Disk.possible site.old) (S.left source.new)
        (seen (K.written sink.new) (C.coming clock.new) P.Disk.state P.Disk.possible site.new) }
    ensures takes { Takes result (S.left source.old) (S.left source.new) }
    ensures read { result ≡ Status.SourceFailed → Rose (S.faults source.old) (S.faults source.new) }
    ensures write { result ≡ Status.SinkFailed → Rose (K.faults sink.old) (K.faults sink.new) }
    ensures disk { result ≡ Status.DiskFailed
        → Rose (P.Disk.state site.old).disk_faults (P.Disk.state site.new).disk_faults }
    ensures opened { takes_none result ≡ false }
{
    let mut room = INPUT_BYTES;
    while room > 0 {
        let want = room.min(piece.len() as u64) as usize;
        let Ok(count) = source.take(&mut piece[..want]) else {
            return Status::SourceFailed;
        };
        if count == 0 {
            match session.finish(alloc, sink, site, clock) {
                Ok(()) => return Status::Finished,
                Err(stop) => return status_of(stop),
            }
        }
        match session.feed(alloc, sink, site, clock, &piece[..count]) {
            Ok(()) => room -= count as u64,
            Err(stop) => return status_of(stop),
        }
    }
    Status::InputTooLong
}

// With which status a run ends that stops so.
fn status_of(stop: Stop) -> Status
    ensures { result ≡ status_of stop }
{
    match stop {
        Stop::Sink => Status::SinkFailed,
        Stop::Disk => Status::DiskFailed,
    }
}
