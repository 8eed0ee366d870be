//! One request line and its reply.

ghost use Rattle.std.specs.Prelude.{◌≡◌, Some, nat_eq};
ghost use Rattle.tier_base.specs.Codes.{number_of};
ghost use Rattle.tier_base.specs.declared.code.Code.TheVariants as code;
ghost use Rattle.cache_tier.specs.Replying.{reply_bytes};
ghost use Rattle.cache_tier.specs.Steps.{tells};
ghost use Rattle.cache_engine.specs.Engines.{IsInOrder};
ghost use Rattle.session_cli.specs.Outside.{seen};
ghost use Rattle.session_cli.specs.Serving.{HasStopCause, IsStopCaused, PassesReply, Responds, TellsFault};
ghost use Rattle.session_cli.specs.Serving.{WritesLast};

use crate::timing::line_base;
use cache_engine::engine::Engine;
use cache_engine::request::request;
use cache_tier::heeding::heed_law;
use cache_tier::reply::{Last, Reply};
use outside::{Clock, Failed, Sink, Site};
use reply_lines::{Output, write_reply};
use std::alloc::Global;
use tier_base::Code;

/// Why a run stops before the end of its input.
#[derive(Clone, Copy, PartialEq, Eq)]
pub enum Stop {
    /// The sink failed, or took nothing of something.
    Sink,
    /// A call of the journal's disk failed. The last reply, `fault 202`, is written.
    Disk,
}

/// Lets the engine answer a line, and passes the reply on to the sink. Where the reply tells a failed call of the
/// journal's disk, all that waits is written, and the engine isn't to be used any more.
///
/// `Sink` only where the sink failed or took nothing of something: the line is then answered, and a front of what
/// waited and of the reply is written. `Disk` only where a call of the disk failed, which the reply tells.
pub fn respond<K: Sink, P: Site, C: Clock>(
    alloc: Global,
    engine: &mut Engine,
    output: &mut Output,
    sink: &mut K,
    site: &mut P,
    clock: &mut C,
    line: &[u8],
) -> Result<(), Stop>
    requires { IsInOrder engine.old }
    ensures serves { Responds result
        (seen (K.written sink.old) (C.coming clock.old) P.Disk.state P.Disk.possible site.old)
        (seen (K.written sink.new) (C.coming clock.new) P.Disk.state P.Disk.possible site.new)
        output.old output.new engine.old engine.new line.now }
    ensures order { IsInOrder engine.new }
    ensures cause { HasStopCause Stop.Sink (K.faults sink.old) (K.faults sink.new) result }
    ensures disk { HasStopCause Stop.Disk (P.Disk.state site.old).disk_faults (P.Disk.state site.new).disk_faults
        result }
{
    heed_law();
    let base = line_base(clock, line);
    match request(engine, alloc, site, base, line) {
        None => Ok(()),
        Some(reply) => pass_on(output, sink, &reply),
    }
}

/// Passes a reply on; where it tells a failed call of the journal's disk, it is the last one.
///
/// `Disk` exactly where it tells that and is written, with all that waited; `Sink` only where the sink failed or took
/// nothing of something, and a front is written.
pub(crate) fn pass_on<K: Sink>(output: &mut Output, sink: &mut K, reply: &Reply) -> Result<(), Stop>
    ensures bytes { PassesReply result (K.written sink.old) (K.written sink.new) output.old output.new
        (reply_bytes (Some reply.now)) }
    ensures tells { TellsFault result (Some reply.now) }
    ensures cause { HasStopCause Stop.Sink (K.faults sink.old) (K.faults sink.new) result }
{
    if is_disk_fault(&reply.last) {
        return Err(write_last_reply(output, sink, reply));
    }
    match write_reply(output, sink, reply) {
        Ok(()) => Ok(()),
        Err(Failed) => Err(Stop::Sink),
    }
}

// Writes all that waits, and behind it the last reply of a run, which tells a failed call of the journal's disk. It is
// `Sink` only where the sink failed or took nothing of something, and a front is written.
fn write_last_reply<K: Sink>(output: &mut Output, sink: &mut K, reply: &Reply) -> Stop
    ensures bytes { WritesLast result (K.written sink.old) (K.written sink.new) output.old
        (reply_bytes (Some reply.now)) }
    ensures cause { IsStopCaused Stop.Sink (K.faults sink.old) (K.faults sink.new) result }
{
    let Ok(()) = write_reply(output, sink, reply) else {
        return Stop::Sink;
    };
    match output.flush(sink) {
        Ok(()) => Stop::Disk,
        Err(Failed) => Stop::Sink,
    }
}

// The last line of a reply tells a failed call of the journal's disk.
fn is_disk_fault(last: &Last) -> bool
    ensures { result ≡ tells code.JournalFault last.now }
{
    match last {
        Last::Done(_) => false,
        Last::No(_) => false,
        Last::Fault(rule) => is_journal_fault(rule.code),
    }
}

fn is_journal_fault(told: Code) -> bool
    ensures { result ≡ nat_eq (number_of told) (number_of code.JournalFault) }
{
    told.number() == Code::JournalFault.number()
}
