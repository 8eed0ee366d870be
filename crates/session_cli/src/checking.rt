//! A run of `check` over a whole input.

ghost use Rattle.std.specs.Prelude.{◌≡◌, ◌<◌, false, length};
ghost use Rattle.outside.specs.Faults.{Rose};
ghost use Rattle.session_cli.specs.Checking.{CheckRuns, IsNewChecker, status_of};
ghost use Rattle.session_cli.specs.Ends.{Takes, is_of_site};

use crate::checker::{CheckFault, Checker};
use crate::serving::Status;
use outside::{Sink, Source};
use std::alloc::Global;

/// At most so many bytes are taken without an end.
const INPUT_BYTES: u64 = 4_294_967_296;

/// How many bytes of the input are taken at once.
const PIECE_BYTES: usize = 65_536;

/// Checks each request line of the source, and writes the replies into the sink.
///
/// One pass over the input, in pieces. Replies are written before more of the input is asked for.
pub fn check<S: Source, K: Sink>(alloc: Global, source: &mut S, sink: &mut K) -> Status
    ensures checks { CheckRuns result (S.left source.old) (K.written sink.old)
        (S.left source.new) (K.written sink.new) }
    ensures takes { Takes result (S.left source.old) (S.left source.new) }
    ensures read { result ≡ Status.SourceFailed → Rose (S.faults source.old) (S.faults source.new) }
    ensures write { result ≡ Status.SinkFailed → Rose (K.faults sink.old) (K.faults sink.new) }
    ensures alone { is_of_site result ≡ false }
{
    let Ok(mut checker) = Checker::new(alloc) else {
        return Status::NoMemory;
    };
    let Ok(mut piece) = vec![in alloc; 0u8; PIECE_BYTES] else {
        return Status::NoMemory;
    };
    check_pieces(alloc, &mut checker, piece.as_mut_slice(), source, sink)
}

// The same with a new checker and a buffer for pieces.
fn check_pieces<S: Source, K: Sink>(
    alloc: Global,
    checker: &mut Checker,
    piece: &mut [u8],
    source: &mut S,
    sink: &mut K,
) -> Status
    requires new { IsNewChecker checker.old }
    requires room { 0 < length piece.old }
    ensures checks { CheckRuns result (S.left source.old) (K.written sink.old)
        (S.left source.new) (K.written sink.new) }
    ensures takes { Takes result (S.left source.old) (S.left source.new) }
    ensures read { result ≡ Status.SourceFailed → Rose (S.faults source.old) (S.faults source.new) }
    ensures write { result ≡ Status.SinkFailed → Rose (K.faults sink.old) (K.faults sink.new) }
    ensures alone { is_of_site result ≡ false }
{
    let mut room = INPUT_BYTES;
    while room > 0 {
        let want = room.min(piece.len() as u64) as usize;
        let Ok(count) = source.take(&mut piece[..want]) else {
            return Status::SourceFailed;
        };
        if count == 0 {
            match checker.finish(alloc, sink) {
                Ok(()) => return Status::Finished,
                Err(fault) => return status_of(fault),
            }
        }
        match checker.feed(alloc, sink, &piece[..count]) {
            Ok(()) => room -= count as u64,
            Err(fault) => return status_of(fault),
        }
    }
    Status::InputTooLong
}

/// With which status a run ends at a fault.
fn status_of(fault: CheckFault) -> Status
    ensures status { result ≡ status_of fault }
    ensures alone { is_of_site result ≡ false }
{
    match fault {
        CheckFault::Sink => Status::SinkFailed,
        CheckFault::Memory => Status::LineUnchecked,
    }
}
