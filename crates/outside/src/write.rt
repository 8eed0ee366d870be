//! Writing all of some bytes.

ghost use Rattle.std.specs.Prelude.{length};
ghost use Rattle.outside.specs.Faults.{HasCause};
ghost use Rattle.outside.specs.Writing.{Writes};

use crate::fault::Failed;
use crate::sink::Sink;

/// Writes all of the bytes, piece by piece.
///
/// `Failed` where the sink failed or took nothing of something: a front of the bytes is then written.
pub fn put_all<K: Sink>(sink: &mut K, bytes: &[u8]) -> Result<(), Failed>
    ensures bytes { Writes result (K.written sink.old) (K.written sink.new) bytes.now }
    ensures cause { HasCause (K.faults sink.old) (K.faults sink.new) result }
{
    let mut done = 0;
    while done < bytes.len() {
        match sink.put(&bytes[done..]) {
            Ok(0) => return Err(Failed),
            Ok(count) => done += count,
            Err(error) => return Err(error),
        }
    }
    Ok(())
}
