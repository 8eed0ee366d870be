//! The commands `make` and `bench`.

ghost use Rattle.std.specs.Prelude.{◌≡◌};
ghost use Rattle.outside.specs.Faults.{Rose};
ghost use Rattle.session_cli.specs.Commands.{Benches, Makes};

use crate::benching::bench;
use crate::progress::Progress;
use outside::{Sink, put_all};
use script_maker::{MakeError, write_script};
use std::alloc::Global;

/// How such a command ended.
#[derive(Clone, Copy, PartialEq, Eq)]
pub enum End {
    /// All was written.
    Written,
    /// The sink failed, or took nothing of something.
    SinkFailed,
    /// Memory was wanting outside a request.
    NoMemory,
}

impl End {
    ghost use Rattle.std.specs.Prelude.{◌≡◌, ◌⊎◌};
    ghost use Rattle.session_cli.specs.Commands.{number_of};

    /// The program's status.
    pub fn number(self) -> u8
        ensures number { result ≡ number_of self }
        ensures few { (result ≡ 0) ⊎ ((result ≡ 4) ⊎ (result ≡ 7)) }
        ensures sink { result ≡ 4 → self ≡ End.SinkFailed }
    {
        match self {
            End::Written => 0,
            End::SinkFailed => 4,
            End::NoMemory => 7,
        }
    }
}

/// The command `make`: writes the script of a number.
///
/// `SinkFailed` only where the sink failed in this call, or took nothing of something.
pub fn make<K: Sink>(alloc: Global, sink: &mut K, number: u32) -> End
    ensures makes { Makes result number (K.written sink.old) (K.written sink.new) }
    ensures write { result ≡ End.SinkFailed → Rose (K.faults sink.old) (K.faults sink.new) }
{
    match write_script(alloc, sink, number) {
        Ok(()) => End::Written,
        Err(MakeError::Sink) => End::SinkFailed,
        Err(MakeError::Memory) => End::NoMemory,
    }
}

/// The command `bench`: runs the script of a number on a new site in memory, and writes what its run comes to. How far
/// it has come is told on the way.
///
/// `SinkFailed` only where the sink failed in this call, or took nothing of something.
pub fn tell_bench<K: Sink, G: Progress>(
    alloc: Global,
    sink: &mut K,
    number: u32,
    progress: &mut G,
) -> End
    ensures benches { Benches result number (K.written sink.old) (K.written sink.new) }
    ensures write { result ≡ End.SinkFailed → Rose (K.faults sink.old) (K.faults sink.new) }
{
    let Ok(summary) = bench(alloc, number, progress) else {
        return End::NoMemory;
    };
    let Ok(text) = summary.to_text(alloc) else {
        return End::NoMemory;
    };
    match put_all(sink, text.as_slice()) {
        Ok(()) => End::Written,
        Err(_) => End::SinkFailed,
    }
}
