//! A session over the input's bytes as they come.

use crate::answering::{Stop, pass_on, respond};
use crate::line::LineBuffer;
use cache_engine::engine::Engine;
use cache_engine::finishing::finish as finish_engine;
use outside::{Clock, Failed, Sink, Site};
use reply_lines::Output;
use std::alloc::Global;

/// What is kept between the pieces of the input.
pub struct Session {
    /// The tier, and the commit that is in doubt.
    pub engine: Engine,
    /// The line that hasn't ended.
    pub line: LineBuffer,
    /// The reply bytes that aren't written.
    pub output: Output,
}

impl Drop for Session {
    fn drop(self) {
        let Self {
            engine: _,
            line: _,
            output: _,
        } = self;
    }
}

impl Session {
    ghost use Rattle.std.specs.Prelude.{◌≡◌, ◌++◌, ◌∷◌, [], Err, List, ℕ, OnOk};
    ghost use Rattle.cache_engine.specs.Engines.{IsInOrder};
    ghost use Rattle.session_cli.specs.Cutting.{all_lines};
    ghost use Rattle.session_cli.specs.Outside.{seen};
    ghost use Rattle.session_cli.specs.Serving.{Closes, Closing, Feeds, Finishes, HasStopCause, IsLeftAlone, Origin};
    ghost use Rattle.session_cli.specs.Serving.{PassesReply, Serving};
    ghost use Rattle.session_cli.specs.Timing.{Coming};

    /// Takes in a piece of the input: the lines that end in it are answered, and their replies written.
    ///
    /// `Sink` only where the sink failed or took nothing of something: the lines that end in a front of the piece are
    /// then answered, and a front of the replies is written. `Disk` only where a call of the journal's disk failed: the
    /// lines that end in a front of the piece are answered, and all replies are written, of which the last tells it.
    pub fn feed<K: Sink, P: Site, C: Clock>(
        &mut self,
        alloc: Global,
        sink: &mut K,
        site: &mut P,
        clock: &mut C,
        bytes: &[u8],
    ) -> Result<(), Stop>
        requires { IsInOrder self.old.engine }
        ensures serves { (o : Origin) (given : List ℕ) → IsLeftAlone o (given ++ bytes.now) → Serving o given
            (seen (K.written sink.old) (C.coming clock.old) P.Disk.state P.Disk.possible site.old) self.old
            → Feeds result o given bytes.now
            (seen (K.written sink.new) (C.coming clock.new) P.Disk.state P.Disk.possible site.new) self.new }
        ensures empty { OnOk result (self.new.output ≡ []) }
        ensures order { IsInOrder self.new.engine }
        ensures cause { HasStopCause Stop.Sink (K.faults sink.old) (K.faults sink.new) result }
        ensures disk { HasStopCause Stop.Disk (P.Disk.state site.old).disk_faults
            (P.Disk.state site.new).disk_faults result }
    {
        match self.take_in(alloc, sink, site, clock, bytes) {
            Ok(()) => self.flush(sink),
            Err(stop) => Err(stop),
        }
    }

    /// Answers the last line, where the input ended behind no line feed, flushes what waits in the journal's tail, and
    /// writes all replies.
    ///
    /// `Sink` only where the sink failed or took nothing of something: all lines are then answered, and a front of
    /// the replies is written. `Disk` only where a call of the journal's disk failed, at the last line or at that
    /// flush: all replies are written, of which the last tells it.
    pub fn finish<K: Sink, P: Site, C: Clock>(
        &mut self,
        alloc: Global,
        sink: &mut K,
        site: &mut P,
        clock: &mut C,
    ) -> Result<(), Stop>
        requires { IsInOrder self.old.engine }
        ensures serves { (o : Origin) (given : List ℕ) → IsLeftAlone o given → Serving o given
            (seen (K.written sink.old) (C.coming clock.old) P.Disk.state P.Disk.possible site.old) self.old
            → Finishes result o given
            (seen (K.written sink.new) (C.coming clock.new) P.Disk.state P.Disk.possible site.new) }
        ensures order { IsInOrder self.new.engine }
        ensures cause { HasStopCause Stop.Sink (K.faults sink.old) (K.faults sink.new) result }
        ensures disk { HasStopCause Stop.Disk (P.Disk.state site.old).disk_faults
            (P.Disk.state site.new).disk_faults result }
    {
        match self.end_input(alloc, sink, site, clock) {
            Ok(()) => self.end_engine(alloc, sink, site),
            Err(stop) => Err(stop),
        }
    }

    // All lines are answered: flushes what waits in the journal's tail, and writes all replies.
    fn end_engine<K: Sink, P: Site>(
        &mut self,
        alloc: Global,
        sink: &mut K,
        site: &mut P,
    ) -> Result<(), Stop>
        ensures serves { (o : Origin) (given : List ℕ) (coming : Coming)
            → Closing o (all_lines given) (seen (K.written sink.old) coming P.Disk.state P.Disk.possible site.old)
            self.old.engine self.old.output
            → Finishes result o given (seen (K.written sink.new) coming P.Disk.state P.Disk.possible site.new) }
        ensures order { IsInOrder self.old.engine → IsInOrder self.new.engine }
        ensures cause { HasStopCause Stop.Sink (K.faults sink.old) (K.faults sink.new) result }
        ensures disk { HasStopCause Stop.Disk (P.Disk.state site.old).disk_faults
            (P.Disk.state site.new).disk_faults result }
    {
        match finish_engine(&mut self.engine, alloc, site) {
            Ok(()) => self.flush(sink),
            Err(reply) => pass_on(&mut self.output, sink, &reply),
        }
    }

    // Writes all that waits.
    fn flush<K: Sink>(&mut self, sink: &mut K) -> Result<(), Stop>
        ensures bytes { PassesReply result (K.written sink.old) (K.written sink.new) self.old.output self.new.output
            [] }
        ensures sink { result ≡ Err Stop.Disk → ⊥ }
        ensures empty { OnOk result (self.new.output ≡ []) }
        ensures engine { self.new.engine ≡ self.old.engine }
        ensures line { self.new.line ≡ self.old.line }
        ensures cause { HasStopCause Stop.Sink (K.faults sink.old) (K.faults sink.new) result }
    {
        match self.output.flush(sink) {
            Ok(()) => Ok(()),
            Err(Failed) => Err(Stop::Sink),
        }
    }

    // The same, but the replies may wait.
    fn end_input<K: Sink, P: Site, C: Clock>(
        &mut self,
        alloc: Global,
        sink: &mut K,
        site: &mut P,
        clock: &mut C,
    ) -> Result<(), Stop>
        requires { IsInOrder self.old.engine }
        ensures serves { (o : Origin) (given : List ℕ) → IsLeftAlone o given → Serving o given
            (seen (K.written sink.old) (C.coming clock.old) P.Disk.state P.Disk.possible site.old) self.old
            → Closes result o given
            (seen (K.written sink.new) (C.coming clock.new) P.Disk.state P.Disk.possible site.new)
            self.new.engine self.new.output }
        ensures order { IsInOrder self.new.engine }
        ensures cause { HasStopCause Stop.Sink (K.faults sink.old) (K.faults sink.new) result }
        ensures disk { HasStopCause Stop.Disk (P.Disk.state site.old).disk_faults
            (P.Disk.state site.new).disk_faults result }
    {
        if self.line.is_empty() {
            return Ok(());
        }
        respond(
            alloc,
            &mut self.engine,
            &mut self.output,
            sink,
            site,
            clock,
            self.line.as_bytes(),
        )
    }

    // The same as `feed`, but the replies may wait.
    fn take_in<K: Sink, P: Site, C: Clock>(
        &mut self,
        alloc: Global,
        sink: &mut K,
        site: &mut P,
        clock: &mut C,
        bytes: &[u8],
    ) -> Result<(), Stop>
        requires { IsInOrder self.old.engine }
        ensures serves { (o : Origin) (given : List ℕ) → IsLeftAlone o (given ++ bytes.now) → Serving o given
            (seen (K.written sink.old) (C.coming clock.old) P.Disk.state P.Disk.possible site.old) self.old
            → Feeds result o given bytes.now
            (seen (K.written sink.new) (C.coming clock.new) P.Disk.state P.Disk.possible site.new) self.new }
        ensures order { IsInOrder self.new.engine }
        ensures cause { HasStopCause Stop.Sink (K.faults sink.old) (K.faults sink.new) result }
        ensures disk { HasStopCause Stop.Disk (P.Disk.state site.old).disk_faults
            (P.Disk.state site.new).disk_faults result }
    {
        for byte in bytes {
            match self.take_byte(alloc, sink, site, clock, *byte) {
                Ok(()) => {}
                Err(stop) => return Err(stop),
            }
        }
        Ok(())
    }

    fn take_byte<K: Sink, P: Site, C: Clock>(
        &mut self,
        alloc: Global,
        sink: &mut K,
        site: &mut P,
        clock: &mut C,
        byte: u8,
    ) -> Result<(), Stop>
        requires { IsInOrder self.old.engine }
        ensures serves { (o : Origin) (given : List ℕ) → IsLeftAlone o given → Serving o given
            (seen (K.written sink.old) (C.coming clock.old) P.Disk.state P.Disk.possible site.old) self.old
            → Feeds result o given (byte ∷ [])
            (seen (K.written sink.new) (C.coming clock.new) P.Disk.state P.Disk.possible site.new) self.new }
        ensures order { IsInOrder self.new.engine }
        ensures cause { HasStopCause Stop.Sink (K.faults sink.old) (K.faults sink.new) result }
        ensures disk { HasStopCause Stop.Disk (P.Disk.state site.old).disk_faults
            (P.Disk.state site.new).disk_faults result }
    {
        if byte == b'\n' {
            return self.end_line(alloc, sink, site, clock);
        }
        self.line.push(byte);
        Ok(())
    }

    // A line feed came.
    fn end_line<K: Sink, P: Site, C: Clock>(
        &mut self,
        alloc: Global,
        sink: &mut K,
        site: &mut P,
        clock: &mut C,
    ) -> Result<(), Stop>
        requires { IsInOrder self.old.engine }
        ensures serves { (o : Origin) (given : List ℕ) → IsLeftAlone o given → Serving o given
            (seen (K.written sink.old) (C.coming clock.old) P.Disk.state P.Disk.possible site.old) self.old
            → Feeds result o given (10 ∷ [])
            (seen (K.written sink.new) (C.coming clock.new) P.Disk.state P.Disk.possible site.new) self.new }
        ensures order { IsInOrder self.new.engine }
        ensures cause { HasStopCause Stop.Sink (K.faults sink.old) (K.faults sink.new) result }
        ensures disk { HasStopCause Stop.Disk (P.Disk.state site.old).disk_faults
            (P.Disk.state site.new).disk_faults result }
    {
        let line = self.line.text();
        match respond(
            alloc,
            &mut self.engine,
            &mut self.output,
            sink,
            site,
            clock,
            line,
        ) {
            Ok(()) => {
                self.line.clear();
                Ok(())
            }
            Err(stop) => Err(stop),
        }
    }
}
