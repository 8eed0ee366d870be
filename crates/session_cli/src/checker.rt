//! The lines of `check`, over the input's bytes as they come.

ghost use Rattle.std.specs.Prelude.{◌≡◌, ℕ, List, Option, IfOk};
ghost use Rattle.sql_subset.specs.Lines.{Means, Saying};
ghost use Rattle.cache_tier.specs.Worlds.{only};
ghost use Rattle.cache_tier.specs.declared.reply.Last.TheVariants.{No};
ghost use Rattle.cache_tier.specs.declared.reply.Reply.{Reply as TierReply};
ghost use Rattle.session_cli.specs.Checking.{AreChecked, CheckHasCause, Checks, Tells};

use crate::line::LineBuffer;
use cache_tier::reply::Reply;
use outside::Sink;
use reply_lines::{Output, write_reply};
use row_types::{Detail, Rule};
use sql_subset::line::{one_meaning, says_something};
use sql_subset::request::ParseError;
use std::alloc::{AllocError, Global};
use tier_base::{Code, Limit};
use tier_statements::{done, refuses};

/// The greatest number of bytes of a line.
const LINE_BYTES: usize = 65_536;

/// Why checking ended early.
#[derive(Clone, Copy, PartialEq, Eq)]
pub enum CheckFault {
    /// The sink failed, or took nothing of something.
    Sink,
    /// Memory was wanting for a line.
    Memory,
}

/// The reply of `check` to a line, without its line end: `ok 0` where it is spelt right, else `no 101` with the byte of
/// the error, or `no 119 line` or `no 119 depth`. A line that is empty or a comment has none.
///
/// The error is want of memory.
pub fn check_line(alloc: Global, line: &[u8]) -> Result<Option<Reply>, AllocError>
    ensures { IfOk result (Checks line.now) }
{
    if line.len() > LINE_BYTES {
        return Ok(Some(broken(alloc, Code::Limit, Detail::Limit(Limit::Line))));
    }
    match says_something(alloc, line) {
        Ok(false) => Ok(None),
        Ok(true) => Ok(Some(done(alloc, 0))),
        Err(ParseError::At(byte)) => Ok(Some(broken(
            alloc,
            Code::Syntax,
            Detail::Byte(byte as u64),
        ))),
        Err(ParseError::Depth) => {
            Ok(Some(broken(alloc, Code::Limit, Detail::Limit(Limit::Depth))))
        }
        Err(ParseError::Memory) => Err(AllocError),
    }
}

/// A refusal. It takes no memory.
fn broken(alloc: Global, code: Code, detail: Detail) -> Reply
    ensures { result ≡ only (No (record { code = code; detail = detail })) }
{
    refuses(alloc, Rule { code, detail })
}

/// The replies of `check` are a function of the lines.
pub fn check_law()
    ensures line { (line : List ℕ) (r s : Option TierReply) → Checks line r → Checks line s → r ≡ s }
    ensures lines { (lines : List (List ℕ)) (rs ss : List (Option TierReply)) → AreChecked lines rs
        → AreChecked lines ss → rs ≡ ss }
{
    one_meaning();
}

/// Checks a line, and passes the reply on to the sink.
///
/// `Sink` only where the sink failed or took nothing of something: a front of what waited and of the reply is then
/// written. After `Memory` nothing was done.
fn tell<K: Sink>(
    alloc: Global,
    output: &mut Output,
    sink: &mut K,
    line: &[u8],
) -> Result<(), CheckFault>
    ensures tells { Tells result (K.written sink.old) (K.written sink.new) output.old output.new line.now }
    ensures cause { CheckHasCause (K.faults sink.old) (K.faults sink.new) result }
{
    match check_line(alloc, line) {
        Ok(None) => Ok(()),
        Ok(Some(reply)) => match write_reply(output, sink, &reply) {
            Ok(()) => Ok(()),
            Err(_) => Err(CheckFault::Sink),
        },
        Err(_) => Err(CheckFault::Memory),
    }
}

/// What is kept between the pieces of the input.
pub struct Checker {
    /// The line that hasn't ended.
    pub line: LineBuffer,
    /// The reply bytes that aren't written.
    pub output: Output,
}

impl Drop for Checker {
    fn drop(self) {
        let Self { line: _, output: _ } = self;
    }
}

impl Checker {
    ghost use Rattle.std.specs.Prelude.{◌≡◌, ◌∷◌, [], List, ℕ, OnOk, IfOk};
    ghost use Rattle.session_cli.specs.Checking.{CheckCloses, CheckFeeds, CheckFinishes, CheckHasCause, Checking};
    ghost use Rattle.session_cli.specs.Checking.{IsNewChecker};

    /// A checker that has been given nothing. All memory of its buffers is taken here.
    pub fn new(alloc: Global) -> Result<Checker, AllocError>
        ensures { IfOk result IsNewChecker }
    {
        Ok(Checker {
            line: LineBuffer::new(alloc)?,
            output: Output::new(alloc)?,
        })
    }

    /// Takes in a piece of the input: the lines that end in it are checked, and their replies written.
    ///
    /// After an error the lines that end in a front of the piece are checked, and a front of the replies is written.
    /// `Sink` only where the sink failed or took nothing of something.
    pub fn feed<K: Sink>(
        &mut self,
        alloc: Global,
        sink: &mut K,
        bytes: &[u8],
    ) -> Result<(), CheckFault>
        ensures checks { (start given : List ℕ) → Checking start given (K.written sink.old) self.old
            → CheckFeeds result start given bytes.now (K.written sink.new) self.new }
        ensures empty { OnOk result (self.new.output ≡ []) }
        ensures cause { CheckHasCause (K.faults sink.old) (K.faults sink.new) result }
    {
        self.take_in(alloc, sink, bytes)?;
        match self.output.flush(sink) {
            Ok(()) => Ok(()),
            Err(_) => Err(CheckFault::Sink),
        }
    }

    /// Checks the last line, where the input ended behind no line feed, and writes all replies.
    ///
    /// After an error all lines or all but the last are checked, and a front of the replies is written. `Sink` only
    /// where the sink failed or took nothing of something.
    pub fn finish<K: Sink>(&mut self, alloc: Global, sink: &mut K) -> Result<(), CheckFault>
        ensures checks { (start given : List ℕ) → Checking start given (K.written sink.old) self.old
            → CheckFinishes result start given (K.written sink.new) }
        ensures cause { CheckHasCause (K.faults sink.old) (K.faults sink.new) result }
    {
        self.end_input(alloc, sink)?;
        match self.output.flush(sink) {
            Ok(()) => Ok(()),
            Err(_) => Err(CheckFault::Sink),
        }
    }

    // The same, but the replies may wait.
    fn end_input<K: Sink>(&mut self, alloc: Global, sink: &mut K) -> Result<(), CheckFault>
        ensures checks { (start given : List ℕ) → Checking start given (K.written sink.old) self.old
            → CheckCloses result start given (K.written sink.new) self.new.output }
        ensures cause { CheckHasCause (K.faults sink.old) (K.faults sink.new) result }
    {
        if self.line.is_empty() {
            return Ok(());
        }
        tell(alloc, &mut self.output, sink, self.line.as_bytes())
    }

    // The same as `feed`, but the replies may wait.
    fn take_in<K: Sink>(
        &mut self,
        alloc: Global,
        sink: &mut K,
        bytes: &[u8],
    ) -> Result<(), CheckFault>
        ensures checks { (start given : List ℕ) → Checking start given (K.written sink.old) self.old
            → CheckFeeds result start given bytes.now (K.written sink.new) self.new }
        ensures cause { CheckHasCause (K.faults sink.old) (K.faults sink.new) result }
    {
        for byte in bytes {
            self.take_byte(alloc, sink, *byte)?;
        }
        Ok(())
    }

    fn take_byte<K: Sink>(
        &mut self,
        alloc: Global,
        sink: &mut K,
        byte: u8,
    ) -> Result<(), CheckFault>
        ensures checks { (start given : List ℕ) → Checking start given (K.written sink.old) self.old
            → CheckFeeds result start given (byte ∷ []) (K.written sink.new) self.new }
        ensures cause { CheckHasCause (K.faults sink.old) (K.faults sink.new) result }
    {
        if byte == b'\n' {
            return self.end_line(alloc, sink);
        }
        self.line.push(byte);
        Ok(())
    }

    // A line feed came.
    fn end_line<K: Sink>(&mut self, alloc: Global, sink: &mut K) -> Result<(), CheckFault>
        ensures checks { (start given : List ℕ) → Checking start given (K.written sink.old) self.old
            → CheckFeeds result start given (10 ∷ []) (K.written sink.new) self.new }
        ensures cause { CheckHasCause (K.faults sink.old) (K.faults sink.new) result }
    {
        tell(alloc, &mut self.output, sink, self.line.text())?;
        self.line.clear();
        Ok(())
    }
}
