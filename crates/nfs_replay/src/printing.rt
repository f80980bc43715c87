//! The lines that the program prints.
ghost use Rattle.std.specs.Prelude.{◌≡◌, ℕ, ◌≤◌, List, [], ◌∷◌, ◌++◌, length, option_map};
ghost use Rattle.std.specs.Str.{IsTrimAsciiEnd};
ghost use Rattle.hex.specs.Hex.{encode_lower};
ghost use Rattle.nfs_replay.specs.Printed.{IsAudit, IsNamedLine, IsPrinted, IsReply, Prints, RunsPrinted, Takes, later, next_names};
ghost use Rattle.nfs_server.specs.AuditLines.{line_text};
ghost use Rattle.nfs_server.specs.Fits.{Fits, History};
ghost use Rattle.nfs_server.specs.InMemory.{answer_of};
ghost use Rattle.nfs_server.specs.Runs.{events_of};

use crate::fault::RunFault;
use crate::hexadecimal::push_digits;
use crate::queued_call::QueuedCall;
use crate::shown::Shown;
use nfs_decode::reply::put_reply;
use nfs_server::audit_line::AuditLine;
use nfs_server::event::{Event, Outcome, Sink};
use nfs_server::sessions::Sessions;
use nfs_text::line::Line;
use nfs_words::text::Text;
use nfs_xdr::device::{ByteOut, write_all};
use std::alloc::Global;

/// Makes each line in one place, and prints it by one write.
#[derive(Drop)]
pub struct Printer {
    alloc: Global,
    line: Vec<u8>,
}

impl Printer {
    /// A printer that has printed nothing.
    pub(crate) fn new(alloc: Global) -> Printer {
        Printer {
            alloc,
            line: Vec::new(alloc),
        }
    }

    /// Prints a text.
    pub(crate) fn text<W: ByteOut>(&mut self, out: &mut W, text: &str) -> Result<(), RunFault>
        ensures { Prints (W.contents out.old) (text.now ++ 10 ∷ []) result (W.contents out.new) }
    {
        self.line.clear();
        self.line.extend_from_slice(text.as_bytes())?;
        self.end(out)
    }

    /// Prints a text, and then bytes as hexadecimal digits.
    pub(crate) fn bytes<W: ByteOut>(
        &mut self,
        out: &mut W,
        text: &str,
        bytes: &[u8],
    ) -> Result<(), RunFault>
        ensures { Prints (W.contents out.old) (text.now ++ encode_lower bytes.now ++ 10 ∷ []) result (W.contents out.new) }
    {
        self.line.clear();
        self.line.extend_from_slice(text.as_bytes())?;
        push_digits(self.alloc, &mut self.line, bytes)?;
        self.end(out)
    }

    /// Prints the line of a call that was denied, with some names after it.
    pub(crate) fn named_audit<W: ByteOut>(
        &mut self,
        out: &mut W,
        denied: &AuditLine,
        names: &[u8],
    ) -> Result<(), RunFault>
        ensures { (front : List ℕ) × IsTrimAsciiEnd (line_text denied.now) front
            × Prints (W.contents out.old) (front ++ names.now ++ 10 ∷ []) result (W.contents out.new) }
    {
        let mut line = Line::new();
        denied.put(&mut line);
        self.named(out, line.as_slice().trim_ascii_end(), names)
    }

    /// Prints a line, with some names after it.
    pub(crate) fn named<W: ByteOut>(
        &mut self,
        out: &mut W,
        line: &[u8],
        names: &[u8],
    ) -> Result<(), RunFault>
        ensures { Prints (W.contents out.old) (line.now ++ names.now ++ 10 ∷ []) result (W.contents out.new) }
    {
        self.line.clear();
        self.line.extend_from_slice(line)?;
        self.line.extend_from_slice(names)?;
        self.end(out)
    }

    /// Prints what a reply says to a call, in words.
    pub(crate) fn words<W: ByteOut>(
        &mut self,
        out: &mut W,
        call: &[u8],
        reply: &[u8],
    ) -> Result<(), RunFault>
        ensures { (words : List ℕ) × Prints (W.contents out.old) words result (W.contents out.new) }
    {
        let mut text = Text::new(self.alloc);
        put_reply(call, reply, &mut text);
        let text = text.into_bytes()?;
        match write_all(out, text.as_slice()) {
            Ok(()) => Ok(()),
            Err(_) => Err(RunFault::Write),
        }
    }

    /// Prints the line of a call that was denied.
    pub(crate) fn audit<W: ByteOut>(
        &mut self,
        out: &mut W,
        denied: &AuditLine,
    ) -> Result<(), RunFault>
        ensures { Prints (W.contents out.old) (line_text denied.now) result (W.contents out.new) }
    {
        let mut line = Line::new();
        denied.put(&mut line);
        match write_all(out, line.as_slice()) {
            Ok(()) => Ok(()),
            Err(_) => Err(RunFault::Write),
        }
    }

    // Prints the line that was made.
    fn end<W: ByteOut>(&mut self, out: &mut W) -> Result<(), RunFault>
        ensures { Prints (W.contents out.old) (self.old.line.items ++ 10 ∷ []) result (W.contents out.new) }
    {
        self.line.push(b'\n')?;
        match write_all(out, self.line.as_slice()) {
            Ok(()) => Ok(()),
            Err(_) => Err(RunFault::Write),
        }
    }
}

/// Prints what a run brings, the audit line of a call before its reply, and ends it at a fault.
pub struct Replies<'a, W: ByteOut> {
    /// Where they are printed.
    pub out: &'a mut W,
    /// What prints them.
    pub printer: Printer,
    /// What is printed beside them.
    pub shown: Shown,
    /// The calls, of which the first is the one whose outcome comes next.
    pub calls: &'a [QueuedCall],
    /// The fault that ended the run.
    pub fault: Option<RunFault>,
}

impl<W: ByteOut> Replies<'_, W> {
    /// Runs these events, one for each of the calls, and prints what each is answered.
    pub(crate) fn run(&mut self, sessions: &mut Sessions, events: &[Event<'_>]) -> usize
        ensures bound { result ≤ length events.now }
        ensures printed { (history : History) → Fits history sessions.old.server
            → RunsPrinted self.old.shown.is_decoded self.old.calls.now history (events_of events.now) result self.old.fault self.new.fault
            (W.contents self.old.out.now) (W.contents self.new.out.now) sessions.new.server }
    {
        sessions.run(events, self)
    }

    // The audit line of an outcome, with the names of its call, and then its reply.
    fn print(&mut self, outcome: &Outcome<'_>) -> Result<(), RunFault>
        ensures prints { (text : List ℕ) × IsPrinted self.old.shown.is_decoded (next_names self.old.calls.now) (answer_of outcome.now) text
            × Prints (W.contents self.old.out.now) text result (W.contents self.new.out.now) }
        ensures out { self.new.out.ghost_name ≡ self.old.out.ghost_name }
        ensures calls { self.new.calls.now ≡ later self.old.calls.now }
        ensures shown { self.new.shown ≡ self.old.shown }
        ensures fault { self.new.fault ≡ self.old.fault }
    {
        let (call, names) = next_of(self.calls);
        self.calls = after_next(self.calls);
        self.audit(&outcome.line, names)?;
        self.reply(call, outcome.reply)
    }

    // The line of a call, if it was denied.
    fn audit(&mut self, line: &Option<AuditLine>, names: &[u8]) -> Result<(), RunFault>
        ensures prints { (text : List ℕ) × IsAudit line.now names.now text
            × Prints (W.contents self.old.out.now) text result (W.contents self.new.out.now) }
        ensures out { self.new.out.ghost_name ≡ self.old.out.ghost_name }
        ensures calls { self.new.calls.now ≡ self.old.calls.now }
        ensures shown { self.new.shown ≡ self.old.shown }
        ensures fault { self.new.fault ≡ self.old.fault }
    {
        match line {
            None => Ok(()),
            Some(denied) if names.is_empty() => self.printer.audit(self.out, denied),
            Some(denied) => self.printer.named_audit(self.out, denied, names),
        }
    }

    // A reply, if there is one, and what it says to a call where that is asked for.
    fn reply(&mut self, call: &[u8], reply: Option<&[u8]>) -> Result<(), RunFault>
        ensures prints { (text : List ℕ) × IsReply self.old.shown.is_decoded (option_map (λ bytes. bytes.now) reply.entry) text
            × Prints (W.contents self.old.out.now) text result (W.contents self.new.out.now) }
        ensures out { self.new.out.ghost_name ≡ self.old.out.ghost_name }
        ensures calls { self.new.calls.now ≡ self.old.calls.now }
        ensures shown { self.new.shown ≡ self.old.shown }
        ensures fault { self.new.fault ≡ self.old.fault }
    {
        let Some(reply) = reply else {
            return Ok(());
        };
        self.printer.bytes(self.out, "reply ", reply)?;
        if self.shown.is_decoded {
            self.printer.words(self.out, call, reply)?;
        }
        Ok(())
    }
}

// The bytes and the names of the call whose outcome comes next; none where none is left.
fn next_of(calls: &[QueuedCall]) -> (&[u8], &[u8])
    ensures { result.1.now ≡ next_names calls.now }
{
    match calls.first() {
        Some(call) => (call.bytes.as_slice(), call.names.as_slice()),
        None => (&[], &[]),
    }
}

// The calls after it.
fn after_next(calls: &[QueuedCall]) -> &[QueuedCall]
    ensures { result.now ≡ later calls.now }
{
    match calls.split_first() {
        Some((_, others)) => others,
        None => &[],
    }
}

impl<W: ByteOut> Sink for Replies<'_, W> {
    ghost takes = { λ old answer said new. Takes old.shown.is_decoded old.calls.now answer said old.fault new.fault
        (W.contents old.out.now) (W.contents new.out.now) × (new.out.ghost_name ≡ old.out.ghost_name)
        × (new.calls.now ≡ later old.calls.now) × (new.shown ≡ old.shown) };

    fn take(&mut self, outcome: Outcome<'_>) -> bool {
        match self.print(&outcome) {
            Ok(()) => true,
            Err(fault) => {
                self.fault = Some(fault);
                false
            }
        }
    }
}
