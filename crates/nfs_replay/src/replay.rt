//! A script, run against a server of its own.
ghost use Rattle.std.specs.Prelude.{◌≡◌, ◌≤◌, ℕ, List, Some, IfErr, IfOk, OnOk};
ghost use Rattle.nfs_load.specs.Loadings.{number_after};
ghost use Rattle.nfs_replay.specs.Orders.{asked_by, order_in, record_asked_by};
ghost use Rattle.nfs_replay.specs.Scripts.{AllRun, AskForCall, AskForNone, FailsBy, FaultsBy, IsReported, Runs, SayBytes, SayNone, SendsBy, SendsFrom, StopsBy, xid_of};
ghost use Rattle.nfs_replay.specs.Sending.{Waits, sent_of};
ghost use Rattle.nfs_text.specs.Lines.{lines};
ghost use Rattle.nfs_text.specs.Words.{words_left};

use crate::captured::{Captured, split_record};
use crate::fault::RunFault;
use crate::heard::Heard;
use crate::line_bytes::{bytes_of, record_of};
use crate::line_fault::LineFault;
use crate::printing::{Printer, Replies};
use crate::queued_call::QueuedCall;
use crate::script::{Order, Sending, has_again, order_of};
use crate::sent::{SentRecord, SentRecords};
use crate::shown::Shown;
use nfs_ask::script_fault::{LineCause, ScriptFault};
use nfs_attrs::moment::Moment;
use nfs_exports::addr::Addr;
use nfs_lines::names::{name_in, names_of};
use nfs_load::listing::listing;
use nfs_load::loaded::Loaded;
use nfs_server::event::Event;
use nfs_server::server::Server;
use nfs_server::session_fault::SessionFault;
use nfs_server::sessions::Sessions;
use nfs_text::lines::Lines;
use nfs_text::words::Words;
use nfs_words::text::Text;
use nfs_xdr::device::{ByteOut, write_all};
use std::alloc::Global;
use std::mem;

/// Runs the script's lines in order against a server of this description, and prints what each
/// brings. Answers the connections, with the server as it then is.
///
/// What stands before a faulty line is run and printed. `Line` with the number of a faulty one:
/// `BadLine` for a line that is none, `NoCall` for one that asks for the record of a line that sent none,
/// else for its first faulty word `BadHex` where that says no bytes, and `NoHandle` where it names no file
/// that lives; `Write` where the output fails, `Memory` where there is no memory.
pub fn replay<W: ByteOut>(
    alloc: Global,
    loaded: Loaded,
    script: &[u8],
    cache: usize,
    shown: Shown,
    out: &mut W,
) -> Result<Sessions, ScriptFault>
    requires some { 1 ≤ cache }
    requires few { cache ≤ 1024 }
    ensures all { OnOk result (AllRun (lines script.now)) }
    ensures first { IfErr result (StopsBy script.now) }
{
    let mut player = Player::new(alloc, loaded, cache, shown)?;
    // Case by case: with `?` the proof has to look through the whole player.
    match player.play(script, out) {
        Ok(()) => {
            let Player { sessions, .. } = player;
            Ok(sessions)
        }
        Err(fault) => Err(fault),
    }
}

#[derive(Drop)]
struct Player {
    alloc: Global,
    sessions: Sessions,
    printer: Printer,
    shown: Shown,
    calls: Vec<QueuedCall>,
    heard: Heard,
}

impl Player {
    // A player that has run no line, with a server of this description.
    fn new(alloc: Global, loaded: Loaded, cache: usize, shown: Shown) -> Result<Player, RunFault>
        requires some { 1 ≤ cache }
        requires few { cache ≤ 1024 }
    {
        let server = Server::new(alloc, loaded, cache)?;
        Ok(Player {
            alloc,
            sessions: Sessions::new(alloc, server)?,
            printer: Printer::new(alloc),
            shown,
            calls: Vec::new(alloc),
            heard: Heard::new(alloc),
        })
    }

    // Runs the lines of a script in order. What they send is kept only for a script that sends a record again.
    fn play<W: ByteOut>(&mut self, script: &[u8], out: &mut W) -> Result<(), ScriptFault>
        ensures all { OnOk result (AllRun (lines script.now)) }
        ensures first { IfErr result (StopsBy script.now) }
    {
        let mut sent = SentRecords::new(self.alloc, has_again(script));
        let mut before: u64 = 0;
        let mut lines = Lines::new(script);
        while let Some(line) = lines.next() {
            if let Err(fault) = self.line(line, before, &mut sent, out) {
                return Err(self.stop(fault, before, out));
            }
            before = before.saturating_add(1);
        }
        Ok(self.run_calls(out)?)
    }

    // The fault of a line before which so many stand. The calls that wait are run first.
    fn stop<W: ByteOut>(&mut self, fault: LineFault, before: u64, out: &mut W) -> ScriptFault
        ensures { IsReported fault (number_after before) result }
    {
        match self.run_calls(out) {
            Ok(()) => fault.at(before),
            Err(RunFault::Write) => ScriptFault::Write,
            Err(RunFault::Memory) => ScriptFault::Memory,
        }
    }

    // Does what a line asks for, before which so many stand. The record that it sends waits for those that
    // follow it.
    fn line<W: ByteOut>(
        &mut self,
        line: &[u8],
        before: u64,
        sent: &mut SentRecords,
        out: &mut W,
    ) -> Result<(), LineFault>
        ensures run { OnOk result (Runs before sent.old (order_in line.now) sent.new self.new.calls.items) }
        ensures fault { IfErr result (FaultsBy (FailsBy before sent.old (order_in line.now))) }
    {
        let Some(order) = order_of(line) else {
            return Err(LineFault::OfLine(LineCause::BadLine));
        };
        let record = self.execute(order, before, sent, out)?;
        sent.keep(&record)?;
        match record {
            Some(record) => Ok(self.call(record, out)?),
            None => Ok(()),
        }
    }

    // Does what an order asks for, or answers the record that is to be sent. Anything else comes after the
    // calls that wait, and so does a call that names files, whose handles are those of the tree then.
    fn execute<W: ByteOut>(
        &mut self,
        order: Order<'_>,
        before: u64,
        sent: &SentRecords,
        out: &mut W,
    ) -> Result<Option<SentRecord>, LineFault>
        ensures run { IfOk result (SendsBy before sent.now (Some (asked_by order.entry))) }
        ensures fault { IfErr result (FaultsBy (FailsBy before sent.now (Some (asked_by order.entry)))) }
    {
        match order {
            Order::Nothing => Ok(None),
            Order::Send(sending) => Ok(Some(self.record_to_send(sending, before, sent, out)?)),
            Order::Feed {
                conn,
                moment,
                bytes,
            } => {
                self.feed_line(conn, moment, bytes, out)?;
                Ok(None)
            }
            Order::Attach { conn, addr } => {
                self.attach(conn, addr, out)?;
                Ok(None)
            }
            Order::Detach { conn } => {
                self.detach(conn, out)?;
                Ok(None)
            }
            Order::Show => {
                self.show(out)?;
                Ok(None)
            }
        }
    }

    // The record that is to be sent.
    fn record_to_send<W: ByteOut>(
        &mut self,
        sending: Sending<'_>,
        before: u64,
        sent: &SentRecords,
        out: &mut W,
    ) -> Result<SentRecord, LineFault>
        ensures run { IfOk result (λ it. SendsBy before sent.now (Some (record_asked_by sending.entry)) (Some it)) }
        ensures fault { IfErr result (FaultsBy (FailsBy before sent.now (Some (record_asked_by sending.entry)))) }
    {
        match sending {
            Sending::Call {
                addr,
                moment,
                bytes,
            } => self.call_line(addr, moment, bytes, out),
            Sending::Ask {
                addr,
                moment,
                words,
            } => self.ask_line(addr, moment, words, before, out),
            Sending::Again { line, moment, addr } => sent.again(line, moment, addr),
        }
    }

    // The record that words say.
    fn call_line<W: ByteOut>(
        &mut self,
        addr: Addr,
        moment: Moment,
        words: Words<'_>,
        out: &mut W,
    ) -> Result<SentRecord, LineFault>
        ensures run { IfOk result (λ it. SendsFrom addr moment (SayBytes (words_left words.entry)) (Some (sent_of it))) }
        ensures fault { IfErr result (FaultsBy (SayNone (words_left words.entry))) }
    {
        if names_files(words) {
            self.run_calls(out)?;
        }
        let bytes = bytes_of(self.alloc, self.sessions.server().tree(), words)?;
        Ok(SentRecord {
            addr,
            moment,
            bytes,
        })
    }

    // The record of a call in words, before whose line so many stand.
    fn ask_line<W: ByteOut>(
        &mut self,
        addr: Addr,
        moment: Moment,
        words: Words<'_>,
        before: u64,
        out: &mut W,
    ) -> Result<SentRecord, LineFault>
        ensures run { IfOk result (λ it.
            SendsFrom addr moment (AskForCall (number_after before) (words_left words.entry)) (Some (sent_of it))) }
        ensures fault { IfErr result (FaultsBy (AskForNone (number_after before) (words_left words.entry))) }
    {
        self.run_calls(out)?;
        let xid = xid_after(before);
        match record_of(self.alloc, self.sessions.server().tree(), words, xid) {
            Ok(bytes) => Ok(SentRecord {
                addr,
                moment,
                bytes,
            }),
            Err(fault) => Err(LineFault::of_ask(fault)),
        }
    }

    // The bytes that words say, on a connection.
    fn feed_line<W: ByteOut>(
        &mut self,
        conn: u32,
        moment: Moment,
        words: Words<'_>,
        out: &mut W,
    ) -> Result<(), LineFault>
        ensures run { OnOk result ((bytes : List ℕ) × SayBytes (words_left words.entry) bytes) }
        ensures fault { IfErr result (FaultsBy (SayNone (words_left words.entry))) }
    {
        self.run_calls(out)?;
        let bytes = bytes_of(self.alloc, self.sessions.server().tree(), words)?;
        self.feed(conn, moment, bytes.as_slice(), out)?;
        Ok(())
    }

    // A connection.
    fn attach<W: ByteOut>(&mut self, conn: u32, addr: Addr, out: &mut W) -> Result<(), RunFault> {
        self.run_calls(out)?;
        let attached = self.sessions.attach(conn, addr);
        self.fault(conn, attached, out)
    }

    // The end of a connection.
    fn detach<W: ByteOut>(&mut self, conn: u32, out: &mut W) -> Result<(), RunFault> {
        self.run_calls(out)?;
        let detached = self.sessions.detach(conn);
        self.heard.forget(conn);
        self.fault(conn, detached, out)
    }

    // A record waits for those that follow it.
    fn call<W: ByteOut>(&mut self, sent: SentRecord, out: &mut W) -> Result<(), RunFault>
        ensures { OnOk result (Waits (Some (sent_of sent)) self.new.calls.items) }
    {
        let SentRecord {
            addr,
            moment,
            bytes,
        } = sent;
        let names = self.names(bytes.as_slice(), out)?;
        self.calls.push(QueuedCall {
            addr,
            moment,
            bytes,
            names,
        })?;
        Ok(())
    }

    // The names of a record, where they are printed: those in the tree before it.
    fn names<W: ByteOut>(&mut self, bytes: &[u8], out: &mut W) -> Result<Vec<u8>, RunFault> {
        if !self.shown.is_named {
            return Ok(Vec::new(self.alloc));
        }
        self.run_calls(out)?;
        let tree = self.sessions.server().tree();
        Ok(names_of(self.alloc, tree, bytes, false)?)
    }

    // Prints the listing of the tree, after the calls that wait.
    fn show<W: ByteOut>(&mut self, out: &mut W) -> Result<(), RunFault> {
        self.run_calls(out)?;
        listing(self.sessions.server().tree(), out)?;
        Ok(())
    }

    // Runs the calls that wait, and prints their replies.
    fn run_calls<W: ByteOut>(&mut self, out: &mut W) -> Result<(), RunFault> {
        let calls = mem::replace(&mut self.calls, Vec::new(self.alloc));
        let mut events = Vec::with_capacity(self.alloc, calls.len())?;
        for call in &calls {
            events.push(Event {
                addr: call.addr,
                moment: call.moment,
                bytes: call.bytes.as_slice(),
            })?;
        }
        let mut replies = Replies {
            out,
            printer: mem::replace(&mut self.printer, Printer::new(self.alloc)),
            shown: self.shown,
            calls: calls.as_slice(),
            fault: None,
        };
        replies.run(&mut self.sessions, events.as_slice());
        let Replies {
            out: _,
            printer,
            shown: _,
            calls: _,
            fault,
        } = replies;
        self.printer = printer;
        match fault {
            Some(fault) => Err(fault),
            None => Ok(()),
        }
    }

    // Feeds a connection, and prints the audit lines, then the replies, and then the fault if there
    // is one.
    fn feed<W: ByteOut>(
        &mut self,
        conn: u32,
        moment: Moment,
        chunk: &[u8],
        out: &mut W,
    ) -> Result<(), RunFault> {
        let mut replies = Captured::new(self.alloc);
        let mut audit = Captured::new(self.alloc);
        let sessions = &mut self.sessions;
        let fed = sessions.feed(conn, moment, chunk, &mut replies, &mut audit);
        if replies.has_failed() || audit.has_failed() {
            return Err(RunFault::Memory);
        }
        if self.shown.is_decoded {
            self.heard.add(conn, chunk)?;
        }
        self.lines(audit.bytes(), out)?;
        self.replies(conn, replies.bytes(), out)?;
        self.fault(conn, fed.map(|_| ()), out)
    }

    // Prints the audit lines of a connection.
    fn lines<W: ByteOut>(&mut self, lines: &[u8], out: &mut W) -> Result<(), RunFault> {
        if !self.shown.is_named {
            return print_all(out, lines);
        }
        for line in Lines::new(lines) {
            let mut names = Text::new(self.alloc);
            if let Some(name) = name_in(line) {
                names.put(b" call=");
                names.put(name);
            }
            self.printer
                .named(out, line, names.into_bytes()?.as_slice())?;
        }
        Ok(())
    }

    // Prints the replies on a connection.
    fn replies<W: ByteOut>(
        &mut self,
        conn: u32,
        replies: &[u8],
        out: &mut W,
    ) -> Result<(), RunFault> {
        let text = format!(in self.alloc; "reply {conn} ")?;
        let mut rest = replies;
        while !rest.is_empty() {
            let (record, others) = split_record(rest);
            self.printer.bytes(out, text.as_str(), record)?;
            if self.shown.is_decoded {
                let reply = record.get(4..).unwrap_or(&[]);
                let call = self.heard.call(conn, reply.get(..4).unwrap_or(&[]));
                self.printer.words(out, call, reply)?;
            }
            rest = others;
        }
        Ok(())
    }

    // Prints the fault of a connection, if there is one.
    fn fault<W: ByteOut>(
        &mut self,
        conn: u32,
        done: Result<(), SessionFault>,
        out: &mut W,
    ) -> Result<(), RunFault> {
        match done {
            Ok(()) => Ok(()),
            Err(fault) => {
                let text = format!(in self.alloc; "fault {conn} {fault}")?;
                self.printer.text(out, text.as_str())
            }
        }
    }
}

// The number of the call of a line, before which so many stand.
fn xid_after(before: u64) -> u32
    ensures { result ≡ xid_of (number_after before) }
{
    let number = before.saturating_add(1);
    if number > u64::from(u32::MAX) {
        u32::MAX
    } else {
        number as u32
    }
}

// Prints lines with their ends.
fn print_all<W: ByteOut>(out: &mut W, lines: &[u8]) -> Result<(), RunFault> {
    match write_all(out, lines) {
        Ok(()) => Ok(()),
        Err(_) => Err(RunFault::Write),
    }
}

// Whether a word may name a file, which it does by an `@`.
fn names_files(words: Words<'_>) -> bool {
    for word in words {
        if word.contains(&b'@') {
            return true;
        }
    }
    false
}
