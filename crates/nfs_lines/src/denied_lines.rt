//! The lines of denied calls.
ghost use Rattle.std.specs.Prelude.{◌≡◌, ◌⊎◌, List, ℕ, Option, [], true, false, length, ◌≤◌, OnOk, OnErr};
ghost use Rattle.nfs_lines.specs.Queued.{PutsPart, is_full, put, put_plainly};
ghost use Rattle.nfs_lines.specs.Wordings.{is_plain};
ghost use Rattle.nfs_server.specs.AuditLines.{line_text};
ghost use Rattle.nfs_xdr.specs.Known.{Grows, GrowsByPart, StaysFailed};

use crate::denials::Denials;
use crate::line_out::LineOut;
use crate::line_queue::{LineQueue, MOST_PENDING};
use crate::names::names_of;
use crate::wording::{WhenFailed, Wording};
use nfs_attrs::moment::Moment;
use nfs_server::audit_line::AuditLine;
use nfs_server::audit_out::AuditOut;
use nfs_server::event::Event;
use nfs_server::server::Server;
use nfs_text::line::Line;
use nfs_xdr::device::DeviceFault;
use std::alloc::{AllocError, Global};

/// The lines of denied calls, and of connections that ended where these go to the same device.
#[derive(Drop)]
pub struct DeniedLines<'a, A> {
    alloc: Global,
    wording: Wording<'a>,
    is_plain: bool,
    queue: LineQueue<A>,
    // Whether the last line of a denied call was refused.
    was_refused: bool,
    // How many lines of denied calls were counted in place of being written.
    counted: u64,
    denials: Denials,
}

impl<'a, A: LineOut> DeniedLines<'a, A> {
    /// No lines, and the device for them.
    pub(crate) fn new(alloc: Global, wording: Wording<'a>, device: A) -> DeniedLines<'a, A>
        ensures queue { result.queue ≡ record { device = device; pending = []; failed = false } }
        ensures plain { result.is_plain ≡ is_plain wording.entry }
    {
        DeniedLines {
            alloc,
            wording,
            is_plain: wording.is_plain(),
            queue: LineQueue::new(alloc, device),
            was_refused: false,
            counted: 0,
            denials: Denials::new(alloc),
        }
    }

    /// The calls that were denied.
    pub fn denials(&self) -> &Denials {
        &self.denials
    }

    /// Has the last calls that are denied be kept from now on.
    pub fn keep_denials(&mut self)
        ensures queue { self.new.queue ≡ self.old.queue }
        ensures plain { self.new.is_plain ≡ self.old.is_plain }
    {
        self.denials.keep();
    }

    /// How many were counted in place of being written.
    pub fn counted(&self) -> u64 {
        self.counted
    }

    /// Whether the device has failed.
    pub fn has_failed(&self) -> bool
        ensures { result ≡ self.now.queue.failed }
    {
        self.queue.has_failed()
    }

    /// Whether the device has failed, and such lines are not to be counted then.
    pub(crate) fn are_lost(&self) -> bool {
        self.has_failed() && self.wording.when_failed != WhenFailed::Count
    }

    /// How many bytes wait for the device, where it has not failed.
    pub(crate) fn pending(&self) -> usize {
        self.queue.pending_if_alive()
    }

    /// Passes on what waits, as much as the device takes now.
    pub(crate) fn pass_on(&mut self)
        ensures denied { Grows (put_plainly A.taken self.old.is_plain self.old.queue) [] (put_plainly A.taken self.new.is_plain self.new.queue) }
        ensures failed { self.old.queue.failed ≡ true → self.new.queue.failed ≡ true }
    {
        self.queue.pass_on();
    }

    /// Whether a line about the service itself was written, which is not so where the device is full or
    /// has failed, or there is no memory.
    pub(crate) fn report(&mut self, moment: Moment, line: &[u8]) -> bool
        ensures puts { PutsPart A.taken self.new.is_plain line.now result self.old.queue self.new.queue }
        ensures stays { self.old.queue.failed ≡ true → self.new.queue ≡ self.old.queue }
        ensures plain { self.new.is_plain ≡ self.old.is_plain }
    {
        let as_it_is = self.is_plain || !self.wording.has_times;
        self.queue.report(as_it_is, moment, line)
    }

    // Puts the line of a denied call, and passes it on. The fault where there is no memory for it,
    // or where the device has failed and such calls are refused then.
    fn put(
        &mut self,
        denied: &AuditLine,
        event: Event<'_>,
        server: &Server,
    ) -> Result<(), DeviceFault>
        ensures ok { OnOk result (Grows (put_plainly A.taken self.old.is_plain self.old.queue) (line_text denied.now)
            (put_plainly A.taken self.new.is_plain self.new.queue)) }
        ensures part { OnErr result (GrowsByPart (put_plainly A.taken self.old.is_plain self.old.queue) (line_text denied.now)
            (put_plainly A.taken self.new.is_plain self.new.queue)) }
        ensures cut { OnErr result (Grows (put_plainly A.taken self.old.is_plain self.old.queue) [] (put_plainly A.taken self.new.is_plain self.new.queue)
            ⊎ (self.new.queue.failed ≡ true)) }
        ensures stays { StaysFailed self.old.queue.failed (put_plainly A.taken self.old.is_plain self.old.queue) self.new.queue.failed
            (put_plainly A.taken self.new.is_plain self.new.queue) }
    {
        let mut line = Line::new();
        denied.put(&mut line);
        if self.is_plain {
            return self.put_plain(line.as_slice());
        }
        self.put_worded(line.as_slice(), denied, event, server)
    }

    // Puts a line as it stands, and passes it on.
    fn put_plain(&mut self, line: &[u8]) -> Result<(), DeviceFault>
        ensures plain { self.new.is_plain ≡ self.old.is_plain }
        ensures ok { OnOk result (Grows (put_plainly A.taken true self.old.queue) line.now (put_plainly A.taken true self.new.queue)) }
        ensures part { OnErr result (GrowsByPart (put_plainly A.taken true self.old.queue) line.now
            (put_plainly A.taken true self.new.queue)) }
        ensures cut { OnErr result (Grows (put_plainly A.taken true self.old.queue) [] (put_plainly A.taken true self.new.queue)
            ⊎ (self.new.queue.failed ≡ true)) }
        ensures stays { self.old.queue.failed ≡ true → self.new.queue ≡ self.old.queue }
    {
        if self.queue.has_failed() {
            return Err(DeviceFault);
        }
        match self.queue.put(line) {
            Ok(()) => self.pass_on_denied(),
            Err(_) => Err(DeviceFault),
        }
    }

    // Passes on the line of a denied call, which was put. The fault where its device has failed.
    fn pass_on_denied(&mut self) -> Result<(), DeviceFault>
        ensures plain { self.new.is_plain ≡ self.old.is_plain }
        ensures put { Grows (put A.taken self.old.queue) [] (put A.taken self.new.queue) }
        ensures failed { self.old.queue.failed ≡ true → self.new.queue.failed ≡ true }
        ensures fault { OnErr result (self.new.queue.failed ≡ true) }
    {
        self.queue.pass_on();
        if self.queue.has_failed() {
            return Err(DeviceFault);
        }
        Ok(())
    }

    // Puts a line in the words that are asked for, unless its rule has none.
    fn put_worded(
        &mut self,
        line: &[u8],
        denied: &AuditLine,
        event: Event<'_>,
        server: &Server,
    ) -> Result<(), DeviceFault>
        ensures plain { self.new.is_plain ≡ self.old.is_plain }
        ensures failed { self.old.queue.failed ≡ true → self.new.queue.failed ≡ true }
    {
        if self.wording.skips(denied.reason) {
            return Ok(());
        }
        if self.queue.has_failed() || self.word(line, event, server).is_err() {
            return self.count();
        }
        match self.pass_on_denied() {
            Ok(()) => Ok(()),
            Err(_) => self.count(),
        }
    }

    // What becomes of a denied call whose line isn't written.
    fn count(&mut self) -> Result<(), DeviceFault>
        ensures plain { self.new.is_plain ≡ self.old.is_plain }
        ensures queue { self.new.queue ≡ self.old.queue }
    {
        match self.wording.when_failed {
            WhenFailed::Refuse => Err(DeviceFault),
            WhenFailed::Count => {
                self.counted = self.counted.saturating_add(1);
                Ok(())
            }
        }
    }

    // Puts a line with the names that belong to it, where these are asked for.
    fn word(&mut self, line: &[u8], event: Event<'_>, server: &Server) -> Result<(), AllocError>
        ensures plain { self.new.is_plain ≡ self.old.is_plain }
        ensures failed { self.new.queue.failed ≡ self.old.queue.failed }
    {
        if !self.wording.has_names {
            return self.put_in_words(event.moment, line);
        }
        let mut text = Vec::new(self.alloc);
        text.extend_from_slice(line.trim_ascii_end())?;
        let names = names_of(self.alloc, server.tree(), event.bytes, true)?;
        text.extend_from_slice(names.as_slice())?;
        text.push(b'\n')?;
        self.put_in_words(event.moment, text.as_slice())
    }

    // Puts a line, after its moment where that is asked for.
    fn put_in_words(&mut self, moment: Moment, line: &[u8]) -> Result<(), AllocError>
        ensures plain { self.new.is_plain ≡ self.old.is_plain }
        ensures failed { self.new.queue.failed ≡ self.old.queue.failed }
    {
        self.queue.put_line(!self.wording.has_times, moment, line)
    }
}

impl<A: LineOut> AuditOut for DeniedLines<'_, A> {
    ghost contents = { λ l. put_plainly A.taken l.is_plain l.queue };

    ghost failed = { λ l. l.was_refused };

    ghost broken = { λ l. l.queue.failed };

    ghost full = { λ l. is_full l.queue };

    fn is_full(&self) -> bool {
        !self.queue.has_failed() && self.queue.pending() >= MOST_PENDING
    }

    fn take(
        &mut self,
        denied: &AuditLine,
        event: Event<'_>,
        server: &Server,
    ) -> Result<(), DeviceFault> {
        let put = self.put(denied, event, server);
        self.was_refused = put.is_err();
        if put.is_ok() {
            self.denials.take(denied, event, server.tree());
        }
        put
    }
}
