//! Lines that wait for their device.
ghost use Rattle.std.specs.Prelude.{◌≡◌, ◌++◌, [], ℕ, List, Option, true, false, length, IsTrue, OnOk, OnErr, ◌↔◌};
ghost use Rattle.nfs_xdr.specs.Known.{Grows};
ghost use Rattle.nfs_lines.specs.Queued.{PutsPart, put};

use crate::line_out::LineOut;
use crate::timestamp::timestamp;
use nfs_attrs::moment::Moment;
use std::alloc::{AllocError, Global};
use std::marker::Model;

/// The most bytes that wait before a queue is full: 4 MiB.
pub const MOST_PENDING: usize = 4 << 20;

// A queue that is empty keeps no more memory than this.
const MOST_KEPT: usize = 64 << 10;

/// A device, and the lines that it has not taken yet.
#[derive(Drop)]
pub struct LineQueue<D> {
    alloc: Global,
    device: D,
    lines: Vec<u8>,
    // How many bytes of the lines the device has taken.
    sent: usize,
    ended: bool,
}

impl<D> Model for LineQueue<D> {
    ghost use Rattle.std.specs.Prelude.{◌≤◌, drop, vec_len};
    ghost use Rattle.nfs_lines.specs.Queued.{Queued};

    ghost Value = { Queued D };

    ghost view = { λ q. record { device = q.device; pending = drop q.sent q.lines.items; failed = q.ended } };

    ghost invariant = { λ q. q.sent ≤ vec_len q.lines };
}

impl<D: LineOut> LineQueue<D> {
    /// A queue without lines.
    pub fn new(alloc: Global, device: D) -> LineQueue<D>
        ensures { result ≡ record { device = device; pending = []; failed = false } }
    {
        LineQueue {
            alloc,
            device,
            lines: Vec::new(alloc),
            sent: 0,
            ended: false,
        }
    }

    /// How many bytes the device has not taken yet.
    pub fn pending(&self) -> usize
        ensures { result ≡ length self.now.pending }
    {
        self.lines.len() - self.sent
    }

    /// Whether the device has failed. It takes nothing from then on.
    pub fn has_failed(&self) -> bool
        ensures { result ≡ self.now.failed }
    {
        self.ended
    }

    /// Puts a line after the others. Refused without memory, and then nothing changes.
    pub fn put(&mut self, line: &[u8]) -> Result<(), AllocError>
        ensures pending { OnOk result (self.new.pending ≡ self.old.pending ++ line.now) }
        ensures device { self.new.device ≡ self.old.device }
        ensures failed { self.new.failed ≡ self.old.failed }
        ensures err { OnErr result (self.new.pending ≡ self.old.pending) }
    {
        self.lines.extend_from_slice(line)
    }

    /// Puts a line after the others, as it is, or with its moment before it. Refused without memory, and
    /// then nothing changes.
    pub fn put_line(
        &mut self,
        as_it_is: bool,
        moment: Moment,
        line: &[u8],
    ) -> Result<(), AllocError>
        ensures pending { OnOk result (as_it_is ≡ true → self.new.pending ≡ self.old.pending ++ line.now) }
        ensures device { self.new.device ≡ self.old.device }
        ensures failed { self.new.failed ≡ self.old.failed }
        ensures err { OnErr result (self.new.pending ≡ self.old.pending) }
    {
        if as_it_is {
            return self.put(line);
        }
        let mut text = timestamp(self.alloc, moment)?.into_bytes();
        text.push(b' ')?;
        text.extend_from_slice(line)?;
        self.put(text.as_slice())
    }

    /// Passes lines on, as much as the device takes now; none where it has failed. What was put
    /// stays what was put.
    pub fn pass_on(&mut self)
        ensures grows { Grows (put D.taken self.old) [] (put D.taken self.new) }
        ensures failed { self.old.failed ≡ true → self.new.failed ≡ true }
    {
        if self.ended || self.sent == self.lines.len() {
            return;
        }
        match self.device.send(&self.lines[self.sent..]) {
            Ok(n) => {
                self.sent += n;
                self.tidy();
            }
            Err(_) => self.ended = true,
        }
    }

    /// How many bytes the device has not taken yet, of those that it may still take.
    pub fn pending_if_alive(&self) -> usize {
        if self.ended {
            return 0;
        }
        self.pending()
    }

    /// Whether a line was put, as it is or with its moment before it, and passed on as far as the device
    /// takes it now. It is not where the queue is full, the device fails or has failed, or there is no
    /// memory.
    pub fn report(&mut self, as_it_is: bool, moment: Moment, line: &[u8]) -> bool
        ensures puts { PutsPart D.taken as_it_is line.now result self.old self.new }
        ensures stays { self.old.failed ≡ true → self.new ≡ self.old }
    {
        if self.ended || self.pending() >= MOST_PENDING {
            return false;
        }
        match self.put_line(as_it_is, moment, line) {
            Ok(()) => {
                self.pass_on();
                !self.ended
            }
            Err(_) => false,
        }
    }

    // Gives back the memory of lines that were taken.
    fn tidy(&mut self)
        ensures { self.new ≡ self.old }
    {
        if self.sent == self.lines.len() {
            self.sent = 0;
            self.lines.clear();
            if self.lines.capacity() > MOST_KEPT {
                self.lines = Vec::new(self.alloc);
            }
        } else if self.sent >= MOST_PENDING {
            self.lines.drain(..self.sent);
            self.sent = 0;
        }
    }
}
