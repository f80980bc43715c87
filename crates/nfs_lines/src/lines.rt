//! The lines of a service.
ghost use Rattle.std.specs.Prelude.{◌≡◌, [], false, None, option_map};
ghost use Rattle.nfs_lines.specs.Queued.{Queued};
ghost use Rattle.nfs_lines.specs.Written.{Reported, PassedOn, Wrote, written};
ghost use Rattle.nfs_lines.specs.Wordings.{is_plain};

use crate::denied_lines::DeniedLines;
use crate::line_out::LineOut;
use crate::line_queue::LineQueue;
use crate::wording::Wording;
use nfs_attrs::moment::Moment;
use std::alloc::Global;

/// The lines of a service: those of denied calls, and those of connections that ended.
#[derive(Drop)]
pub struct Lines<'a, A, C> {
    /// Those of denied calls.
    pub denied: DeniedLines<'a, A>,
    // Whether lines of connections stand as they are, with no time before them.
    is_plain: bool,
    // Where the lines of connections go, if elsewhere.
    connections: Option<LineQueue<C>>,
    // How many lines of connections were dropped.
    dropped: u64,
}

impl<'a, A: LineOut> Lines<'a, A, A> {
    /// No lines, and one device for all of them.
    pub fn alone(alloc: Global, wording: Wording<'a>, device: A) -> Lines<'a, A, A>
        ensures denied { result.denied.queue ≡ record { device = device; pending = []; failed = false } }
        ensures plain { result.denied.is_plain ≡ is_plain wording.entry }
        ensures connections { result.connections ≡ None }
    {
        Lines::new(alloc, wording, device, None)
    }
}

impl<'a, A: LineOut, C: LineOut> Lines<'a, A, C> {
    /// No lines. Those of connections go to the device of the others where they have none of their
    /// own.
    pub fn new(
        alloc: Global,
        wording: Wording<'a>,
        audit: A,
        connections: Option<C>,
    ) -> Lines<'a, A, C>
        ensures denied { result.denied.queue ≡ record { device = audit; pending = []; failed = false } }
        ensures plain { result.denied.is_plain ≡ is_plain wording.entry }
        ensures connections { result.connections ≡ option_map (λ device. record { device = device; pending = []; failed = false }) connections }
    {
        let connections = match connections {
            Some(device) => Some(LineQueue::new(alloc, device)),
            None => None,
        };
        Lines {
            denied: DeniedLines::new(alloc, wording, audit),
            is_plain: !wording.has_times,
            connections,
            dropped: 0,
        }
    }

    /// Whether a line is lost that was to be written: it waits in vain, it was dropped, or its device has
    /// failed, unless such lines are to be counted.
    pub fn lost_some(&self) -> bool {
        self.pending() > 0 || self.dropped > 0 || self.denied.are_lost()
    }

    /// How many lines were dropped, or counted in place of being written.
    pub fn dropped(&self) -> u64 {
        self.dropped.saturating_add(self.denied.counted())
    }

    /// How many bytes wait for their devices. Those that can't be written any more don't.
    pub fn pending(&self) -> usize {
        self.denied
            .pending()
            .saturating_add(match &self.connections {
                Some(queue) => queue.pending_if_alive(),
                None => 0,
            })
    }

    /// Whether the lines of connections have a device of their own that has failed.
    pub fn connections_have_failed(&self) -> bool {
        match &self.connections {
            Some(queue) => queue.has_failed(),
            None => false,
        }
    }

    /// Passes on what waits, as much as the devices take now.
    pub fn pass_on(&mut self)
        ensures { PassedOn (written A.taken C.taken self.old) (written A.taken C.taken self.new) }
    {
        self.denied.pass_on();
        if let Some(queue) = &mut self.connections {
            queue.pass_on();
        }
    }

    /// Writes a line about the service itself. Where its device is full or has failed, or there is
    /// no memory, it is dropped and counted.
    pub fn report(&mut self, moment: Moment, line: &[u8])
        ensures { Reported line.now (written A.taken C.taken self.old) (written A.taken C.taken self.new) }
    {
        if !self.write(moment, line) {
            self.dropped = self.dropped.saturating_add(1);
        }
    }

    // Whether a line about the service itself was written.
    fn write(&mut self, moment: Moment, line: &[u8]) -> bool
        ensures wrote { Wrote line.now result (written A.taken C.taken self.old) (written A.taken C.taken self.new) }
        ensures dropped { self.new.dropped ≡ self.old.dropped }
    {
        match &mut self.connections {
            Some(queue) => queue.report(self.is_plain, moment, line),
            None => self.denied.report(moment, line),
        }
    }
}
