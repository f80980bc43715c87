//! What is said of lines that can't be written.

use log::{Log, warn};
use nfs_lines::line_out::LineOut;
use nfs_lines::lines::Lines;

// After how many seconds it is said again how many lines were counted.
const REPORTED_EVERY: u64 = 60;

/// What was said of lines that can't be written.
#[derive(Clone, Copy)]
pub(crate) struct LinesReported {
    audit: bool,
    connections: bool,
    counted: u64,
    // When the count was said last, in seconds since the service began.
    last: u64,
}

impl LinesReported {
    /// Nothing.
    pub(crate) fn nothing() -> LinesReported {
        LinesReported {
            audit: false,
            connections: false,
            counted: 0,
            last: 0,
        }
    }

    /// Says once that a device has failed, and each minute how many lines were counted since.
    pub(crate) fn report<R: Log, A: LineOut, C: LineOut>(
        &mut self,
        rt: &R,
        lines: &Lines<'_, A, C>,
        seconds: u64,
    ) {
        if lines.denied.has_failed()
            || lines.connections_have_failed()
            || lines.denied.counted() > self.counted
        {
            self.say(rt, lines, seconds);
        }
    }

    #[cold]
    fn say<R: Log, A: LineOut, C: LineOut>(
        &mut self,
        rt: &R,
        lines: &Lines<'_, A, C>,
        seconds: u64,
    ) {
        if lines.denied.has_failed() && !self.audit {
            self.audit = true;
            warn!(rt; "the lines of denied calls can no longer be written: make room, or restart their reader, and then restart the server");
        }
        if lines.connections_have_failed() && !self.connections {
            self.connections = true;
            warn!(rt; "the lines about connections can no longer be written, and are dropped");
        }
        if lines.denied.counted() > self.counted
            && seconds.saturating_sub(self.last) >= REPORTED_EVERY
        {
            self.counted = lines.denied.counted();
            self.last = seconds;
            warn!(rt; "{} calls were denied without a line", self.counted);
        }
    }
}
