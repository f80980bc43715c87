//! The replies of a run.

use nfs_server::event::{Outcome, Sink};
use rows::answers::digits;
use std::alloc::Global;

/// Keeps the digits of the replies, and ends the run at a given one.
#[derive(Drop)]
pub(crate) struct Kept {
    alloc: Global,
    text: String,
    left: u32,
}

impl Kept {
    /// Ends the run at the outcome of this number, from 1 on; 0 ends none.
    pub(crate) fn new(alloc: Global, last: u32) -> Kept {
        Kept {
            alloc,
            text: String::new(alloc),
            left: last,
        }
    }

    /// The replies, ` -` for none.
    pub(crate) fn text(&self) -> &str {
        self.text.as_str()
    }

    // Adds a reply.
    fn push(&mut self, reply: &[u8]) -> Option<()> {
        let digits = digits(self.alloc, reply)?;
        self.text.push(' ').ok()?;
        self.text.push_str(digits.as_str()).ok()
    }
}

impl Sink for Kept {
    ghost takes = { λ old answer said new. Unit {0} };

    fn take(&mut self, outcome: Outcome<'_>) -> bool {
        let _ = self.push(outcome.reply.unwrap_or(b""));
        self.left = self.left.wrapping_sub(1);
        self.left != 0
    }
}
