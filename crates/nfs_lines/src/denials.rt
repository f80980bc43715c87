//! The calls that were denied last, and how many were denied by each rule.

use crate::rule_names::name_of;
use crate::subject::{Subject, subject_of};
use nfs_attrs::moment::Moment;
use nfs_inodes::tree::Tree;
use nfs_server::audit_line::{AuditLine, DenialReason};
use nfs_server::event::Event;
use std::alloc::{AllocError, Global};
use std::collections::VecDeque;

/// How many denied calls are kept, where any are.
pub const MOST_KEPT: usize = 1_024;

/// A call that was denied.
#[derive(Drop)]
pub struct Denial {
    /// When it came.
    pub moment: Moment,
    /// Its line.
    pub line: AuditLine,
    /// What it was about.
    pub subject: Subject,
}

/// How many calls were denied by a rule.
#[derive(Clone, Copy, Debug, PartialEq, Eq)]
pub struct RuleCount {
    /// The reason why the first of them was.
    pub reason: DenialReason,
    /// How many.
    pub calls: u64,
}

/// The calls that were denied last, if they are kept, and how many were denied by each rule.
#[derive(Drop)]
pub struct Denials {
    alloc: Global,
    is_kept: bool,
    // The oldest first.
    last: VecDeque<Denial>,
    counts: Vec<RuleCount>,
}

impl Denials {
    /// None; they are counted, and not kept.
    pub fn new(alloc: Global) -> Denials {
        Denials {
            alloc,
            is_kept: false,
            last: VecDeque::new(alloc),
            counts: Vec::new(alloc),
        }
    }

    /// Has the last 1,024 be kept from now on.
    pub fn keep(&mut self) {
        self.is_kept = true;
    }

    /// How many calls were denied.
    pub fn calls(&self) -> u64 {
        let mut all = 0u64;
        for counted in self.counts.as_slice() {
            all = all.saturating_add(counted.calls);
        }
        all
    }

    /// How many calls were denied by each rule by which some were, in the order in which the first of each came.
    pub fn counts(&self) -> &[RuleCount] {
        self.counts.as_slice()
    }

    /// How many denied calls are kept.
    pub fn kept(&self) -> usize {
        self.last.len()
    }

    /// The denied call at a place among those that are kept, the oldest first.
    pub fn get(&self, place: usize) -> Option<&Denial> {
        self.last.get(place)
    }

    // Counts a call, and keeps it where that is asked for and there is memory.
    pub(crate) fn take(&mut self, line: &AuditLine, event: Event<'_>, tree: &Tree) {
        self.count(line.reason);
        if self.is_kept {
            let _ = self.remember(line, event, tree);
        }
    }

    fn count(&mut self, reason: DenialReason) {
        let rule = name_of(reason);
        for counted in self.counts.iter_mut() {
            if name_of(counted.reason) == rule {
                counted.calls = counted.calls.saturating_add(1);
                return;
            }
        }
        let _ = self.counts.push(RuleCount { reason, calls: 1 });
    }

    // Keeps a call in the place of the oldest, where there are as many as may be.
    fn remember(
        &mut self,
        line: &AuditLine,
        event: Event<'_>,
        tree: &Tree,
    ) -> Result<(), AllocError> {
        let denial = Denial {
            moment: event.moment,
            line: *line,
            subject: subject_of(self.alloc, tree, event.bytes)?,
        };
        if self.last.len() >= MOST_KEPT {
            self.last.pop_front();
        }
        self.last.push_back(denial)?;
        Ok(())
    }
}
