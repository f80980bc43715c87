//! How lines are worded, and which are written.
ghost use Rattle.std.specs.Prelude.{◌≡◌};
ghost use Rattle.nfs_lines.specs.Wordings.{is_plain};

use crate::rule_names::{is_named_in, name_of};
use nfs_server::audit_line::DenialReason;

/// What becomes of a denied call once the device for its line has failed.
#[derive(Clone, Copy, Debug, PartialEq, Eq)]
pub enum WhenFailed {
    /// It ends its connection.
    Refuse,
    /// It is answered, and its line is counted.
    Count,
}

/// How the lines of a service are worded, and which of them are written.
#[derive(Clone, Copy)]
pub struct Wording<'a> {
    /// Whether a line begins with the moment.
    pub has_times: bool,
    /// Whether the line of a denied call ends with the procedure's name and a path.
    pub has_names: bool,
    /// The rules whose denials have no line, by their names, separated by commas.
    pub skipped: Option<&'a str>,
    /// What becomes of denied calls once the device has failed.
    pub when_failed: WhenFailed,
}

impl Wording<'_> {
    /// Whether each denied call has its line as it stands.
    pub fn is_plain(&self) -> bool
        ensures { result ≡ is_plain self.now }
    {
        match self.when_failed {
            WhenFailed::Refuse => { !self.has_times && !self.has_names && self.skipped.is_none() }
            WhenFailed::Count => false,
        }
    }

    /// Whether the denials of this rule have no line.
    pub fn skips(&self, reason: DenialReason) -> bool {
        match self.skipped {
            Some(rules) => is_named_in(name_of(reason), rules),
            None => false,
        }
    }
}
