//! What is skipped of a description, and why.
ghost use Rattle.std.specs.Prelude.{◌≡◌, count_by};
ghost use Rattle.nfs_disk.specs.Surveys as spec;
ghost use Rattle.nfs_disk.specs.declared.warning.Warning.{Warning};

use nfs_load::name_form::name_byte;
use std::fmt;

/// Why something on disk is skipped.
#[derive(Clone, Copy, Debug, PartialEq, Eq)]
pub enum SkipReason {
    /// It is no directory, no regular file and no symbolic link.
    OtherKind,
    /// It has more bytes than when it was found.
    Grown,
    /// The system doesn't let it be read.
    Unreadable,
    /// Its directory or the file itself has the most links that a tree may allow, what the link holds is longer
    /// than a tree may allow, or its volume is full, since files have grown after they were found.
    Full,
    /// A name in the directory is no text in UTF-8.
    NotText,
}

impl SkipReason {
    /// Each reason once.
    pub const ALL: [SkipReason; 5] = [
        SkipReason::OtherKind,
        SkipReason::Grown,
        SkipReason::Unreadable,
        SkipReason::Full,
        SkipReason::NotText,
    ];
}

impl fmt::Display for SkipReason {
    fn fmt<W: fmt::Write>(&self, f: &mut fmt::Formatter<W>) -> fmt::Result {
        match self {
            SkipReason::OtherKind => f.write_str("a device, a socket or a pipe"),
            SkipReason::Grown => f.write_str("it has grown while the directory was read"),
            SkipReason::Unreadable => f.write_str("it can't be read"),
            SkipReason::Full => {
                f.write_str("a limit of the directory, of the volume or of the file is reached")
            }
            SkipReason::NotText => f.write_str("a name in it is not UTF-8"),
        }
    }
}

/// Something on disk that is skipped, and why.
#[derive(Debug, Drop)]
pub struct Warning {
    /// Its path on disk.
    pub path: String,
    /// Why it is skipped.
    pub reason: SkipReason,
}

impl fmt::Display for Warning {
    fn fmt<W: fmt::Write>(&self, f: &mut fmt::Formatter<W>) -> fmt::Result {
        f.write_str("skipped: ")?;
        write_quoted(f, self.path.as_str())?;
        write!(f, ": {}", self.reason)
    }
}

/// How many were skipped for this reason.
pub fn skipped_for(warnings: &[Warning], reason: SkipReason) -> usize
    ensures { result ≡ count_by (λ (w : Warning). spec.is_because reason w.reason) warnings.now }
{
    warnings
        .iter()
        .filter(|warning| is_because(reason, warning.reason))
        .count()
}

// Whether something is skipped for a reason.
fn is_because(reason: SkipReason, found: SkipReason) -> bool
    ensures { result ≡ spec.is_because reason found }
{
    reason == found
}

// A path, with `%` and two hexadecimal digits in place of each byte outside `!` to `~` and of `%`.
fn write_quoted<W: fmt::Write>(f: &mut fmt::Formatter<W>, path: &str) -> fmt::Result {
    for byte in path.bytes() {
        write_byte(f, byte)?;
    }
    Ok(())
}

fn write_byte<W: fmt::Write>(f: &mut fmt::Formatter<W>, byte: u8) -> fmt::Result {
    for letter in name_byte(byte).as_slice() {
        f.write_char(char::from(*letter))?;
    }
    Ok(())
}
