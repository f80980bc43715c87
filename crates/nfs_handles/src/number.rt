//! The numbers of files.
ghost use Rattle.std.specs.Prelude.{◌≡◌};
ghost use Rattle.nfs_handles.specs.Handles.{number};

use std::fmt;

/// Where a file was found, the tag of its slot, by which it is found again without a search. One that
/// is wrong costs the search, and changes nothing.
#[derive(Clone, Copy)]
pub struct Hint(pub(crate) u32);

impl Hint {
    /// The hint of who has none.
    pub const NONE: Hint = Hint(0);
}

/// A file's number, which is its fileid (RFC 1813, section 2.5, fileid3), and where it was found. The
/// file need not live.
#[derive(Clone, Copy)]
pub struct Number(pub u64, pub Hint);

impl Number {
    /// A number with no hint.
    #[inline(always)]
    pub fn new(fileid: u64) -> Number
        ensures { result ≡ number fileid }
    {
        Number(fileid, Hint::NONE)
    }
}

impl fmt::Debug for Number {
    // Without the hint, which says nothing of the file.
    fn fmt<W: fmt::Write>(&self, f: &mut fmt::Formatter<W>) -> fmt::Result {
        f.debug_tuple("Number").field(&self.0).finish()
    }
}
