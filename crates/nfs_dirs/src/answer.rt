//! What is answered of a page.
ghost use Rattle.std.specs.Prelude.{◌≤◌};
ghost use Rattle.nfs_dirs.specs.Walk.{IsCutOff};

use nfs_args::dir_page::write_page_end;
use nfs_xdr::output::Output;

/// A page that was written.
#[derive(Clone, Copy, Debug)]
pub struct WrittenPage {
    /// How many entries it has.
    pub given: usize,
    /// Whether the directory ends after them.
    pub eof: bool,
}

/// The bound is too small for a page with no entry, or for the first entry that is left.
#[derive(Clone, Copy, Debug)]
pub struct TooSmall;

// The page ends after so many entries, and more are left.
pub(crate) fn cut_off(given: usize, out: &mut Output) -> WrittenPage
    requires { 8 ≤ out.old.room }
    ensures { IsCutOff given result out.old out.new }
{
    write_page_end(out, false);
    WrittenPage { given, eof: false }
}
