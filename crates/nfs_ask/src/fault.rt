//! Why words ask for no call.
ghost use Rattle.std.specs.Prelude.{◌≡◌, ◌≤◌};
ghost use Rattle.nfs_ask.specs.Faults as spec;

use nfs_client::fault::{CallFault, Part};
use thiserror::Error;

/// What is wanted where a word is missing or is another one.
#[derive(Clone, Copy, Debug, PartialEq, Eq, Error)]
pub enum Wanted {
    /// The number of a call.
    #[error("expected xid=N: the call's number in decimal digits, up to 4294967295")]
    Xid,
    /// A user.
    #[error("expected UID:GID[,GID..]: the numbers of a user, of its group, and of at most 16 more groups")]
    User,
    /// An operation.
    #[error("expected OPERATION: one of stat, access, read, write, create, remove, mkdir, rmdir, rename, link, symlink, readlink, mknod, lookup, list, readdirplus, chmod, chown, chgrp, truncate, touch, utime, commit, df, fsinfo, pathconf, mount and umount")]
    Operation,
    /// A path.
    #[error("expected PATH: the path of a volume, and what follows it")]
    Path,
    /// A path that a symbolic link is to hold.
    #[error("expected TARGET: the path that the link holds")]
    Target,
    /// A mode.
    #[error("expected MODE: octal digits, such as 644")]
    Mode,
    /// A word of 32 bits.
    #[error("expected a number: decimal digits, up to 4294967295")]
    Word,
    /// A word of 64 bits.
    #[error("expected a number: decimal digits, up to 18446744073709551615")]
    LongWord,
    /// Bytes.
    #[error("expected HEX: two hexadecimal digits for each byte")]
    Bytes,
    /// Nothing more.
    #[error("expected no more words")]
    Nothing,
    /// A shorter word.
    #[error("expected a word of at most 262144 bytes")]
    Shorter,
    /// A file that is there.
    #[error("no such file")]
    File,
}

/// Why words ask for no call.
#[derive(Clone, Copy, Debug, PartialEq, Eq, Error)]
pub enum AskFault {
    /// At a place, counted from 0, something else is wanted.
    #[error("{1}")]
    Word(usize, Wanted),
    /// There is no memory.
    #[error("out of memory")]
    Memory,
}

// The places of words, from the user's.
const PATH: usize = 2;

const AFTER_PATH: usize = 3;

const BYTES: usize = 4;

/// The fault of a call that can't be written, by the word that it is at. The words may begin with the call's
/// number.
pub fn fault_of(fault: CallFault, has_xid: bool) -> AskFault
    ensures { result ≡ spec.fault_of has_xid fault }
{
    match fault {
        CallFault::NoFile(part) => AskFault::Word(place_of(part, has_xid), Wanted::File),
        CallFault::TooLong(part) => AskFault::Word(place_of(part, has_xid), Wanted::Shorter),
        CallFault::BadDigits => AskFault::Word(place_of(Part::Bytes, has_xid), Wanted::Bytes),
        CallFault::Memory => AskFault::Memory,
    }
}

// The place of a part among all words.
fn place_of(part: Part, has_xid: bool) -> usize
    ensures { result ≡ spec.place_of has_xid part }
{
    let place = place_from_user(part);
    if has_xid { place + 1 } else { place }
}

fn place_from_user(part: Part) -> usize
    ensures place { result ≡ spec.place_from_user part }
    ensures small { result ≤ 4 }
{
    match part {
        Part::Path => PATH,
        Part::AfterPath => AFTER_PATH,
        Part::Bytes => BYTES,
    }
}
