//! What a client may do, by the words that people use.
ghost use Rattle.std.specs.Prelude.{◌≡◌};
ghost use Rattle.nfs_ask.specs.Operations as spec;

/// What is done with a path.
#[derive(Clone, Copy, PartialEq)]
pub enum Operation {
    /// GETATTR.
    Stat,
    /// SETATTR of a mode.
    SetMode,
    /// SETATTR of an owner.
    SetOwner,
    /// SETATTR of a group.
    SetGroup,
    /// SETATTR of a size.
    Truncate,
    /// SETATTR of both times to the server's.
    Touch,
    /// SETATTR of both times to some of the client's.
    SetTimes,
    /// LOOKUP.
    Lookup,
    /// ACCESS.
    Access,
    /// READLINK.
    Readlink,
    /// READ.
    Read,
    /// WRITE.
    Write,
    /// CREATE.
    Create,
    /// MKDIR.
    Mkdir,
    /// SYMLINK.
    Symlink,
    /// MKNOD.
    Mknod,
    /// REMOVE.
    Remove,
    /// RMDIR.
    Rmdir,
    /// RENAME.
    Rename,
    /// LINK.
    Link,
    /// READDIR.
    List,
    /// READDIRPLUS.
    ListPlus,
    /// FSSTAT.
    Room,
    /// FSINFO.
    Limits,
    /// PATHCONF.
    PathLimits,
    /// COMMIT.
    Commit,
    /// MNT.
    Mount,
    /// UMNT.
    Unmount,
}

/// The words, each with what it stands for.
const WORDS: [(&[u8], Operation); 34] = [
    (b"stat", Operation::Stat),
    (b"chmod", Operation::SetMode),
    (b"chown", Operation::SetOwner),
    (b"chgrp", Operation::SetGroup),
    (b"truncate", Operation::Truncate),
    (b"touch", Operation::Touch),
    (b"utime", Operation::SetTimes),
    (b"lookup", Operation::Lookup),
    (b"access", Operation::Access),
    (b"readlink", Operation::Readlink),
    (b"read", Operation::Read),
    (b"write", Operation::Write),
    (b"create", Operation::Create),
    (b"mkdir", Operation::Mkdir),
    (b"symlink", Operation::Symlink),
    (b"mknod", Operation::Mknod),
    (b"remove", Operation::Remove),
    (b"rm", Operation::Remove),
    (b"unlink", Operation::Remove),
    (b"rmdir", Operation::Rmdir),
    (b"rename", Operation::Rename),
    (b"mv", Operation::Rename),
    (b"link", Operation::Link),
    (b"ln", Operation::Link),
    (b"list", Operation::List),
    (b"ls", Operation::List),
    (b"readdir", Operation::List),
    (b"readdirplus", Operation::ListPlus),
    (b"df", Operation::Room),
    (b"fsinfo", Operation::Limits),
    (b"pathconf", Operation::PathLimits),
    (b"commit", Operation::Commit),
    (b"mount", Operation::Mount),
    (b"umount", Operation::Unmount),
];

impl Operation {
    /// The operation that a word stands for.
    pub fn of(word: &[u8]) -> Option<Operation>
        ensures { result ≡ spec.operation_of word.now }
    {
        operation_in(&WORDS, word)
    }
}

// The operation of the first row with this word.
fn operation_in(rows: &[(&[u8], Operation)], word: &[u8]) -> Option<Operation>
    ensures { result ≡ spec.operation_in rows.now word.now }
{
    for (known, operation) in rows {
        if *known == word {
            return Some(*operation);
        }
    }
    None
}
