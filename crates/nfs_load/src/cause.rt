//! Why a line of a description is faulty.
ghost use Rattle.std.specs.Prelude.{◌≡◌};
ghost use Rattle.nfs_load.specs.Causes.{word_of};

use std::fmt;
use thiserror::Error;

/// The causes, in the order in which one line is checked. Each is printed by its name.
#[derive(Clone, Copy, Debug, PartialEq, Error)]
pub enum Cause {
    /// A byte is below 0x20 or above 0x7e.
    BadByte,
    /// The first word is no keyword.
    UnknownWord,
    /// The keyword takes another number of fields.
    FieldCount,
    /// No `server` line stands before.
    NoServer,
    /// A `server` line stands before.
    ServerTwice,
    /// No `volume` line stands before.
    NoVolume,
    /// A `volume` line stands before.
    LimitsLate,
    /// A `volume` line stands before.
    NamesLate,
    /// The key is not 16 hexadecimal digits.
    BadKey,
    /// A limit is none, or has been set.
    BadLimit,
    /// The form of names is not `percent`, or has been said.
    BadNames,
    /// A volume's path is neither a path of at most 255 bytes nor `/` alone.
    BadVolumePath,
    /// A number is not in the digits or the bounds of its field.
    BadNumber,
    /// The pattern is none.
    BadPattern,
    /// The options are none, or contradict one another.
    BadOptions,
    /// A path is none.
    BadPath,
    /// A content is none or too large, or a link's path is too long.
    BadContent,
    /// A volume of this path is there.
    VolumeTwice,
    /// The parent is missing, or no directory.
    NoParent,
    /// The name is taken.
    NameTaken,
    /// The file that a line is about is missing; of a `hard` line also where it is a directory.
    NoTarget,
    /// A limit of the tree, of the volume or of the table is reached.
    Full,
}

impl Cause {
    /// The word that it is printed by.
    pub fn word(self) -> &'static str
        ensures { result.now ≡ word_of self }
    {
        match self {
            Cause::BadByte => "BadByte",
            Cause::UnknownWord => "UnknownWord",
            Cause::FieldCount => "FieldCount",
            Cause::NoServer => "NoServer",
            Cause::ServerTwice => "ServerTwice",
            Cause::NoVolume => "NoVolume",
            Cause::LimitsLate => "LimitsLate",
            Cause::NamesLate => "NamesLate",
            Cause::BadKey => "BadKey",
            Cause::BadLimit => "BadLimit",
            Cause::BadNames => "BadNames",
            Cause::BadVolumePath => "BadVolumePath",
            Cause::BadNumber => "BadNumber",
            Cause::BadPattern => "BadPattern",
            Cause::BadOptions => "BadOptions",
            Cause::BadPath => "BadPath",
            Cause::BadContent => "BadContent",
            Cause::VolumeTwice => "VolumeTwice",
            Cause::NoParent => "NoParent",
            Cause::NameTaken => "NameTaken",
            Cause::NoTarget => "NoTarget",
            Cause::Full => "Full",
        }
    }
}

impl fmt::Display for Cause {
    fn fmt<W: fmt::Write>(&self, f: &mut fmt::Formatter<W>) -> fmt::Result {
        f.write_str(self.word())
    }
}
