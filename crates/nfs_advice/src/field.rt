//! The fields of a line.

/// A field of a line.
#[derive(Clone, Copy, PartialEq)]
pub enum Field {
    /// The server's key.
    Key,
    /// A volume's path.
    VolumePath,
    /// The bytes that a volume may have.
    Bytes,
    /// The files that a volume may have.
    Files,
    /// A mode.
    Mode,
    /// An owner.
    Uid,
    /// A group.
    Gid,
    /// To whom a volume is exported.
    Pattern,
    /// Under which options it is.
    Options,
    /// A path in the volume.
    Path,
    /// A path that is there.
    Old,
    /// What a file holds.
    Content,
    /// What a link holds.
    Target,
    /// When a file was read last.
    Atime,
    /// When it was written last.
    Mtime,
    /// When its attributes were changed last.
    Ctime,
    /// The bytes that a regular file may have.
    FileSize,
    /// The links that a file may have.
    Links,
    /// The bytes that a link may hold.
    LinkPath,
    /// The files that any volume may have.
    MostFiles,
    /// How names are written.
    Form,
}

impl Field {
    /// Its name in the form of its line.
    pub(crate) fn name(self) -> &'static str {
        match self {
            Field::Key => "KEY",
            Field::VolumePath | Field::Path => "PATH",
            Field::Bytes => "BYTES",
            Field::Files => "FILES",
            Field::Mode => "MODE",
            Field::Uid => "UID",
            Field::Gid => "GID",
            Field::Pattern => "PATTERN",
            Field::Options => "OPTIONS",
            Field::Old => "OLD",
            Field::Content => "CONTENT",
            Field::Target => "TARGET",
            Field::Atime => "ATIME",
            Field::Mtime => "MTIME",
            Field::Ctime => "CTIME",
            Field::FileSize => "file-size=N",
            Field::Links => "links=N",
            Field::LinkPath => "link-path=N",
            Field::MostFiles => "files=N",
            Field::Form => "FORM",
        }
    }
}

const SERVER: [Field; 1] = [Field::Key];

// Any of these, in any order.
const LIMITS: [Field; 4] = [
    Field::FileSize,
    Field::Links,
    Field::LinkPath,
    Field::MostFiles,
];

const NAMES: [Field; 1] = [Field::Form];

const VOLUME: [Field; 6] = [
    Field::VolumePath,
    Field::Bytes,
    Field::Files,
    Field::Mode,
    Field::Uid,
    Field::Gid,
];

const EXPORT: [Field; 2] = [Field::Pattern, Field::Options];

const DIR: [Field; 4] = [Field::Path, Field::Mode, Field::Uid, Field::Gid];

const FILE: [Field; 5] = [
    Field::Path,
    Field::Mode,
    Field::Uid,
    Field::Gid,
    Field::Content,
];

const LINK: [Field; 4] = [Field::Path, Field::Uid, Field::Gid, Field::Target];

const HARD: [Field; 2] = [Field::Path, Field::Old];

const TIMES: [Field; 4] = [Field::Path, Field::Atime, Field::Mtime, Field::Ctime];

// The words that lines begin with.
const KEYWORDS: [(&[u8], &[Field]); 10] = [
    (b"server", &SERVER),
    (b"limits", &LIMITS),
    (b"names", &NAMES),
    (b"volume", &VOLUME),
    (b"export", &EXPORT),
    (b"dir", &DIR),
    (b"file", &FILE),
    (b"link", &LINK),
    (b"hard", &HARD),
    (b"times", &TIMES),
];

/// The fields of the lines that begin with this word, in their order.
pub(crate) fn fields_after(keyword: &[u8]) -> &'static [Field] {
    for (word, fields) in &KEYWORDS {
        if keyword == *word {
            return fields;
        }
    }
    &[]
}
