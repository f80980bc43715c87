//! The rules of the procedures, each with its name and its status.
ghost use Rattle.std.specs.Prelude.{◌≡◌, ◌≤◌, length, not};
ghost use Rattle.nfs_rules.specs.Judging.{Reports};
ghost use Rattle.nfs_rules.specs.Rules.{name_of, status_of};

/// A rule that a call may fail. The comment of each says when it does.
#[derive(Clone, Copy, Debug, PartialEq, Eq)]
pub enum Rule {
    /// The handle isn't one that was given.
    BadHandle,
    /// The handle's file is gone.
    StaleHandle,
    /// No pattern of the file's volume covers the address.
    Export,
    /// The handles name files of two volumes.
    CrossVolume,
    /// The volume is exported for reading alone.
    ReadOnly,
    /// The file isn't a regular one.
    NotRegular,
    /// The file isn't a symbolic link.
    NotLink,
    /// The file isn't a directory.
    NotDirectory,
    /// The file's attributes were changed last at another moment than the guard says.
    Guard,
    /// A mode is given, and the caller doesn't own the file.
    OwnerMode,
    /// The owner that is given isn't the present one, or isn't the giver; uid 0 gives any.
    OwnerUid,
    /// The group that is given is neither the present one nor one of the giver's, or the giver doesn't own
    /// the file; uid 0 gives any.
    OwnerGid,
    /// A size is given, and the file isn't a regular one.
    SizeType,
    /// The caller may not write the file, and doesn't own it.
    WriteRight,
    /// The caller may neither read nor execute the file, and doesn't own it.
    ReadRight,
    /// A time is given, and the caller doesn't own the file.
    OwnerTime,
    /// The server's time is asked for, and the caller may not write the file, and doesn't own it.
    TimeRight,
    /// The file would have more bytes than a file may have.
    TooBig,
    /// The volume's bytes would go beyond its limit.
    Space,
    /// The caller may not search the directory.
    Search,
    /// The caller may not read the directory.
    DirectoryRead,
    /// The caller may not write the directory.
    DirectoryWrite,
    /// The directory restricts deletion, and the caller owns neither it nor the file under the name.
    Sticky,
    /// The name has more than 255 bytes.
    NameLong,
    /// The name has no byte, or one that is 0 or `/`.
    NameForm,
    /// The name is `.` or, but where a rule of its own looks at that, `..`.
    DotName,
    /// The name of the directory to be removed is `..`.
    DotDot,
    /// The path has more bytes than one may have.
    PathLong,
    /// There is no volume of the path.
    MountPath,
    /// There is no entry of the name.
    NoEntry,
    /// There is an entry of the name, in CREATE one that it doesn't take.
    Exists,
    /// The file under the name is a directory.
    IsDirectory,
    /// The file under the name isn't a directory.
    TargetNotDirectory,
    /// The directory under the name has entries.
    NotEmpty,
    /// What the new name names may not be replaced by what the old one names.
    Incompatible,
    /// A directory would go into itself or below itself.
    IntoItself,
    /// The file that is to have a hard link is a directory.
    LinkDirectory,
    /// The volume has as many files as it may have.
    Files,
    /// What would gain a link has as many as it may have.
    Links,
    /// There is no number left for a new file, or none for its entry.
    Numbers,
    /// A special file is asked for.
    NoMknod,
    /// The first entry that is left doesn't fit into the answer.
    TooSmall,
}

impl Rule {
    /// The name by which audit lines speak of the rule: lower-case letters and hyphens.
    pub fn name(self) -> &'static str
        ensures name { result.now ≡ name_of self }
        ensures short { length result.now ≤ 16 }
    {
        match self {
            Rule::BadHandle => "bad-handle",
            Rule::StaleHandle => "stale-handle",
            Rule::Export => "export",
            Rule::CrossVolume => "cross-volume",
            Rule::ReadOnly => "read-only",
            Rule::NotRegular => "not-regular",
            Rule::NotLink => "not-link",
            Rule::NotDirectory => "not-dir",
            Rule::Guard => "guard",
            Rule::OwnerMode => "owner-mode",
            Rule::OwnerUid => "owner-uid",
            Rule::OwnerGid => "owner-gid",
            Rule::SizeType => "size-type",
            Rule::WriteRight => "write-right",
            Rule::ReadRight => "read-right",
            Rule::OwnerTime => "owner-time",
            Rule::TimeRight => "time-right",
            Rule::TooBig => "too-big",
            Rule::Space => "space",
            Rule::Search => "search",
            Rule::DirectoryRead => "dir-read",
            Rule::DirectoryWrite => "dir-write",
            Rule::Sticky => "sticky",
            Rule::NameLong => "name-long",
            Rule::NameForm => "name-form",
            Rule::DotName => "dot-name",
            Rule::DotDot => "dot-dot",
            Rule::PathLong => "path-long",
            Rule::MountPath => "mount-path",
            Rule::NoEntry => "no-entry",
            Rule::Exists => "exists",
            Rule::IsDirectory => "is-dir",
            Rule::TargetNotDirectory => "target-not-dir",
            Rule::NotEmpty => "not-empty",
            Rule::Incompatible => "incompatible",
            Rule::IntoItself => "into-itself",
            Rule::LinkDirectory => "link-dir",
            Rule::Files => "files",
            Rule::Links => "links",
            Rule::Numbers => "numbers",
            Rule::NoMknod => "no-mknod",
            Rule::TooSmall => "too-small",
        }
    }

    /// The status of a call that fails the rule (RFC 1813, section 2.6, nfsstat3; appendix I, section
    /// 5.1.1, mountstat3).
    pub fn status(self) -> u32
        ensures { result ≡ status_of self }
    {
        match self {
            Rule::BadHandle => 10_001,
            Rule::StaleHandle => 70,
            Rule::Export => 13,
            Rule::CrossVolume => 18,
            Rule::ReadOnly => 30,
            Rule::NotRegular => 22,
            Rule::NotLink => 22,
            Rule::NotDirectory => 20,
            Rule::Guard => 10_002,
            Rule::OwnerMode => 1,
            Rule::OwnerUid => 1,
            Rule::OwnerGid => 1,
            Rule::SizeType => 22,
            Rule::WriteRight => 13,
            Rule::ReadRight => 13,
            Rule::OwnerTime => 1,
            Rule::TimeRight => 13,
            Rule::TooBig => 27,
            Rule::Space => 28,
            Rule::Search => 13,
            Rule::DirectoryRead => 13,
            Rule::DirectoryWrite => 13,
            Rule::Sticky => 1,
            Rule::NameLong => 63,
            Rule::NameForm => 13,
            Rule::DotName => 22,
            Rule::DotDot => 17,
            Rule::PathLong => 63,
            Rule::MountPath => 2,
            Rule::NoEntry => 2,
            Rule::Exists => 17,
            Rule::IsDirectory => 21,
            Rule::TargetNotDirectory => 20,
            Rule::NotEmpty => 66,
            Rule::Incompatible => 17,
            Rule::IntoItself => 22,
            Rule::LinkDirectory => 22,
            Rule::Files => 28,
            Rule::Links => 31,
            Rule::Numbers => 28,
            Rule::NoMknod => 10_004,
            Rule::TooSmall => 10_005,
        }
    }
}

// The rule where it is not kept.
#[inline(always)]
pub(crate) fn ensure(kept: bool, rule: Rule) -> Result<(), Rule>
    ensures { Reports result (rule, not kept) }
{
    if kept { Ok(()) } else { Err(rule) }
}
