//! What it means that a call fails a rule.

use nfs_rules::rule::Rule;

/// What is so where a call fails the rule.
pub fn meaning(rule: Rule) -> &'static str {
    match rule {
        Rule::BadHandle => "the server never issued this handle",
        Rule::StaleHandle => "the handle's file is gone",
        Rule::Export => "no export pattern of the volume covers this address",
        Rule::CrossVolume => "both files must be in one volume",
        Rule::ReadOnly => "the volume is exported read-only to this address",
        Rule::NotRegular => "it is not a regular file",
        Rule::NotLink => "it is not a symbolic link",
        Rule::NotDirectory => "it is not a directory",
        Rule::Guard => "the file's ctime is not the one that the guard names",
        Rule::SizeType => "only the size of a regular file can be set",
        Rule::TooBig => "it would have more bytes than a file may have",
        Rule::Space => "the volume does not have that many bytes left",
        Rule::NameLong => "a name has at most 255 bytes",
        Rule::NameForm => "a name has at least one byte, and no byte that is 0 or a slash",
        Rule::DotName => "the name is . or ..",
        Rule::DotDot => "the name is ..",
        Rule::PathLong => "the path has more bytes than a path may have",
        Rule::MountPath => "no exported volume has this path",
        Rule::NoEntry => "the directory has no entry with this name",
        Rule::Exists => "the directory already has an entry with this name",
        Rule::Files => "the volume already has as many files as it may have",
        Rule::Links => "it already has as many links as it may have",
        Rule::Numbers => "no fileid or cookie is left",
        Rule::NoMknod => "special files are not served",
        Rule::TooSmall => "the first entry does not fit in the reply",
        other => meaning_of_right(other),
    }
}

// The same of the rules that look at rights, and at what is under a name.
fn meaning_of_right(rule: Rule) -> &'static str {
    match rule {
        Rule::OwnerMode => "only its owner may change its mode",
        Rule::OwnerUid => "only user 0 may give it to another owner",
        Rule::OwnerGid =>
            "only its owner may change its group, and only to a group that the owner is in",
        Rule::WriteRight =>
            "its mode does not let the caller write, and the caller is not its owner",
        Rule::ReadRight =>
            "its mode lets the caller neither read nor execute it, and the caller is not its owner",
        Rule::OwnerTime => "only its owner may set its times",
        Rule::TimeRight =>
            "its mode does not let the caller write, and the caller is not its owner",
        Rule::Search => "the directory's mode does not let the caller search it",
        Rule::DirectoryRead => "the directory's mode does not let the caller read it",
        Rule::DirectoryWrite => "the directory's mode does not let the caller write to it",
        Rule::Sticky => "the directory is sticky, and the caller owns neither it nor the file",
        Rule::IsDirectory => "it is a directory",
        Rule::TargetNotDirectory => "it is not a directory",
        Rule::NotEmpty => "the directory is not empty",
        Rule::Incompatible => "it can't replace the file that has the new name",
        Rule::IntoItself => "a directory can't go into itself or below itself",
        _ => "it is a directory, which can have only one name",
    }
}
