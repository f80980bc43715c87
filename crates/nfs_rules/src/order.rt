//! The rules of each procedure by their names, in the order of the table, for who reports them.
ghost use Rattle.std.specs.Prelude.{◌≡◌, ◌++◌, [], ◌∷◌, ℕ, List, map};
ghost use Rattle.nfs_exports.specs.declared.export_table.Export.{Export};
ghost use Rattle.nfs_inodes.specs.Tree as trees;
ghost use Rattle.nfs_rules.specs.Subjects as subjects;
ghost use Rattle.nfs_rules.specs.Table as table;
ghost use Rattle.nfs_rules.specs.Verdicts.{cross_volume, handle_rules};

use crate::rule::Rule;
use crate::subject::Subject;
use nfs_args::args::NfsArgs;
use nfs_args::create::{Create, CreateHow};
use nfs_args::rename::Rename;

const SETATTR: [Rule; 11] = [
    Rule::ReadOnly,
    Rule::Guard,
    Rule::OwnerMode,
    Rule::OwnerUid,
    Rule::OwnerGid,
    Rule::SizeType,
    Rule::WriteRight,
    Rule::OwnerTime,
    Rule::TimeRight,
    Rule::TooBig,
    Rule::Space,
];

const LOOKUP: [Rule; 5] = [
    Rule::NotDirectory,
    Rule::Search,
    Rule::NameLong,
    Rule::NameForm,
    Rule::NoEntry,
];

const READLINK: [Rule; 1] = [Rule::NotLink];

const READ: [Rule; 2] = [Rule::NotRegular, Rule::ReadRight];

const WRITE: [Rule; 5] = [
    Rule::ReadOnly,
    Rule::NotRegular,
    Rule::WriteRight,
    Rule::TooBig,
    Rule::Space,
];

const CREATE: [Rule; 6] = [
    Rule::ReadOnly,
    Rule::NotDirectory,
    Rule::NameLong,
    Rule::NameForm,
    Rule::Search,
    Rule::Exists,
];

const CREATE_NEW: [Rule; 11] = [
    Rule::ReadOnly,
    Rule::NotDirectory,
    Rule::NameLong,
    Rule::NameForm,
    Rule::Search,
    Rule::Exists,
    Rule::DirectoryWrite,
    Rule::Files,
    Rule::TooBig,
    Rule::Space,
    Rule::Numbers,
];

const CREATE_PRESENT: [Rule; 9] = [
    Rule::ReadOnly,
    Rule::NotDirectory,
    Rule::NameLong,
    Rule::NameForm,
    Rule::Search,
    Rule::Exists,
    Rule::WriteRight,
    Rule::TooBig,
    Rule::Space,
];

const MKDIR: [Rule; 10] = [
    Rule::ReadOnly,
    Rule::NotDirectory,
    Rule::NameLong,
    Rule::NameForm,
    Rule::Search,
    Rule::Exists,
    Rule::DirectoryWrite,
    Rule::Files,
    Rule::Links,
    Rule::Numbers,
];

const SYMLINK: [Rule; 10] = [
    Rule::ReadOnly,
    Rule::NotDirectory,
    Rule::NameLong,
    Rule::NameForm,
    Rule::Search,
    Rule::PathLong,
    Rule::Exists,
    Rule::DirectoryWrite,
    Rule::Files,
    Rule::Numbers,
];

const MKNOD: [Rule; 1] = [Rule::NoMknod];

const REMOVE: [Rule; 10] = [
    Rule::ReadOnly,
    Rule::NotDirectory,
    Rule::DotName,
    Rule::NameLong,
    Rule::NameForm,
    Rule::Search,
    Rule::NoEntry,
    Rule::DirectoryWrite,
    Rule::Sticky,
    Rule::IsDirectory,
];

const REMOVE_ABSENT: [Rule; 8] = [
    Rule::ReadOnly,
    Rule::NotDirectory,
    Rule::DotName,
    Rule::NameLong,
    Rule::NameForm,
    Rule::Search,
    Rule::NoEntry,
    Rule::DirectoryWrite,
];

const RMDIR: [Rule; 12] = [
    Rule::ReadOnly,
    Rule::NotDirectory,
    Rule::DotName,
    Rule::DotDot,
    Rule::NameLong,
    Rule::NameForm,
    Rule::Search,
    Rule::NoEntry,
    Rule::DirectoryWrite,
    Rule::Sticky,
    Rule::TargetNotDirectory,
    Rule::NotEmpty,
];

const RMDIR_ABSENT: [Rule; 9] = [
    Rule::ReadOnly,
    Rule::NotDirectory,
    Rule::DotName,
    Rule::DotDot,
    Rule::NameLong,
    Rule::NameForm,
    Rule::Search,
    Rule::NoEntry,
    Rule::DirectoryWrite,
];

const RENAME: [Rule; 14] = [
    Rule::ReadOnly,
    Rule::NotDirectory,
    Rule::NotDirectory,
    Rule::DotName,
    Rule::DotName,
    Rule::NameLong,
    Rule::NameLong,
    Rule::NameForm,
    Rule::NameForm,
    Rule::Search,
    Rule::Search,
    Rule::NoEntry,
    Rule::DirectoryWrite,
    Rule::DirectoryWrite,
];

const RENAME_TO_FREE: [Rule; 18] = [
    Rule::ReadOnly,
    Rule::NotDirectory,
    Rule::NotDirectory,
    Rule::DotName,
    Rule::DotName,
    Rule::NameLong,
    Rule::NameLong,
    Rule::NameForm,
    Rule::NameForm,
    Rule::Search,
    Rule::Search,
    Rule::NoEntry,
    Rule::DirectoryWrite,
    Rule::DirectoryWrite,
    Rule::Sticky,
    Rule::IntoItself,
    Rule::Links,
    Rule::Numbers,
];

const RENAME_TO_TAKEN: [Rule; 18] = [
    Rule::ReadOnly,
    Rule::NotDirectory,
    Rule::NotDirectory,
    Rule::DotName,
    Rule::DotName,
    Rule::NameLong,
    Rule::NameLong,
    Rule::NameForm,
    Rule::NameForm,
    Rule::Search,
    Rule::Search,
    Rule::NoEntry,
    Rule::DirectoryWrite,
    Rule::DirectoryWrite,
    Rule::Sticky,
    Rule::Incompatible,
    Rule::IntoItself,
    Rule::Numbers,
];

const LINK: [Rule; 10] = [
    Rule::ReadOnly,
    Rule::LinkDirectory,
    Rule::NotDirectory,
    Rule::NameLong,
    Rule::NameForm,
    Rule::Search,
    Rule::Exists,
    Rule::DirectoryWrite,
    Rule::Links,
    Rule::Numbers,
];

const READDIR: [Rule; 3] = [Rule::NotDirectory, Rule::DirectoryRead, Rule::TooSmall];

const COMMIT: [Rule; 1] = [Rule::NotRegular];

/// The rules of MNT, in their order.
pub const MOUNT: [Rule; 3] = [Rule::PathLong, Rule::MountPath, Rule::Export];

const HANDLE: [Rule; 3] = [Rule::BadHandle, Rule::StaleHandle, Rule::Export];

const HANDLES: [Rule; 4] = [
    Rule::BadHandle,
    Rule::StaleHandle,
    Rule::Export,
    Rule::CrossVolume,
];

/// The rules of a handle, in their order.
pub fn rules_of_handle() -> &'static [Rule]
    ensures { (t : trees.Tree) (exports : List (List Export)) (caller : subjects.Caller) (handle : List ℕ)
        → result.now ≡ map (λ test. test.0) (handle_rules t exports caller handle) }
{
    &HANDLE
}

/// The rules of two handles: those of each, which are the same, and of both together.
pub fn rules_of_handles() -> &'static [Rule]
    ensures { (t : trees.Tree) (exports : List (List Export)) (caller : subjects.Caller) (one two : List ℕ)
        → result.now ≡ map (λ test. test.0) (handle_rules t exports caller one ++ cross_volume t one two ∷ []) }
{
    &HANDLES
}

/// The rules of a call's procedure after those of its handles, in the order in which they are looked
/// at, for the files that the handles name; of a call with one handle both are the file of that.
pub fn rules_of(one: &Subject<'_>, two: &Subject<'_>, args: &NfsArgs<'_>) -> &'static [Rule]
    ensures { result.now ≡ map (λ test. test.0) (table.rules_of one.now two.now args.now) }
{
    match args {
        NfsArgs::Setattr(_) => &SETATTR,
        NfsArgs::Lookup(_) => &LOOKUP,
        NfsArgs::Readlink(_) => &READLINK,
        NfsArgs::Read(_) => &READ,
        NfsArgs::Write(_) => &WRITE,
        NfsArgs::Create(args) => create_rules(one, args),
        NfsArgs::Mkdir(_) => &MKDIR,
        NfsArgs::Symlink(_) => &SYMLINK,
        NfsArgs::Mknod(_) => &MKNOD,
        NfsArgs::Remove(args) => remove_rules(one, args.name.bytes()),
        NfsArgs::Rmdir(args) => rmdir_rules(one, args.name.bytes()),
        NfsArgs::Rename(args) => rename_rules(one, two, args),
        NfsArgs::Link(_) => &LINK,
        NfsArgs::Readdir(_) | NfsArgs::Readdirplus(_) => &READDIR,
        NfsArgs::Commit(_) => &COMMIT,
        NfsArgs::Null
        | NfsArgs::Getattr(_)
        | NfsArgs::Access(_)
        | NfsArgs::Fsstat(_)
        | NfsArgs::Fsinfo(_)
        | NfsArgs::Pathconf(_) => &[],
    }
}

// Those of CREATE, by whether the name is there.
fn create_rules(dir: &Subject<'_>, args: &Create<'_>) -> &'static [Rule]
    ensures { result.now ≡ map (λ test. test.0) (table.create_rules dir.now args.now) }
{
    match (dir.found(args.place.name.bytes()), &args.how) {
        (None, _) => &CREATE_NEW,
        (Some(_), CreateHow::Unchecked(_)) => &CREATE_PRESENT,
        (Some(_), _) => &CREATE,
    }
}

// Those of REMOVE, by whether the name is there.
fn remove_rules(dir: &Subject<'_>, name: &[u8]) -> &'static [Rule]
    ensures { result.now ≡ map (λ test. test.0) (table.remove_rules dir.now name.now) }
{
    match dir.found(name) {
        Some(_) => &REMOVE,
        None => &REMOVE_ABSENT,
    }
}

// Those of RMDIR, by whether the name is there.
fn rmdir_rules(dir: &Subject<'_>, name: &[u8]) -> &'static [Rule]
    ensures { result.now ≡ map (λ test. test.0) (table.rmdir_rules dir.now name.now) }
{
    match dir.found(name) {
        Some(_) => &RMDIR,
        None => &RMDIR_ABSENT,
    }
}

// Those of RENAME, by what both names name.
fn rename_rules(from: &Subject<'_>, to: &Subject<'_>, args: &Rename<'_>) -> &'static [Rule]
    ensures { result.now ≡ map (λ test. test.0) (table.rename_rules from.now to.now args.now) }
{
    match (
        from.found(args.from.name.bytes()),
        to.found(args.to.name.bytes()),
    ) {
        (None, _) => &RENAME,
        (Some(_), None) => &RENAME_TO_FREE,
        (Some(moved), Some(old)) => {
            if moved.attributes().fileid == old.attributes().fileid {
                &RENAME
            } else {
                &RENAME_TO_TAKEN
            }
        }
    }
}
