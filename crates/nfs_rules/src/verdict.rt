//! The verdict of a call, given without doing what it asks for: the first rule that it fails.
ghost use Rattle.std.specs.Prelude.{◌≡◌, [], ◌∷◌};
ghost use Rattle.nfs_rules.specs.Table.{rules_of};
ghost use Rattle.nfs_rules.specs.Tests.{first};
ghost use Rattle.nfs_rules.specs.Verdicts as judged;
ghost use Rattle.nfs_rules.specs.Verdicts.{handle_rules, handles_in, handles_rules};
ghost use Rattle.nfs_rules.specs.Views.{caller_of, handles_seen};

use crate::caller::Caller;
use crate::exported_file::ExportedFile;
use crate::exported_pair::in_one_volume;
use crate::rule::Rule;
use crate::subject::Subject;
use crate::table::{
    create_rules, link_rules, lookup_rules, mkdir_rules, read_rules, readdir_rules,
    readdirplus_rules, remove_rules, rename_rules, rmdir_rules, setattr_rules, symlink_rules,
    write_rules,
};
use nfs_args::args::NfsArgs;
use nfs_exports::export_table::ExportTable;
use nfs_inodes::tree::Tree;

/// The first failing rule of a call's handles: those of each handle in turn, and then that both name
/// files of one volume. `None` where they are kept, and for NULL, which has no handle.
pub fn handle_failure(
    tree: &Tree,
    table: &ExportTable,
    caller: Caller<'_>,
    args: &NfsArgs<'_>,
) -> Option<Rule>
    ensures { result ≡ first (handles_rules tree.now table.now (caller_of caller.entry) (handles_in args.now)) }
{
    match handles_of(args) {
        Handles::None => None,
        Handles::One(handle) => failure_of(tree, table, caller, handle),
        Handles::Two(one, two) => failure_of_pair(tree, table, caller, one, two),
    }
}

// The handles of a call, in their order.
enum Handles<'a> {
    None,
    One(&'a [u8]),
    Two(&'a [u8], &'a [u8]),
}

fn handles_of<'a>(args: &'a NfsArgs<'_>) -> Handles<'a>
    ensures { handles_seen result ≡ handles_in args.now }
{
    match args {
        NfsArgs::Null => Handles::None,
        NfsArgs::Getattr(file)
        | NfsArgs::Readlink(file)
        | NfsArgs::Fsstat(file)
        | NfsArgs::Fsinfo(file)
        | NfsArgs::Pathconf(file) => Handles::One(file.bytes()),
        NfsArgs::Setattr(args) => Handles::One(args.file.bytes()),
        NfsArgs::Access(args) => Handles::One(args.file.bytes()),
        NfsArgs::Read(args) | NfsArgs::Commit(args) => Handles::One(args.file.bytes()),
        NfsArgs::Write(args) => Handles::One(args.file.bytes()),
        NfsArgs::Lookup(args) | NfsArgs::Remove(args) | NfsArgs::Rmdir(args) => {
            Handles::One(args.dir.bytes())
        }
        NfsArgs::Create(args) => Handles::One(args.place.dir.bytes()),
        NfsArgs::Mkdir(args) => Handles::One(args.place.dir.bytes()),
        NfsArgs::Symlink(args) => Handles::One(args.place.dir.bytes()),
        NfsArgs::Mknod(args) => Handles::One(args.place.dir.bytes()),
        NfsArgs::Readdir(args) => Handles::One(args.dir.bytes()),
        NfsArgs::Readdirplus(args) => Handles::One(args.dir.bytes()),
        NfsArgs::Rename(args) => Handles::Two(args.from.dir.bytes(), args.to.dir.bytes()),
        NfsArgs::Link(args) => Handles::Two(args.file.bytes(), args.place.dir.bytes()),
    }
}

// The first failing rule of one handle.
fn failure_of(tree: &Tree, table: &ExportTable, caller: Caller<'_>, handle: &[u8]) -> Option<Rule>
    ensures { result ≡ first (handle_rules tree.now table.now (caller_of caller.entry) handle.now) }
{
    ExportedFile::of(tree, table, caller, handle).err()
}

// The same of two handles.
fn failure_of_pair(
    tree: &Tree,
    table: &ExportTable,
    caller: Caller<'_>,
    one: &[u8],
    two: &[u8],
) -> Option<Rule>
    ensures { result ≡ first (handles_rules tree.now table.now (caller_of caller.entry) (one.now ∷ two.now ∷ [])) }
{
    let one = ExportedFile::of(tree, table, caller, one);
    let two = ExportedFile::of(tree, table, caller, two);
    match in_one_volume(one, two) {
        Ok(_) => None,
        Err(rule) => Some(rule),
    }
}

/// The first rule that a call fails: of its handles, and then of its procedure. `None` where it is
/// granted.
pub fn verdict(
    tree: &Tree,
    table: &ExportTable,
    caller: Caller<'_>,
    args: &NfsArgs<'_>,
) -> Option<Rule>
    ensures { result ≡ judged.verdict tree.now table.now (caller_of caller.entry) args.now }
{
    match handles_of(args) {
        Handles::None => None,
        Handles::One(handle) => match ExportedFile::of(tree, table, caller, handle) {
            Ok(file) => {
                let subject = file.subject();
                first_failure(&subject, &subject, args)
            }
            Err(rule) => Some(rule),
        },
        Handles::Two(one, two) => {
            let one = ExportedFile::of(tree, table, caller, one);
            let two = ExportedFile::of(tree, table, caller, two);
            match in_one_volume(one, two) {
                Ok((one, two)) => first_failure(&one, &two, args),
                Err(rule) => Some(rule),
            }
        }
    }
}

/// The first failing rule of a call's procedure, for the files that its handles name; of a call with
/// one handle both are the file of that. `None` where the call is granted.
pub fn first_failure(one: &Subject<'_>, two: &Subject<'_>, args: &NfsArgs<'_>) -> Option<Rule>
    ensures { result ≡ first (rules_of one.now two.now args.now) }
{
    match args {
        NfsArgs::Setattr(args) => setattr_rules(one, args).err(),
        NfsArgs::Lookup(args) => lookup_rules(one, args.name.bytes()).err(),
        NfsArgs::Readlink(_) => one.must_be_link().err(),
        NfsArgs::Read(_) => read_rules(one).err(),
        NfsArgs::Write(args) => write_rules(one, args).err(),
        NfsArgs::Create(args) => create_rules(one, args).err(),
        NfsArgs::Mkdir(args) => mkdir_rules(one, args.place.name.bytes()).err(),
        NfsArgs::Symlink(args) => {
            symlink_rules(one, args.place.name.bytes(), args.path.bytes()).err()
        }
        NfsArgs::Mknod(_) => Some(Rule::NoMknod),
        NfsArgs::Remove(args) => remove_rules(one, args.name.bytes()).err(),
        NfsArgs::Rmdir(args) => rmdir_rules(one, args.name.bytes()).err(),
        NfsArgs::Rename(args) => rename_rules(one, two, args).err(),
        NfsArgs::Link(args) => link_rules(one, two, args.place.name.bytes()).err(),
        NfsArgs::Readdir(args) => readdir_rules(one, args).err(),
        NfsArgs::Readdirplus(args) => readdirplus_rules(one, args).err(),
        NfsArgs::Commit(_) => one.must_be_regular().err(),
        NfsArgs::Null
        | NfsArgs::Getattr(_)
        | NfsArgs::Access(_)
        | NfsArgs::Fsstat(_)
        | NfsArgs::Fsinfo(_)
        | NfsArgs::Pathconf(_) => None,
    }
}
