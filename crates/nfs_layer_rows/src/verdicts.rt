//! The verdict of calls over the files of the example: the first rule that each fails.

use nfs_args::args::{NfsArgs, read_nfs};
use nfs_args::procedure::Procedure;
use nfs_exports::addr::Addr;
use nfs_exports::export_table::ExportTable;
use nfs_handles::number::Number;
use nfs_inodes::tree::Tree;
use nfs_load::description::load;
use nfs_load::loaded::Loaded;
use nfs_rpc::auth_sys::Cred;
use nfs_rules::caller::Caller;
use nfs_rules::exported_file::ExportedFile;
use nfs_rules::rule::Rule;
use nfs_rules::verdict::{first_failure, handle_failure};
use nfs_xdr::input::Input;
use rows::answers::text;
use rows::words::{address, bytes, number, word};
use std::alloc::Global;
use std::str::SplitWhitespace;

/// A tree and its exports.
#[derive(Drop)]
pub(crate) struct Exported {
    alloc: Global,
    loaded: Loaded,
}

impl Exported {
    /// Those of the example.
    pub(crate) fn new(alloc: Global, example: &[u8]) -> Option<Exported> {
        Some(Exported {
            alloc,
            loaded: load(alloc, example).ok()?,
        })
    }

    /// `verdict ADDRESS UID ONE TWO PROCEDURE BYTES`: the rule that a call of a user without groups
    /// fails first, or `granted`. ONE and TWO are the numbers of the files that its handles name.
    pub(crate) fn answer(&self, words: &mut SplitWhitespace<'_>) -> Option<String> {
        let addr = Addr(address(words)?);
        let cred = user(word(words)?);
        let caller = Caller { addr, cred: &cred };
        let files = (Number::new(number(words)?), Number::new(number(words)?));
        let procedure = Procedure::of(word(words)?)?;
        let record = bytes(self.alloc, words)?;
        let args = read_nfs(procedure, Input::new(record.as_slice())).ok()?;
        match verdict(&self.loaded.tree, &self.loaded.table, caller, files, &args)? {
            Some(rule) => text(self.alloc, rule.name()),
            None => text(self.alloc, "granted"),
        }
    }
}

// A user whose group has the same number.
fn user(id: u32) -> Cred {
    let mut cred = Cred::nobody();
    cred.uid = id;
    cred.gid = id;
    cred
}

// The first failing rule of the handles, then of the procedure. None where one of the files isn't
// there, or isn't the caller's to see.
fn verdict(
    tree: &Tree,
    table: &ExportTable,
    caller: Caller<'_>,
    files: (Number, Number),
    args: &NfsArgs<'_>,
) -> Option<Option<Rule>> {
    if let Some(rule) = handle_failure(tree, table, caller, args) {
        return Some(Some(rule));
    }
    let one = file_of(tree, table, caller, files.0)?.subject();
    let two = file_of(tree, table, caller, files.1)?.subject();
    Some(first_failure(&one, &two, args))
}

fn file_of<'a>(
    tree: &'a Tree,
    table: &'a ExportTable,
    caller: Caller<'a>,
    number: Number,
) -> Option<ExportedFile<'a>> {
    let file = tree.view(number)?;
    ExportedFile::of(tree, table, caller, &tree.handle(&file)).ok()
}
