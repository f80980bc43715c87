//! The judgement of a call: which rules are looked at, and which of them fails first.
ghost use Rattle.std.specs.Prelude.{◌≡◌, IfNone, IfSome};
ghost use Rattle.nfs_rules.specs.Views.{caller_of};
ghost use Rattle.nfs_why.specs.Judgements.{IsJudged, IsUnjudged, failure_of};

use nfs_args::args::NfsArgs;
use nfs_exports::export_table::ExportTable;
use nfs_handles::number::Number;
use nfs_inodes::tree::Tree;
use nfs_rules::caller::Caller;
use nfs_rules::exported_file::ExportedFile;
use nfs_rules::order::rules_of;
use nfs_rules::rule::Rule;
use nfs_rules::verdict::{first_failure, handle_failure};

/// The judgement of a call.
#[derive(Clone, Copy)]
pub enum Judgement {
    /// Its handles fail this rule, the first.
    Unreached(Rule),
    /// These are the rules of its procedure, in their order, and the first that fails, if one does.
    Judged(&'static [Rule], Option<Rule>),
}

impl Judgement {
    /// The first rule that fails. `None` where the call is granted.
    pub fn failure(self) -> Option<Rule>
        ensures { result ≡ failure_of self }
    {
        match self {
            Judgement::Unreached(rule) => Some(rule),
            Judgement::Judged(_, failure) => failure,
        }
    }
}

/// The judgement of a call with these handles; of a call with one handle both are the same. `None` where
/// one of them names no file that the caller may see, though the call's own handles do.
pub fn judge(
    tree: &Tree,
    table: &ExportTable,
    caller: Caller<'_>,
    handles: (&[u8], &[u8]),
    args: &NfsArgs<'_>,
) -> Option<Judgement>
    ensures judged { IfSome result (IsJudged tree.now table.now (caller_of caller.entry) handles.entry.0.now handles.entry.1.now args.now) }
    ensures none { IfNone result (IsUnjudged tree.now table.now (caller_of caller.entry) handles.entry.0.now handles.entry.1.now args.now) }
{
    if let Some(rule) = handle_failure(tree, table, caller, args) {
        return Some(Judgement::Unreached(rule));
    }
    let Ok(one) = ExportedFile::of(tree, table, caller, handles.0) else {
        return None;
    };
    let Ok(two) = ExportedFile::of(tree, table, caller, handles.1) else {
        return None;
    };
    let (one, two) = (one.subject(), two.subject());
    Some(Judgement::Judged(rules_of(&one, &two, args), first_failure(&one, &two, args)))
}

/// A file that lives, where its volume is exported to the caller.
pub(crate) fn exported_file<'a>(
    tree: &'a Tree,
    table: &'a ExportTable,
    caller: Caller<'a>,
    number: Number,
) -> Result<ExportedFile<'a>, Rule> {
    let Some(handle) = tree.handle_of(number.0) else {
        return Err(Rule::StaleHandle);
    };
    ExportedFile::of(tree, table, caller, &handle)
}
