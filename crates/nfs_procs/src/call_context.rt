//! What a call is about beside the tree and its arguments.
use nfs_attrs::moment::Moment;
use nfs_exports::export_table::ExportTable;
use nfs_rules::caller::Caller;

/// Who calls and when, and the exports that it is judged by: what every procedure goes by beside the
/// tree and its arguments.
#[derive(Clone, Copy)]
pub struct CallContext<'a> {
    /// The volumes, and to whom they are exported.
    pub table: &'a ExportTable,
    /// Who calls.
    pub caller: Caller<'a>,
    /// When.
    pub moment: Moment,
}
