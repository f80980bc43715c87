//! What a description holds.

use crate::name_form::NameForm;
use nfs_exports::export_table::ExportTable;
use nfs_inodes::tree::Tree;

/// A tree of files, and to whom its volumes are exported. The table has a list for each volume, in
/// the order of the tree's.
#[derive(Drop)]
pub struct Loaded {
    /// The tree of files.
    pub tree: Tree,
    /// What is exported to whom.
    pub table: ExportTable,
    /// How the description writes names.
    pub names: NameForm,
}
