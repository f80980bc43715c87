//! The rules of MNT.
ghost use Rattle.std.specs.Prelude.{◌≡◌, ◌<◌, length, Some, IfOk};
ghost use Rattle.nfs_inodes.specs.Reading.{volume_named};
ghost use Rattle.nfs_mount.specs.MountRules.{mount_rules, mount_verdict};
ghost use Rattle.nfs_rules.specs.Judging.{Judges};

use nfs_exports::addr::Addr;
use nfs_exports::export_table::ExportTable;
use nfs_inodes::tree::Tree;
use nfs_rules::name_rules::mount_path_must_be_short;
use nfs_rules::rule::Rule;

/// The first rule that MNT of this path by a client at this address fails: `PathLong`, `MountPath` or
/// `Export`. `None` where it is granted.
pub fn mount_failure(tree: &Tree, table: &ExportTable, addr: Addr, path: &[u8]) -> Option<Rule>
    ensures { result ≡ mount_verdict tree.now table.now addr path.now }
{
    match volume_for(tree, table, addr, path) {
        Ok(_) => None,
        Err(rule) => Some(rule),
    }
}

/// The index of the volume of a path, where a client at this address may mount it, or the first rule
/// that fails: `PathLong`, `MountPath` or `Export`.
pub(crate) fn volume_for(
    tree: &Tree,
    table: &ExportTable,
    addr: Addr,
    path: &[u8],
) -> Result<usize, Rule>
    ensures rules { Judges result (mount_rules tree.now table.now addr path.now) }
    ensures volume { IfOk result (λ index. volume_named tree.now path.now ≡ Some index) }
    ensures within { IfOk result (λ index. index < length tree.now.volumes) }
{
    if let Err(rule) = mount_path_must_be_short(path) {
        return Err(rule);
    }
    let Some(index) = tree.volume_named(path) else {
        return Err(Rule::MountPath);
    };
    match table.grant(index, addr) {
        Some(_) => Ok(index),
        None => Err(Rule::Export),
    }
}
