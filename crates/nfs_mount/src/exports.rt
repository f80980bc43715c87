//! What EXPORT lists.
ghost use Rattle.std.specs.Prelude.{◌≡◌, ◌+◌, ◌*◌, ◌<◌, ◌≤◌, length, map};
ghost use Rattle.nfs_args.specs.Chains.{AreEncoded, chained_text, links_text};
ghost use Rattle.nfs_args.specs.MountAnswers.{IsExported, IsMountAnswerOf, exported_text, mount_text};
ghost use Rattle.nfs_args.specs.Encoding.{IsString};
ghost use Rattle.nfs_args.specs.declared.procedure.MountProcedure.TheVariants as procedure;
ghost use Rattle.nfs_exports.specs.Tables.{exports_of};
ghost use Rattle.nfs_mount.specs.MountAnswers.{export_answer, exported_at, group};
ghost use Rattle.nfs_xdr.specs.Encoding.{opaque_text};
ghost use Rattle.nfs_xdr.specs.Written.{Appends};

use crate::limits::MAX_EXPORT_BYTES;
use crate::volumes::path_at;
use nfs_args::chain::{write_chain_end, write_chained_string};
use nfs_args::opaque::Opaque;
use nfs_exports::export_table::{Export, ExportTable};
use nfs_exports::pattern::put_pattern;
use nfs_inodes::tree::Tree;
use nfs_text::line::Line;
use nfs_xdr::output::Output;

/// Writes the result of EXPORT (RFC 1813, appendix I, section 5.2.5): the volumes in their order,
/// each with its patterns in theirs.
pub fn write_export(tree: &Tree, table: &ExportTable, out: &mut Output)
    requires { MAX_EXPORT_BYTES ≤ out.old.room }
    ensures text { Appends (mount_text (export_answer tree.now table.now)) out.old out.new }
    ensures encoded { IsMountAnswerOf procedure.Export (export_answer tree.now table.now) (mount_text (export_answer tree.now table.now)) }
    ensures bound { length (mount_text (export_answer tree.now table.now)) ≤ MAX_EXPORT_BYTES }
{
    tree.law();
    table.law();
    for index in 0..tree.volumes() {
        write_volume(out, tree, table, index);
    }
    write_chain_end(out);
}

// Writes a volume of EXPORT's chain.
fn write_volume(out: &mut Output, tree: &Tree, table: &ExportTable, index: usize)
    requires { 268 + 28 * length (exports_of table.now index) ≤ out.old.room }
    ensures text { Appends (chained_text exported_text (exported_at tree.now table.now index)) out.old out.new }
    ensures encoded { IsExported (exported_at tree.now table.now index) (exported_text (exported_at tree.now table.now index)) }
    ensures room { out.old.room ≤ out.new.room + (268 + 28 * length (exports_of table.now index)) }
{
    write_chained_string(out, &Opaque::new(path_at(tree, index)));
    write_patterns(out, table.patterns(index));
    write_chain_end(out);
}

// Writes the chain of a volume's patterns, without its end.
fn write_patterns(out: &mut Output, exports: &[Export])
    requires { 28 * length exports.now ≤ out.old.room }
    ensures text { Appends (links_text opaque_text (map group exports.now)) out.old out.new }
    ensures encoded { AreEncoded IsString opaque_text (map group exports.now) }
    ensures room { out.old.room ≤ out.new.room + 28 * length exports.now }
{
    for export in exports {
        write_group(out, export);
    }
}

fn write_group(out: &mut Output, export: &Export)
    requires { 28 ≤ out.old.room }
    ensures text { Appends (chained_text opaque_text (group export.now)) out.old out.new }
    ensures encoded { IsString (group export.now) (opaque_text (group export.now)) }
    ensures room { out.old.room ≤ out.new.room + 28 }
{
    let mut text = Line::new();
    put_pattern(&mut text, export.pattern);
    write_chained_string(out, &Opaque::new(text.as_slice()));
}
