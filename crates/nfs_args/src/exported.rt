//! Volumes, and who may use them.
ghost use Rattle.std.specs.Prelude.{◌≡◌, ◌≤◌, length};
ghost use Rattle.nfs_xdr.specs.Written.{Appends};
ghost use Rattle.nfs_args.specs.Chains.{Each, AreEncoded, IsChain, chained_text, links_text, chain_text};
ghost use Rattle.nfs_args.specs.MountAnswers.{IsExported, exported_text, ExportedFits};

use crate::chain::{write_chain_end, write_chained_string, write_chained_strings};
use crate::items::Items;
use crate::opaque::Opaque;
use nfs_xdr::output::Output;

/// A volume, and who may use it (RFC 1813, appendix I, section 5.2.5, exportnode). Its groups are
/// lent; where they are made one by one, a caller writes the path and each group by
/// `write_chained_string`, and `write_chain_end` after them.
#[derive(Drop)]
pub struct Exported<'a> {
    /// The volume's path, of fewer than 2^32 bytes.
    pub path: Opaque<'a>,
    /// The names of the groups, each of fewer than 2^32 bytes.
    pub groups: Items<'a, Opaque<'a>>,
}

/// Writes a volume of EXPORT's chain: that there is one, its path and the chain of its groups.
pub fn write_exported(out: &mut Output, exported: &Exported<'_>)
    requires fits { ExportedFits exported.now }
    requires room { length (chained_text exported_text exported.now) ≤ out.old.room }
    ensures text { Appends (chained_text exported_text exported.now) out.old out.new }
    ensures encoded { IsExported exported.now (exported_text exported.now) }
{
    write_chained_string(out, &exported.path);
    write_chained_strings(out, exported.groups.all());
    write_chain_end(out);
}

fn write_all_exported(out: &mut Output, volumes: &[Exported<'_>])
    requires fits { Each ExportedFits volumes.now }
    requires room { length (links_text exported_text volumes.now) ≤ out.old.room }
    ensures text { Appends (links_text exported_text volumes.now) out.old out.new }
    ensures encoded { AreEncoded IsExported exported_text volumes.now }
{
    for exported in volumes {
        write_exported(out, exported);
    }
}

// The result of EXPORT.
pub(crate) fn write_exports(out: &mut Output, volumes: &[Exported<'_>])
    requires fits { Each ExportedFits volumes.now }
    requires room { length (chain_text exported_text volumes.now) ≤ out.old.room }
    ensures text { Appends (chain_text exported_text volumes.now) out.old out.new }
    ensures encoded { IsChain IsExported volumes.now (chain_text exported_text volumes.now) }
{
    write_all_exported(out, volumes);
    write_chain_end(out);
}
