//! Clients that asked for a volume.
ghost use Rattle.std.specs.Prelude.{◌≡◌, ◌≤◌, length};
ghost use Rattle.nfs_xdr.specs.Written.{Appends};
ghost use Rattle.nfs_args.specs.Chains.{Each, AreEncoded, IsChain, chained_text, links_text, chain_text};
ghost use Rattle.nfs_args.specs.MountAnswers.{IsMounted, mounted_text, MountedFits};

use crate::chain::write_chain_end;
use crate::opaque::{Opaque, write_string};
use nfs_xdr::output::Output;

/// A client that asked for a volume (RFC 1813, appendix I, section 5.2.2, mountbody).
#[derive(Drop)]
pub struct Mounted<'a> {
    /// The client's name, of fewer than 2^32 bytes.
    pub host: Opaque<'a>,
    /// The volume's path, of fewer than 2^32 bytes.
    pub path: Opaque<'a>,
}

/// Writes a client of DUMP's chain: that there is one, its name and the path.
pub fn write_mounted(out: &mut Output, mounted: &Mounted<'_>)
    requires fits { MountedFits mounted.now }
    requires room { length (chained_text mounted_text mounted.now) ≤ out.old.room }
    ensures text { Appends (chained_text mounted_text mounted.now) out.old out.new }
    ensures encoded { IsMounted mounted.now (mounted_text mounted.now) }
{
    out.boolean(true);
    write_string(out, &mounted.host);
    write_string(out, &mounted.path);
}

fn write_all_mounted(out: &mut Output, clients: &[Mounted<'_>])
    requires fits { Each MountedFits clients.now }
    requires room { length (links_text mounted_text clients.now) ≤ out.old.room }
    ensures text { Appends (links_text mounted_text clients.now) out.old out.new }
    ensures encoded { AreEncoded IsMounted mounted_text clients.now }
{
    for mounted in clients {
        write_mounted(out, mounted);
    }
}

// The result of DUMP.
pub(crate) fn write_dump(out: &mut Output, clients: &[Mounted<'_>])
    requires fits { Each MountedFits clients.now }
    requires room { length (chain_text mounted_text clients.now) ≤ out.old.room }
    ensures text { Appends (chain_text mounted_text clients.now) out.old out.new }
    ensures encoded { IsChain IsMounted clients.now (chain_text mounted_text clients.now) }
{
    write_all_mounted(out, clients);
    write_chain_end(out);
}
