//! What MNT answers, and the pairs of DUMP.
ghost use Rattle.std.specs.Prelude.{◌≡◌, ◌+◌, ◌≤◌};
ghost use Rattle.nfs_args.specs.Chains.{chained_text};
ghost use Rattle.nfs_args.specs.MountAnswers.{IsMounted, mount_text, mounted_text};
ghost use Rattle.nfs_mount.specs.MountAnswers.{IsMountEncoded, client, denied_answer, granted_answer};
ghost use Rattle.nfs_xdr.specs.Written.{Appends};

use crate::mount::Mount;
use crate::volumes::path_at;
use nfs_args::failed::Failed;
use nfs_args::mount_answer::{MountAnswer, write_mount};
use nfs_args::mounted::{Mounted, write_mounted};
use nfs_args::opaque::Opaque;
use nfs_exports::addr::put_addr;
use nfs_inodes::tree::Tree;
use nfs_rules::rule::Rule;
use nfs_text::line::Line;
use nfs_xdr::output::Output;

/// Writes the result of an MNT that fails this rule.
pub(crate) fn write_denied(out: &mut Output, rule: Rule)
    requires { 40 ≤ out.old.room }
    ensures text { Appends (mount_text (denied_answer rule)) out.old out.new }
    ensures encoded { IsMountEncoded (denied_answer rule) }
{
    let failed = Failed {
        status: rule.status(),
        shown: (),
    };
    write_mount(out, &MountAnswer::Mount(Err(failed)));
}

/// Writes the result of an MNT of the volume whose root has this handle.
pub(crate) fn write_granted(out: &mut Output, handle: &[u8; 24])
    requires { 40 ≤ out.old.room }
    ensures text { Appends (mount_text (granted_answer handle.now)) out.old out.new }
    ensures encoded { IsMountEncoded (granted_answer handle.now) }
{
    write_mount(out, &MountAnswer::Mount(Ok(Opaque::new(handle))));
}

/// Writes a pair of DUMP's chain.
pub(crate) fn write_client(out: &mut Output, tree: &Tree, mount: &Mount)
    requires { 284 ≤ out.old.room }
    ensures text { Appends (chained_text mounted_text (client tree.now mount.now)) out.old out.new }
    ensures encoded { IsMounted (client tree.now mount.now) (mounted_text (client tree.now mount.now)) }
    ensures room { out.old.room ≤ out.new.room + 284 }
{
    let mut host = Line::new();
    put_addr(&mut host, mount.addr);
    let client = Mounted {
        host: Opaque::new(host.as_slice()),
        path: Opaque::new(path_at(tree, mount.volume)),
    };
    write_mounted(out, &client);
}
