//! Which clients mount which volumes, as a service answers.

use nfs_exports::addr::put_addr;
use nfs_inodes::tree::Tree;
use nfs_mount::mount::Mount;
use nfs_server::server::Server;
use nfs_text::line::Line;
use nfs_words::text::Text;
use std::alloc::{AllocError, Global};

/// The answer to `mounts`: the line `mounts N`, and for each `mount ADDRESS PATH`, in the order in which clients asked
/// for them, as DUMP has them (RFC 1813, section 5.2.2).
pub(crate) fn mounts_text(alloc: Global, server: &Server) -> Result<Vec<u8>, AllocError> {
    let mut out = Text::new(alloc);
    out.put_field(b"mounts ", server.mounts().len() as u64);
    out.put(b"\n");
    for mount in server.mounts() {
        put_mount(&mut out, server.tree(), *mount);
    }
    out.into_bytes()
}

fn put_mount(out: &mut Text, tree: &Tree, mount: Mount) {
    let mut addr = Line::new();
    put_addr(&mut addr, mount.addr);
    out.put(b"mount ");
    out.put(addr.as_slice());
    if let Some(volume) = tree.volume(mount.volume) {
        out.put(b" ");
        out.put(volume.path);
    }
    out.put(b"\n");
}
