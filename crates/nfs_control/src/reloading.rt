//! The exports of a running service, read again.
ghost use Rattle.nfs_loop.specs.Attending.{MayReload};

use nfs_inodes::tree::Tree;
use nfs_server::server::Server;
use nfs_source::heads::load_heads;
use std::alloc::{AllocError, Global};
use std::rt::Files;

/// Reads the description of a service again, and has its exports be in force from now on; what is answered to that.
/// They are left as they are where the description is faulty or names other volumes, or the exports stand in the
/// words by which the service was started.
pub(crate) fn reload<R: Files + Input>(
    rt: &R,
    alloc: Global,
    description: Option<&str>,
    server: &mut Server,
) -> Result<String, AllocError>
    ensures { MayReload server.old server.new }
{
    let Some(name) = description else {
        return "error: the exports of directories stand in the words of nfs3d serve; start it anew to change them\n".to_string(
            alloc,
        );
    };
    if name == "-" {
        return "error: standard input can't be read again\n".to_string(alloc);
    }
    let loaded = match load_heads(rt, alloc, name) {
        Ok(loaded) => loaded,
        Err(diagnostic) => return format!(in alloc; "error: {diagnostic}\n"),
    };
    if let Some(difference) = difference_of(alloc, server.tree(), &loaded.tree)? {
        return Ok(difference);
    }
    server.set_exports(loaded.table);
    format!(in alloc; "reloaded {name}\n")
}

// The fault of a description whose volumes are not those that are served, in their order.
fn difference_of(
    alloc: Global,
    served: &Tree,
    described: &Tree,
) -> Result<Option<String>, AllocError> {
    let (now, then) = (served.volumes(), described.volumes());
    if now != then {
        return Ok(Some(format!(in alloc;
            "error: the description has {then} volumes, and {now} are served; start the service anew\n"
        )?));
    }
    for place in 0..now {
        if let (Some(old), Some(new)) = (served.volume(place), described.volume(place))
            && old.path != new.path
        {
            return Ok(Some(other_volume(alloc, old.path, new.path)?));
        }
    }
    Ok(None)
}

fn other_volume(alloc: Global, old: &[u8], new: &[u8]) -> Result<String, AllocError> {
    let (Ok(old), Ok(new)) = (str::from_utf8(old), str::from_utf8(new)) else {
        return "error: the description has other volumes\n".to_string(alloc);
    };
    format!(in alloc;
        "error: the description has the volume {new} where {old} is served; start the service anew\n"
    )
}
