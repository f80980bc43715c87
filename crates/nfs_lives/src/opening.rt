//! How a life of a server opens.
ghost use Rattle.std.specs.Prelude.{◌≡◌, ◌≤◌, [], IfOk, None};
ghost use Rattle.nfs_inodes.specs.Law.{Law};
ghost use Rattle.nfs_server.specs.Fits.{Fits, opening_with};
ghost use Rattle.nfs_lives.specs.Opening.{opened};

use nfs_inodes::tree::Tree;
use nfs_load::loaded::Loaded;
use nfs_server::server::Server;
use std::alloc::{AllocError, Global};

/// Makes a tree that a description gave the one that a life of the server opens with: its handles
/// have this key, and each file that is made from now on has at least this number.
pub fn open(tree: &mut Tree, key: [u8; 8], next: u64)
    ensures opened { tree.new ≡ opened tree.old key next }
    ensures law { Law tree.new }
{
    tree.set_key(key);
    tree.raise_next(next);
    tree.law();
}

/// A server whose life opens with the tree of a description, so opened, and that has seen no event.
/// It has so many places for cached replies. Refused where there is no memory; the
/// description is then dropped.
pub fn open_server(
    alloc: Global,
    loaded: Loaded,
    key: [u8; 8],
    next: u64,
    cache: usize,
) -> Result<Server, AllocError>
    requires some { 1 ≤ cache }
    requires few { cache ≤ 1024 }
    ensures setup { IfOk result (λ server. server.setup ≡ record { places = cache; exports = loaded.table }) }
    ensures tree { IfOk result (λ server. server.state.tree ≡ opened loaded.tree key next) }
    ensures mounts { IfOk result (λ server. server.state.mounts ≡ []) }
    ensures kept { IfOk result (λ server. server.kept ≡ []) }
    ensures fits { IfOk result (λ server. Fits (opening_with server.setup server.state) server) }
    ensures line { IfOk result (λ server. server.line ≡ None) }
{
    let mut loaded = loaded;
    open(&mut loaded.tree, key, next);
    Server::new(alloc, loaded, cache)
}
