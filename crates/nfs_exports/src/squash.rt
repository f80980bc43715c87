//! The ids by which a caller is judged (exports(5), "User ID Mapping").
ghost use Rattle.std.specs.Prelude.{◌≡◌, ◌||◌, nat_eq, map};
ghost use Rattle.std.specs.List.{list_any};
ghost use Rattle.nfs_rpc.specs.AuthSys.{credential_of};
ghost use Rattle.nfs_exports.specs.Ids as spec;

use crate::options::{Options, Squash};
use nfs_rpc::auth_sys::Cred;
use std::marker::Model;

/// A user, its group, and more groups that it is in, which are lent from the credential. Contracts
/// see the ids.
#[derive(Drop)]
pub struct Ids<'a> {
    uid: u32,
    gid: u32,
    // The groups in the client's words, and what stands in place of a 0 among them.
    gids: &'a [u32],
    root: u32,
}

impl<'a> Model for Ids<'a> {
    ghost use Rattle.std.specs.Prelude.{map};
    ghost use Rattle.nfs_exports.specs.Ids as shown;

    ghost Value = { shown.Ids };

    ghost view = { λ a. record { uid = a.uid; gid = a.gid; gids = map (shown.unless_root a.root) a.gids.now } };
}

impl<'a> Ids<'a> {
    /// The user.
    #[inline(always)]
    pub fn uid(&self) -> u32
        ensures { result ≡ self.now.uid }
    {
        self.uid
    }

    /// The user's group.
    #[inline(always)]
    pub fn gid(&self) -> u32
        ensures { result ≡ self.now.gid }
    {
        self.gid
    }

    /// Whether the user is in a group.
    #[inline(always)]
    pub fn is_in(&self, gid: u32) -> bool
        ensures { result ≡ (nat_eq gid self.now.gid || list_any (nat_eq gid) self.now.gids) }
    {
        gid == self.gid || is_among(self.gids, self.root, gid)
    }

    /// The same ids once more.
    #[inline(always)]
    pub fn copied(&self) -> Ids<'a>
        ensures { result ≡ self.now }
    {
        Ids {
            uid: self.uid,
            gid: self.gid,
            gids: self.gids,
            root: self.root,
        }
    }
}

/// The ids that the options leave to a caller: the anonymous ones in place of those that are
/// mapped.
#[inline(always)]
pub fn squash<'a>(options: &Options, cred: &'a Cred) -> Ids<'a>
    ensures { result ≡ spec.squash options.now (credential_of cred.entry.now) }
{
    match options.squash {
        Squash::No => Ids {
            uid: cred.uid,
            gid: cred.gid,
            gids: cred.gids.as_slice(),
            root: 0,
        },
        Squash::Root => Ids {
            uid: unless_root(cred.uid, options.anonuid),
            gid: unless_root(cred.gid, options.anongid),
            gids: cred.gids.as_slice(),
            root: options.anongid,
        },
        Squash::All => Ids {
            uid: options.anonuid,
            gid: options.anongid,
            gids: &[],
            root: 0,
        },
    }
}

// The anonymous id in place of 0.
#[inline(always)]
fn unless_root(id: u32, anonymous: u32) -> u32
    ensures { result ≡ spec.unless_root anonymous id }
{
    if id == 0 { anonymous } else { id }
}

// Whether a group is among these, once one stands in place of 0.
fn is_among(gids: &[u32], root: u32, gid: u32) -> bool
    ensures { result ≡ list_any (nat_eq gid) (map (spec.unless_root root) gids.now) }
{
    for one in gids {
        if gid == unless_root(*one, root) {
            return true;
        }
    }
    false
}
