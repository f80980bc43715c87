//! Users, as words name them.
ghost use Rattle.std.specs.Prelude.{◌≡◌, option_map};
ghost use Rattle.nfs_rpc.specs.AuthSys.{credential_of};
ghost use Rattle.nfs_ask.specs.Words as spec;
ghost use Rattle.nfs_ask.specs.Words.{gids_of, number_of};

use arrayvec::ArrayVec;
use nfs_rpc::auth_sys::Cred;
use nfs_text::chunks::{Chunks, cut};
use nfs_text::number::decimal;

/// The credential that a word `UID[:GID[,GID..]]` names: a user, its group, and at most 16 more that it is
/// in. The group has the user's number where none is given. `None` where the word is another one.
pub fn user_of(word: &[u8]) -> Option<Cred>
    ensures { option_map credential_of result ≡ spec.user_of word.now }
{
    let (uid, groups) = cut(word, b':');
    let uid = id(uid)?;
    let Some(groups) = groups else {
        return Some(Cred {
            uid,
            gid: uid,
            gids: ArrayVec::new(),
        });
    };
    let (gid, others) = cut(groups, b',');
    let gid = id(gid)?;
    let gids = groups_of(others)?;
    Some(Cred { uid, gid, gids })
}

fn groups_of(others: Option<&[u8]>) -> Option<ArrayVec<u32, 16>>
    ensures { option_map (λ gids. gids.items) result ≡ gids_of (option_map (λ text. text.now) others.entry) }
{
    let mut gids = ArrayVec::new();
    let Some(text) = others else {
        return Some(gids);
    };
    let mut words = Chunks::new(text, b',');
    while let Some(word) = words.next() {
        let gid = id(word)?;
        if gids.try_push(gid).is_err() {
            return None;
        }
    }
    Some(gids)
}

/// The number of a user or a group.
pub fn id(word: &[u8]) -> Option<u32>
    ensures { result ≡ number_of word.now }
{
    match decimal(word, u64::from(u32::MAX)) {
        Some(id) => Some(id as u32),
        None => None,
    }
}
