//! Credentials of AUTH_SYS.

use nfs_rpc::auth_sys::{Cred, read_auth_sys};
use rows::answers::{debug_text, with};
use rows::words::bytes;
use std::alloc::Global;
use std::str::SplitWhitespace;

/// `cred of BYTES`, `cred again BYTES / BYTES`, `cred cuts BYTES` and `cred nobody`.
pub(crate) fn answer(alloc: Global, words: &mut SplitWhitespace<'_>) -> Option<String> {
    match words.next()? {
        "of" => of(alloc, words),
        "again" => again(alloc, words),
        "cuts" => cuts(alloc, words),
        "nobody" => said(alloc, &Cred::nobody()),
        _ => None,
    }
}

// User, group and groups.
fn said(alloc: Global, cred: &Cred) -> Option<String> {
    let ids = debug_text(alloc, (cred.uid, cred.gid))?;
    with(alloc, ids, "and", cred.gids.as_slice())
}

// What a body says.
fn of(alloc: Global, words: &mut SplitWhitespace<'_>) -> Option<String> {
    let body = bytes(alloc, words)?;
    match read_auth_sys(body.as_slice()) {
        Ok(cred) => said(alloc, &cred),
        Err(fault) => debug_text(alloc, fault),
    }
}

// What the second body says, read into a credential that says the first.
fn again(alloc: Global, words: &mut SplitWhitespace<'_>) -> Option<String> {
    let first = bytes(alloc, words)?;
    let second = bytes(alloc, words)?;
    let mut cred = Cred::nobody();
    cred.read(first.as_slice()).ok()?;
    match cred.read(second.as_slice()) {
        Ok(()) => said(alloc, &cred),
        Err(fault) => debug_text(alloc, fault),
    }
}

// Of how many numbers of bytes the first ones are no credential.
fn cuts(alloc: Global, words: &mut SplitWhitespace<'_>) -> Option<String> {
    let body = bytes(alloc, words)?;
    let mut refused = 0u32;
    for len in 0..body.len() {
        if read_auth_sys(&body[..len]).is_err() {
            refused = refused.saturating_add(1);
        }
    }
    debug_text(alloc, refused)
}
