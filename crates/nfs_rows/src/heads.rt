//! The heads of calls.

use nfs_rpc::call::{RpcFault, read_call};
use nfs_server::rpc_rules::admit;
use rows::answers::{debug_text, digits, text, then, with};
use rows::words::bytes;
use std::alloc::Global;
use std::str::SplitWhitespace;

/// `head BYTES`: the head's fields, the credential's body, the arguments, and the rule that it
/// fails; or why it can't be read.
pub(crate) fn head(alloc: Global, words: &mut SplitWhitespace<'_>) -> Option<String> {
    let message = bytes(alloc, words)?;
    let head = match read_call(message.as_slice()) {
        Ok(head) => head,
        Err(fault) => return debug_text(alloc, fault),
    };
    let versions = (head.xid, head.rpcvers, head.prog, head.vers);
    let numbers = debug_text(alloc, (versions, head.proc, head.flavor))?;
    let body = digits(alloc, head.body)?;
    let args = digits(alloc, head.args.rest())?;
    let fields = then(then(numbers, body.as_str())?, args.as_str())?;
    with(alloc, fields, "fails", admit(&head).err())
}

/// `heads BYTES`: how many of the first bytes are a head that can be read, each such number.
pub(crate) fn heads(alloc: Global, words: &mut SplitWhitespace<'_>) -> Option<String> {
    let message = bytes(alloc, words)?;
    let mut found = text(alloc, "of")?;
    for len in 0..message.len() {
        let fault = read_call(&message[..len]).err();
        if fault != Some(RpcFault::Unreadable) {
            found = then(found, debug_text(alloc, (len, fault))?.as_str())?;
        }
    }
    Some(found)
}
