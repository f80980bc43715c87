//! A question: may this caller do that?

use crate::operation::Shape;
use nfs_ask::operation::Operation;
use nfs_ask::user::{id, user_of};
use nfs_exports::addr::{Addr, parse_addr};
use nfs_rpc::auth_sys::Cred;
use nfs_text::number::decimal;
use thiserror::Error;

/// Who calls from where, and what with which path.
#[derive(Drop)]
pub struct Question<'a> {
    /// The address.
    pub addr: Addr,
    /// The user, in the client's words.
    pub cred: Cred,
    /// What is done.
    pub operation: Operation,
    /// The path, from a volume's path on.
    pub path: &'a [u8],
    /// What stands after it: a further path, what a link is to hold, an owner, a group or a size.
    pub second: Option<&'a [u8]>,
}

/// Which word of a question is none.
#[derive(Clone, Copy, Debug, PartialEq, Error)]
pub enum BadQuestion {
    /// The address.
    #[error("ADDRESS is not an IPv4 address")]
    Address,
    /// The user.
    #[error("UID[:GID[,GID..]] has the numbers of a user, of its group, and of at most 16 more groups")]
    User,
    /// The operation.
    #[error("OPERATION is one of stat, access, read, write, create, remove, mkdir, rmdir, rename, link, symlink, readlink, mknod, lookup, list, readdirplus, chmod, chown, chgrp, truncate, touch, utime, commit, df, fsinfo, pathconf or mount")]
    Operation,
    /// The second path.
    #[error("this OPERATION needs a second word after PATH")]
    NoSecond,
    /// An owner, a group or a size.
    #[error("the second word must be a number")]
    Number,
}

impl<'a> Question<'a> {
    /// The question that these words ask. `BadQuestion` for the first word that is none.
    pub fn read(
        address: &[u8],
        user: &[u8],
        operation: &[u8],
        path: &'a [u8],
        second: Option<&'a [u8]>,
    ) -> Result<Question<'a>, BadQuestion> {
        let Ok(addr) = parse_addr(address) else {
            return Err(BadQuestion::Address);
        };
        let Some(cred) = user_of(user) else {
            return Err(BadQuestion::User);
        };
        // UMNT is granted to everybody.
        let operation = match Operation::of(operation) {
            Some(operation) if operation != Operation::Unmount => operation,
            _ => return Err(BadQuestion::Operation),
        };
        if let Some(fault) = second_fault(operation, second) {
            return Err(fault);
        }
        Ok(Question {
            addr,
            cred,
            operation,
            path,
            second,
        })
    }
}

// What is wrong with the word after the path.
fn second_fault(operation: Operation, second: Option<&[u8]>) -> Option<BadQuestion> {
    let Some(word) = second else {
        return if needs_second(operation) {
            Some(BadQuestion::NoSecond)
        } else {
            None
        };
    };
    let is_right = match operation {
        Operation::SetOwner | Operation::SetGroup => id(word).is_some(),
        Operation::Truncate => decimal(word, u64::MAX).is_some(),
        _ => true,
    };
    if is_right {
        None
    } else {
        Some(BadQuestion::Number)
    }
}

fn needs_second(operation: Operation) -> bool {
    match Shape::of(operation) {
        Shape::TwoNames | Shape::FileAndName => true,
        _ => match operation {
            Operation::Symlink | Operation::SetOwner | Operation::SetGroup => true,
            _ => false,
        },
    }
}
