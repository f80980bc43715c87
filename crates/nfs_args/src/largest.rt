//! How long results are.
ghost use Rattle.std.specs.Prelude.{◌≡◌, ◌≤◌, length};
ghost use Rattle.nfs_args.specs.declared.answer.NfsAnswer.{NfsAnswer};
ghost use Rattle.nfs_args.specs.Answers.{answered, nfs_text, NfsFits};
ghost use Rattle.nfs_args.specs.Sizes.{largest_of, IsWithin};

use crate::limits::{MAX_DATA_BYTES, MAX_HANDLE_BYTES};
use crate::procedure::Procedure;

pub(crate) const STATUS: usize = 4;

pub(crate) const WORD: usize = 4;

pub(crate) const HYPER: usize = 8;

pub(crate) const MOMENT: usize = 8;

pub(crate) const ATTRIBUTES: usize = 84;

const PRE_ATTRIBUTES: usize = 24;

pub(crate) const POST_OP_ATTRIBUTES: usize = WORD + ATTRIBUTES;

// The status and the attributes, with which most results begin.
pub(crate) const HEAD: usize = STATUS + POST_OP_ATTRIBUTES;

pub(crate) const CHANGE: usize = WORD + PRE_ATTRIBUTES + POST_OP_ATTRIBUTES;

pub(crate) const HANDLE: usize = WORD + MAX_HANDLE_BYTES;

pub(crate) const MADE: usize = WORD + HANDLE + POST_OP_ATTRIBUTES + CHANGE;

/// How many bytes the longest result of all has, that of a READ of as many bytes as one answers.
pub const MAX_RESULT_BYTES: usize = HEAD + 3 * WORD + MAX_DATA_BYTES;

/// How many bytes the longest result of a procedure has, computed from the sizes of its parts: of
/// those whose data, path or page, if there is one, is within `limits`. None at all for NULL.
pub fn largest(proc: Procedure) -> usize
    ensures exact { result ≡ largest_of proc }
    ensures bound { (answer : NfsAnswer) → answered answer ≡ proc → NfsFits answer → IsWithin answer → length (nfs_text answer) ≤ result }
{
    proc.row().largest
}
