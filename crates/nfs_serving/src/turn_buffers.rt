//! What all clients of a server share.
ghost use Rattle.std.specs.Prelude.{◌≤◌, OnOk, vec_capacity};

use nfs_server::reply_buf::{MOST_GATHERED, ReplyBuf};
use std::alloc::{AllocError, Global};

/// Room that a client has while it has its turn: for what it sends, for the replies of the turn
/// together, and for those of them that its link doesn't take.
#[derive(Drop)]
pub struct TurnBuffers {
    pub(crate) bytes: Vec<u8>,
    pub(crate) reply: ReplyBuf,
    pub(crate) pending: Vec<u8>,
}

impl TurnBuffers {
    /// Room for replies; the other is made as it is wanted. Refused where there is no memory.
    pub fn new(alloc: Global) -> Result<TurnBuffers, AllocError> {
        Ok(TurnBuffers {
            bytes: Vec::new(alloc),
            reply: ReplyBuf::gathering(alloc)?,
            pending: Vec::new(alloc),
        })
    }

    /// Makes room for all replies of a turn to be pending. Refused where there is no memory.
    pub(crate) fn make(&mut self) -> Result<(), AllocError>
        ensures { OnOk result (MOST_GATHERED ≤ vec_capacity self.new.pending) }
    {
        self.pending.clear();
        self.pending.reserve_exact(MOST_GATHERED)
    }
}
