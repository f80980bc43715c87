//! What a portmapper answers.
ghost use Rattle.std.specs.Prelude.{◌≡◌};
ghost use Rattle.nfs_portmap.specs.Replies.{answer_at, accepted_at};

use nfs_xdr::fault::XdrFault;
use nfs_xdr::input::Input;

/// Why a datagram has no answer.
#[derive(Clone, Copy, Debug, PartialEq, Eq)]
pub enum ReplyFault {
    /// It is of another call.
    OtherCall,
    /// The call was not carried out.
    Rejected,
    /// It ends too early, or says neither yes nor no.
    Unreadable,
}

impl From<XdrFault> for ReplyFault {
    ghost use Rattle.std.specs.Prelude.{◌≡◌};
    ghost use Rattle.nfs_portmap.specs.declared.reply.ReplyFault.TheVariants.{Unreadable};

    ghost from_gives = { λ _ e. e ≡ Unreadable };

    fn from(_fault: XdrFault) -> ReplyFault {
        ReplyFault::Unreadable
    }
}

// The largest body of a verifier (RFC 5531, section 8.2).
const MAX_AUTH_BYTES: u32 = 400;

const REPLY: u32 = 1;

/// Whether the mapping was changed, by the reply to the call of this number. `OtherCall` where the datagram has
/// another number, `Rejected` where the call was not accepted or had no success, else `Unreadable` where it isn't a
/// whole reply.
pub fn read_reply(datagram: &[u8], xid: u32) -> Result<bool, ReplyFault>
    ensures { result ≡ answer_at xid datagram.now }
{
    let mut input = Input::new(datagram);
    if input.u32()? != xid {
        return Err(ReplyFault::OtherCall);
    }
    let kind = input.u32()?;
    let state = input.u32()?;
    if kind == REPLY && state == 0 {
        accepted(input)
    } else {
        Err(ReplyFault::Rejected)
    }
}

// What follows the head of an accepted call: a verifier, how it went, and the result.
fn accepted(input: Input<'_>) -> Result<bool, ReplyFault>
    ensures { result ≡ accepted_at input.entry }
{
    let mut input = input;
    let _flavor = input.u32()?;
    let _verifier = input.opaque(MAX_AUTH_BYTES)?;
    if input.u32()? == 0 {
        Ok(input.boolean()?)
    } else {
        Err(ReplyFault::Rejected)
    }
}
