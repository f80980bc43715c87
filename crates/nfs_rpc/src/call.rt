//! The head of a call (RFC 5531, sections 8.2 and 9).
ghost use Rattle.std.specs.Prelude.{◌≡◌, ◌↔◌, IfOk, IsErrOf};
ghost use Rattle.nfs_xdr.specs.Encoding.{Begins, BeginsNone};
ghost use Rattle.nfs_rpc.specs.Calls.{IsCallHead, IsOtherMessage, call_of, head_at, GivesHead};

use nfs_xdr::fault::XdrFault;
use nfs_xdr::input::Input;
use thiserror::Error;

/// Why a record is not the call of a procedure.
#[derive(Clone, Copy, Debug, PartialEq, Eq, Error)]
pub enum RpcFault {
    /// The record's second word says that it is no call.
    #[error("the message is no call")]
    NotCall,
    /// The record ends inside the head, or a body in it is too long.
    #[error("the head of the call can't be read")]
    Unreadable,
}

impl From<XdrFault> for RpcFault {
    ghost use Rattle.nfs_rpc.specs.declared.call.RpcFault.TheVariants.{Unreadable};

    ghost from_gives = { λ _ e. e ≡ Unreadable };

    fn from(_fault: XdrFault) -> RpcFault {
        RpcFault::Unreadable
    }
}

/// The version of RPC.
pub const RPC_VERSION: u32 = 2;

/// The head of a call, lent from its record.
#[derive(Drop)]
pub struct CallHead<'a> {
    /// The number by which the client knows the reply.
    pub xid: u32,
    /// The version of RPC.
    pub rpcvers: u32,
    /// The program.
    pub prog: u32,
    /// The program's version.
    pub vers: u32,
    /// The program's procedure.
    pub proc: u32,
    /// The credential's flavor.
    pub flavor: u32,
    /// The credential's body.
    pub body: &'a [u8],
    /// The procedure's arguments.
    pub args: Input<'a>,
}

impl<'a> CallHead<'a> {
    /// The same head, lent once more.
    #[inline(always)]
    pub fn copied(&self) -> CallHead<'a>
        ensures call { call_of result ≡ call_of self.now }
        ensures args { result.args ≡ self.now.args }
    {
        CallHead {
            xid: self.xid,
            rpcvers: self.rpcvers,
            prog: self.prog,
            vers: self.vers,
            proc: self.proc,
            flavor: self.flavor,
            body: self.body,
            args: Input::new(self.args.rest()),
        }
    }
}

/// The largest body of a credential or a verifier (RFC 5531, section 8.2).
const MAX_AUTH_BYTES: u32 = 400;

/// Reads the head of a call from the front of a record.
///
/// `NotCall` where the second word is there and is not that of a call, whatever follows; else
/// `Unreadable` where no head of a call stands at the front. The verifier has to be there, and is
/// not examined.
#[inline(always)]
pub fn read_call(message: &[u8]) -> Result<CallHead<'_>, RpcFault>
    ensures exact { GivesHead result (head_at message.now) }
    ensures read { IfOk result (λ head. Begins IsCallHead (call_of head) message.now head.args) }
    ensures not_call { IsErrOf result RpcFault.NotCall ↔ IsOtherMessage message.now }
    ensures unreadable { IsErrOf result RpcFault.Unreadable → BeginsNone IsCallHead message.now }
{
    head_of(message)
}

#[inline(always)]
fn head_of(message: &[u8]) -> Result<CallHead<'_>, RpcFault>
    ensures { GivesHead result (head_at message.now) }
{
    let mut input = Input::new(message);
    let xid = input.u32()?;
    if input.u32()? != 0 {
        return Err(RpcFault::NotCall);
    }
    let rpcvers = input.u32()?;
    let prog = input.u32()?;
    let vers = input.u32()?;
    let proc = input.u32()?;
    let flavor = input.u32()?;
    let body = input.opaque(MAX_AUTH_BYTES)?;
    let _verifier_flavor = input.u32()?;
    let _verifier = input.opaque(MAX_AUTH_BYTES)?;
    Ok(CallHead {
        xid,
        rpcvers,
        prog,
        vers,
        proc,
        flavor,
        body,
        args: input,
    })
}
