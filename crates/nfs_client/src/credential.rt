//! The body of a credential of AUTH_SYS.
ghost use Rattle.std.specs.Prelude.{◌≡◌, ◌+◌, ◌*◌, ◌≤◌, length};
ghost use Rattle.nfs_xdr.specs.Written.{Appends};
ghost use Rattle.nfs_rpc.specs.AuthSys.{credential_of};
ghost use Rattle.nfs_client.specs.Calls.{auth_sys_text};

use nfs_rpc::auth_sys::Cred;
use nfs_xdr::output::Output;

/// How many bytes the longest body has.
pub(crate) const MAX_AUTH_SYS_BYTES: usize = 84;

/// Writes who calls (RFC 5531, appendix A), with the stamp 0 and a machine without a name.
pub(crate) fn write_auth_sys(out: &mut Output, cred: &Cred)
    requires { 84 ≤ out.old.room }
    ensures { Appends (auth_sys_text (credential_of cred.now)) out.old out.new }
{
    out.numbers([0, 0, cred.uid, cred.gid, cred.gids.len() as u32]);
    for gid in cred.gids.as_slice() {
        out.u32(*gid);
    }
}
