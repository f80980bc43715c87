//! Who calls.
use nfs_exports::addr::Addr;
use nfs_rpc::auth_sys::Cred;

/// From where a call comes, and who calls in the client's words.
#[derive(Clone, Copy)]
pub struct Caller<'a> {
    /// The address.
    pub addr: Addr,
    /// The credential (RFC 5531, appendix A).
    pub cred: &'a Cred,
}
