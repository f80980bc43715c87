//! The credential of AUTH_SYS (RFC 5531, section 8.2 and appendix A).
ghost use Rattle.std.specs.Prelude.{◌≡◌, ℕ, List, [], ◌≤◌, IfOk, OnOk, IsErr};
ghost use Rattle.std.specs.Int.{w32};
ghost use Rattle.nfs_xdr.specs.Encoding.{Begins, BeginsNone};
ghost use Rattle.nfs_xdr.specs.Reading.{number_at, items_at, array_at};
ghost use Rattle.nfs_rpc.specs.AuthSys.{IsAuthSys, NOBODY, cred_at, caller, credential_of, answered_credential, credential_left, GivesOrFails};

use arrayvec::ArrayVec;
use nfs_xdr::fault::XdrFault;
use nfs_xdr::input::Input;
use thiserror::Error;

/// Who calls, in the client's words.
#[derive(Drop)]
pub struct Cred {
    /// The user.
    pub uid: u32,
    /// The user's group.
    pub gid: u32,
    /// More groups that the user is in.
    pub gids: ArrayVec<u32, 16>,
}

/// A body is no credential of AUTH_SYS.
#[derive(Clone, Copy, Debug, PartialEq, Eq, Error)]
#[error("the body is no AUTH_SYS credential")]
pub struct BadCred;

/// The largest name of a machine.
const MAX_NAME_BYTES: u32 = 255;

/// The most groups beside the user's own.
const MAX_GIDS: u32 = 16;

/// The user and the group of nobody.
const NOBODY_ID: u32 = u32::MAX;

/// Reads the body of a credential of AUTH_SYS. The stamp and the machine's name have to be there,
/// and are not judged; what follows the groups is not looked at.
///
/// `BadCred` where no such body stands at the front.
pub fn read_auth_sys(body: &[u8]) -> Result<Cred, BadCred>
    ensures exact { answered_credential result ≡ caller body.now }
    ensures read { IfOk result (λ cred. (rest : List ℕ) × Begins IsAuthSys (credential_of cred) body.now rest) }
    ensures bad { IsErr result → BeginsNone IsAuthSys body.now }
{
    let mut cred = Cred::nobody();
    match cred.read(body) {
        Ok(()) => Ok(cred),
        Err(fault) => Err(fault),
    }
}

impl Cred {
    /// Whom a call has where no credential was read: nobody, so that nothing is granted by it.
    #[inline(always)]
    pub fn nobody() -> Cred
        ensures { credential_of result ≡ NOBODY }
    {
        Cred {
            uid: NOBODY_ID,
            gid: NOBODY_ID,
            gids: ArrayVec::new(),
        }
    }

    // No call is granted by what a refused body left behind.
    fn forget(&mut self)
        ensures { credential_of self.new ≡ NOBODY }
    {
        self.uid = NOBODY_ID;
        self.gid = NOBODY_ID;
        self.gids.clear();
    }

    /// Reads the body of a credential as `read_auth_sys` does, into this one, so that none is moved.
    /// After `BadCred` this one is nobody's.
    #[inline(always)]
    pub fn read(&mut self, body: &[u8]) -> Result<(), BadCred>
        ensures exact { credential_left result self.new ≡ caller body.now }
        ensures read { OnOk result ((rest : List ℕ) × Begins IsAuthSys (credential_of self.new) body.now rest) }
        ensures bad { IsErr result → BeginsNone IsAuthSys body.now }
        ensures nobody { IsErr result → credential_of self.new ≡ NOBODY }
    {
        let mut input = Input::new(body);
        match self.take(&mut input) {
            Ok(()) => Ok(()),
            Err(_) => {
                self.forget();
                Err(BadCred)
            }
        }
    }

    #[inline(always)]
    fn take(&mut self, input: &mut Input<'_>) -> Result<(), XdrFault>
        ensures { GivesOrFails (λ _. credential_of self.new) input.new result (cred_at input.old) }
    {
        let _stamp = input.u32()?;
        let _machine = input.opaque(MAX_NAME_BYTES)?;
        self.uid = input.u32()?;
        self.gid = input.u32()?;
        self.gids.clear();
        read_gids(input, &mut self.gids)
    }
}

// The groups after their number.
#[inline(always)]
fn read_gids(input: &mut Input<'_>, gids: &mut ArrayVec<u32, 16>) -> Result<(), XdrFault>
    requires { gids.old.items ≡ [] }
    ensures { GivesOrFails (λ _. gids.new.items) input.new result (array_at (number_at w32) 16 input.old) }
{
    let count = input.u32()?;
    if count > MAX_GIDS {
        return Err(XdrFault::TooLong);
    }
    take_gids(input, count, gids)
}

// So many groups.
#[inline(always)]
fn take_gids(
    input: &mut Input<'_>,
    count: u32,
    gids: &mut ArrayVec<u32, 16>,
) -> Result<(), XdrFault>
    requires few { count ≤ 16 }
    requires none { gids.old.items ≡ [] }
    ensures { GivesOrFails (λ _. gids.new.items) input.new result (items_at (number_at w32) count input.old) }
{
    for _ in 0..count {
        match input.u32() {
            Ok(gid) => gids.push(gid),
            Err(fault) => return Err(fault),
        }
    }
    Ok(())
}
