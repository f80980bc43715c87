//! The calls by which a portmapper's mappings are changed.
ghost use Rattle.std.specs.Prelude.{◌≡◌, ◌≤◌};
ghost use Rattle.nfs_xdr.specs.Written.{Appends};
ghost use Rattle.nfs_portmap.specs.Calls.{call_text};
ghost use Rattle.nfs_portmap.specs.Calls as spec;

use nfs_rpc::call::RPC_VERSION;
use nfs_xdr::output::Output;

/// How a mapping is changed.
#[derive(Clone, Copy, Debug, PartialEq, Eq)]
pub enum Change {
    /// It is added: PMAPPROC_SET.
    Set,
    /// It is removed: PMAPPROC_UNSET.
    Unset,
}

/// A program that is served over TCP.
#[derive(Clone, Copy, Debug, PartialEq, Eq)]
pub struct Mapping {
    /// Its number.
    pub program: u32,
    /// Its version.
    pub version: u32,
    /// The port.
    pub port: u16,
}

/// How many bytes a call has.
pub const CALL_BYTES: usize = 56;

// A call, no credential, and the protocol TCP.
const CALL: u32 = 0;

const AUTH_NONE: u32 = 0;

const TCP: u32 = 6;

// The portmapper's program and version.
const PORTMAPPER: u32 = 100_000;

const PORTMAPPER_VERSION: u32 = 2;

/// Writes a call of this number that has a mapping changed.
pub fn write_call(out: &mut Output, xid: u32, change: Change, mapping: Mapping)
    requires { 56 ≤ out.old.room }
    ensures { Appends (call_text xid change mapping) out.old out.new }
{
    out.numbers([
        xid,
        CALL,
        RPC_VERSION,
        PORTMAPPER,
        PORTMAPPER_VERSION,
        procedure(change),
        AUTH_NONE,
        0,
        AUTH_NONE,
        0,
        mapping.program,
        mapping.version,
        TCP,
        u32::from(mapping.port),
    ]);
}

// The number of the procedure.
fn procedure(change: Change) -> u32
    ensures { result ≡ spec.procedure change }
{
    match change {
        Change::Set => 1,
        Change::Unset => 2,
    }
}
