//! A reply, in words.
ghost use Rattle.std.specs.Prelude.{◌≡◌, ◌++◌, codes};
ghost use Rattle.nfs_words.specs.Texts.{Puts};
ghost use Rattle.nfs_decode.specs.Called.{called_name};
ghost use Rattle.nfs_decode.specs.Called as spec;

use crate::mounting::put_mount_results;
use crate::results::put_results;
use nfs_args::procedure::{MountProcedure, Procedure};
use nfs_args::program::{MOUNT_PROGRAM, NFS_PROGRAM, PROGRAM_VERSION};
use nfs_rpc::call::read_call;
use nfs_words::text::Text;
use nfs_xdr::fault::XdrFault;
use nfs_xdr::input::Input;

// The largest verifier (RFC 5531, section 8.2).
const MAX_AUTH_BYTES: u32 = 400;

// Which procedure was called, as far as it is known.
#[derive(Clone, Copy)]
enum Called {
    Nfs(Procedure),
    Mount(MountProcedure),
    Other,
}

/// Puts what a reply says, each without its record mark, to the call that it answers: a line of the
/// procedure's name and the status, and a line for each item after it. Where the reply ends early, or a
/// number in it is none, a line says so.
pub fn put_reply(call: &[u8], reply: &[u8], out: &mut Text) {
    let called = called_by(call);
    put_name(called, out);
    let mut input = Input::new(reply);
    match put_message(called, &mut input, out) {
        Ok(()) => put_rest(input.rest(), out),
        Err(fault) => put_fault(fault, out),
    }
}

// The procedure that a call's record names.
fn called_by(message: &[u8]) -> Called
    ensures { result ≡ spec.called_by message.now }
{
    match read_call(message) {
        Ok(head) if head.vers == PROGRAM_VERSION => procedure_of(head.prog, head.proc),
        _ => Called::Other,
    }
}

fn procedure_of(program: u32, procedure: u32) -> Called
    ensures { result ≡ spec.procedure_of program procedure }
{
    match program {
        NFS_PROGRAM => match Procedure::of(procedure) {
            Some(procedure) => Called::Nfs(procedure),
            None => Called::Other,
        },
        MOUNT_PROGRAM => match MountProcedure::of(procedure) {
            Some(procedure) => Called::Mount(procedure),
            None => Called::Other,
        },
        _ => Called::Other,
    }
}

// Begins the first line.
fn put_name(called: Called, out: &mut Text)
    ensures { Puts (codes "  " ++ called_name called ++ codes ": ") out.old out.new }
{
    out.put(b"  ");
    out.put(name_of(called));
    out.put(b": ");
}

fn name_of(called: Called) -> &'static [u8]
    ensures { result.now ≡ called_name called }
{
    match called {
        Called::Nfs(procedure) => procedure.name(),
        Called::Mount(procedure) => procedure.name(),
        Called::Other => b"call",
    }
}

// A reply (RFC 5531, section 9).
fn put_message(called: Called, input: &mut Input<'_>, out: &mut Text) -> Result<(), XdrFault> {
    let _xid = input.u32()?;
    if input.u32()? != 1 {
        return Err(XdrFault::BadEnum);
    }
    match input.u32()? {
        0 => {
            let _flavor = input.u32()?;
            let _verifier = input.opaque(MAX_AUTH_BYTES)?;
            put_accepted(called, input, out)
        }
        1 => put_rejected(input, out),
        _ => Err(XdrFault::BadEnum),
    }
}

// How an accepted call went.
fn put_accepted(called: Called, input: &mut Input<'_>, out: &mut Text) -> Result<(), XdrFault> {
    match input.u32()? {
        0 => put_success(called, input, out),
        1 => put_word(out, b"PROG_UNAVAIL"),
        2 => put_mismatch(input, out, b"PROG_MISMATCH"),
        3 => put_word(out, b"PROC_UNAVAIL"),
        4 => put_word(out, b"GARBAGE_ARGS"),
        5 => put_word(out, b"SYSTEM_ERR"),
        _ => Err(XdrFault::BadEnum),
    }
}

fn put_success(called: Called, input: &mut Input<'_>, out: &mut Text) -> Result<(), XdrFault> {
    match called {
        Called::Nfs(procedure) => put_results(procedure, input, out),
        Called::Mount(procedure) => put_mount_results(procedure, input, out),
        Called::Other => put_word(out, b"SUCCESS"),
    }
}

// Why a call was not accepted.
fn put_rejected(input: &mut Input<'_>, out: &mut Text) -> Result<(), XdrFault> {
    if input.u32()? == 0 {
        return put_mismatch(input, out, b"RPC_MISMATCH");
    }
    match input.u32()? {
        1 => put_word(out, b"AUTH_BADCRED"),
        2 => put_word(out, b"AUTH_REJECTEDCRED"),
        3 => put_word(out, b"AUTH_BADVERF"),
        4 => put_word(out, b"AUTH_REJECTEDVERF"),
        5 => put_word(out, b"AUTH_TOOWEAK"),
        _ => Err(XdrFault::BadEnum),
    }
}

// The versions that there are.
fn put_mismatch(input: &mut Input<'_>, out: &mut Text, word: &[u8]) -> Result<(), XdrFault> {
    let low = input.u32()?;
    let high = input.u32()?;
    out.put(word);
    out.put_field(b" low=", u64::from(low));
    out.put_field(b" high=", u64::from(high));
    out.put(b"\n");
    Ok(())
}

fn put_word(out: &mut Text, word: &[u8]) -> Result<(), XdrFault> {
    out.put(word);
    out.put(b"\n");
    Ok(())
}

// What follows the reply's last item.
fn put_rest(rest: &[u8], out: &mut Text) {
    if !rest.is_empty() {
        out.put_field(b"    bytes after its end: ", rest.len() as u64);
        out.put(b"\n");
    }
}

// That the reply can't be read further.
fn put_fault(fault: XdrFault, out: &mut Text) {
    out.put(match fault {
        XdrFault::Short => b"\n    the reply ends early\n".as_slice(),
        XdrFault::TooLong => b"\n    a length is above its bound\n",
        XdrFault::BadBool => b"\n    a boolean is neither 0 nor 1\n",
        XdrFault::BadEnum => b"\n    a number is none of its enumeration\n",
    });
}
