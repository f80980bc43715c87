//! The results of NFS, in words.

use crate::granted::{put_granted, put_linked, put_renamed};
use nfs_args::procedure::Procedure;
use nfs_words::items::{put_post_op_attr, put_wcc};
use nfs_words::status::status_name;
use nfs_words::text::Text;
use nfs_xdr::fault::XdrFault;
use nfs_xdr::input::Input;

/// The results of a procedure of NFS (RFC 1813, section 3.3), from the line of its name on.
pub(crate) fn put_results(
    procedure: Procedure,
    input: &mut Input<'_>,
    out: &mut Text,
) -> Result<(), XdrFault> {
    if let Procedure::Null = procedure {
        out.put(b"SUCCESS\n");
        return Ok(());
    }
    let status = input.u32()?;
    match status_name(status) {
        Some(name) => out.put(name),
        None => out.put_field(b"status ", u64::from(status)),
    }
    out.put(b"\n");
    if status == 0 {
        put_granted(procedure, input, out)
    } else {
        put_denied(procedure, input, out)
    }
}

// What follows another status.
fn put_denied(procedure: Procedure, input: &mut Input<'_>, out: &mut Text) -> Result<(), XdrFault> {
    match procedure {
        Procedure::Null | Procedure::Getattr => Ok(()),
        Procedure::Setattr | Procedure::Write | Procedure::Commit => put_wcc(input, out, b"file"),
        Procedure::Create
        | Procedure::Mkdir
        | Procedure::Symlink
        | Procedure::Mknod
        | Procedure::Remove
        | Procedure::Rmdir => put_wcc(input, out, b"directory"),
        Procedure::Rename => put_renamed(input, out),
        Procedure::Link => put_linked(input, out),
        Procedure::Lookup | Procedure::Readdir | Procedure::Readdirplus => {
            put_post_op_attr(input, out, b"directory: ")
        }
        _ => put_post_op_attr(input, out, b"attributes: "),
    }
}
