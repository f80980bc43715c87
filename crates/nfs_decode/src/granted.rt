//! What a granted call is answered, in words.

use crate::directory::put_page;
use crate::limits::{put_path_limits, put_room, put_server_limits};
use nfs_args::procedure::Procedure;
use nfs_attrs::fattr::read_fattr;
use nfs_words::attributes::put_attributes;
use nfs_words::items::{
    begin, put_boolean, put_handle, put_post_op_attr, put_post_op_handle, put_u32, put_verifier,
    put_wcc,
};
use nfs_words::text::Text;
use nfs_xdr::fault::XdrFault;
use nfs_xdr::input::Input;

/// What follows the status NFS3_OK (RFC 1813, section 3.3).
pub(crate) fn put_granted(
    procedure: Procedure,
    input: &mut Input<'_>,
    out: &mut Text,
) -> Result<(), XdrFault> {
    match procedure {
        Procedure::Null => Ok(()),
        Procedure::Getattr => put_fattr(input, out),
        Procedure::Setattr => put_wcc(input, out, b"file"),
        Procedure::Lookup => put_found(input, out),
        Procedure::Access => put_access(input, out),
        Procedure::Readlink => put_link_path(input, out),
        Procedure::Read => put_read(input, out),
        Procedure::Write => put_written(input, out),
        Procedure::Create | Procedure::Mkdir | Procedure::Symlink | Procedure::Mknod => {
            put_made(input, out)
        }
        Procedure::Remove | Procedure::Rmdir => put_wcc(input, out, b"directory"),
        Procedure::Rename => put_renamed(input, out),
        Procedure::Link => put_linked(input, out),
        Procedure::Readdir => put_page(input, out, false),
        Procedure::Readdirplus => put_page(input, out, true),
        Procedure::Fsstat => put_room(input, out),
        Procedure::Fsinfo => put_server_limits(input, out),
        Procedure::Pathconf => put_path_limits(input, out),
        Procedure::Commit => put_committed(input, out),
    }
}

// GETATTR.
fn put_fattr(input: &mut Input<'_>, out: &mut Text) -> Result<(), XdrFault> {
    let attributes = read_fattr(input)?;
    begin(out, b"attributes: ");
    put_attributes(out, &attributes);
    out.put(b"\n");
    Ok(())
}

// LOOKUP.
fn put_found(input: &mut Input<'_>, out: &mut Text) -> Result<(), XdrFault> {
    put_handle(input, out, b"handle=")?;
    put_post_op_attr(input, out, b"attributes: ")?;
    put_post_op_attr(input, out, b"directory: ")
}

// ACCESS.
fn put_access(input: &mut Input<'_>, out: &mut Text) -> Result<(), XdrFault> {
    put_post_op_attr(input, out, b"attributes: ")?;
    let rights = input.u32()?;
    begin(out, b"access=");
    out.put_number(u64::from(rights));
    put_rights(out, rights);
    out.put(b"\n");
    Ok(())
}

// The rights of some bits (RFC 1813, section 3.3.4).
fn put_rights(out: &mut Text, rights: u32) {
    let mut left = rights;
    for name in [
        b" READ".as_slice(),
        b" LOOKUP",
        b" MODIFY",
        b" EXTEND",
        b" DELETE",
        b" EXECUTE",
    ] {
        if left % 2 == 1 {
            out.put(name);
        }
        left /= 2;
    }
}

// READLINK.
fn put_link_path(input: &mut Input<'_>, out: &mut Text) -> Result<(), XdrFault> {
    put_post_op_attr(input, out, b"attributes: ")?;
    let path = input.opaque(u32::MAX)?;
    begin(out, b"path=");
    out.put_name(path);
    out.put(b"\n");
    Ok(())
}

// READ.
fn put_read(input: &mut Input<'_>, out: &mut Text) -> Result<(), XdrFault> {
    put_post_op_attr(input, out, b"attributes: ")?;
    begin(out, b"");
    put_u32(input, out, b"count=")?;
    put_boolean(input, out, b" eof=")?;
    let data = input.opaque(u32::MAX)?;
    out.put(b" data=");
    out.put_data(data);
    out.put(b"\n");
    Ok(())
}

// WRITE.
fn put_written(input: &mut Input<'_>, out: &mut Text) -> Result<(), XdrFault> {
    put_wcc(input, out, b"file")?;
    begin(out, b"");
    put_u32(input, out, b"count=")?;
    let committed = input.u32()?;
    out.put(match committed {
        0 => b" UNSTABLE\n".as_slice(),
        1 => b" DATA_SYNC\n",
        2 => b" FILE_SYNC\n",
        _ => return Err(XdrFault::BadEnum),
    });
    put_verifier(input, out)
}

// CREATE, MKDIR, SYMLINK and MKNOD.
fn put_made(input: &mut Input<'_>, out: &mut Text) -> Result<(), XdrFault> {
    put_post_op_handle(input, out, b"handle=")?;
    put_post_op_attr(input, out, b"attributes: ")?;
    put_wcc(input, out, b"directory")
}

/// The two directories of a RENAME.
pub(crate) fn put_renamed(input: &mut Input<'_>, out: &mut Text) -> Result<(), XdrFault> {
    put_wcc(input, out, b"from directory")?;
    put_wcc(input, out, b"to directory")
}

/// The file and the directory of a LINK.
pub(crate) fn put_linked(input: &mut Input<'_>, out: &mut Text) -> Result<(), XdrFault> {
    put_post_op_attr(input, out, b"attributes: ")?;
    put_wcc(input, out, b"directory")
}

// COMMIT.
fn put_committed(input: &mut Input<'_>, out: &mut Text) -> Result<(), XdrFault> {
    put_wcc(input, out, b"file")?;
    put_verifier(input, out)
}
