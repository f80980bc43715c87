//! What MOUNT answers, in words.

use nfs_args::procedure::MountProcedure;
use nfs_words::items::{begin, put_handle};
use nfs_words::status::mount_status_name;
use nfs_words::text::Text;
use nfs_xdr::fault::XdrFault;
use nfs_xdr::input::Input;

/// The results of a procedure of MOUNT (RFC 1813, appendix I, section 5.2), from the line of its name on.
pub(crate) fn put_mount_results(
    procedure: MountProcedure,
    input: &mut Input<'_>,
    out: &mut Text,
) -> Result<(), XdrFault> {
    match procedure {
        MountProcedure::Mount => put_mounted(input, out),
        MountProcedure::Dump => {
            out.put(b"SUCCESS\n");
            put_mounts(input, out)
        }
        MountProcedure::Export => {
            out.put(b"SUCCESS\n");
            put_exports(input, out)
        }
        MountProcedure::Null | MountProcedure::Unmount | MountProcedure::UnmountAll => {
            out.put(b"SUCCESS\n");
            Ok(())
        }
    }
}

// MNT.
fn put_mounted(input: &mut Input<'_>, out: &mut Text) -> Result<(), XdrFault> {
    let status = input.u32()?;
    match mount_status_name(status) {
        Some(name) => out.put(name),
        None => out.put_field(b"status ", u64::from(status)),
    }
    out.put(b"\n");
    if status != 0 {
        return Ok(());
    }
    put_handle(input, out, b"handle=")?;
    put_flavors(input, out)
}

// The flavors of credentials.
fn put_flavors(input: &mut Input<'_>, out: &mut Text) -> Result<(), XdrFault> {
    let count = input.u32()?;
    begin(out, b"flavors:");
    for _ in 0..count {
        out.put(match input.u32()? {
            0 => b" AUTH_NONE".as_slice(),
            1 => b" AUTH_SYS",
            _ => b" other",
        });
    }
    out.put(b"\n");
    Ok(())
}

// DUMP.
fn put_mounts(input: &mut Input<'_>, out: &mut Text) -> Result<(), XdrFault> {
    // Each turn takes some of the bytes, so that the loop ends with them.
    for _ in 0..u64::MAX {
        if !input.boolean()? {
            break;
        }
        let host = input.opaque(u32::MAX)?;
        let path = input.opaque(u32::MAX)?;
        begin(out, b"mount ");
        out.put_name(host);
        out.put(b" ");
        out.put_name(path);
        out.put(b"\n");
    }
    Ok(())
}

// EXPORT.
fn put_exports(input: &mut Input<'_>, out: &mut Text) -> Result<(), XdrFault> {
    for _ in 0..u64::MAX {
        if !input.boolean()? {
            break;
        }
        let path = input.opaque(u32::MAX)?;
        begin(out, b"export ");
        out.put_name(path);
        put_groups(input, out)?;
        out.put(b"\n");
    }
    Ok(())
}

// Who may mount a volume.
fn put_groups(input: &mut Input<'_>, out: &mut Text) -> Result<(), XdrFault> {
    for _ in 0..u64::MAX {
        if !input.boolean()? {
            break;
        }
        let group = input.opaque(u32::MAX)?;
        out.put(b" ");
        out.put_name(group);
    }
    Ok(())
}
