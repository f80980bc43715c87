//! Pages of directories, in words.

use nfs_words::items::{begin, put_boolean, put_post_op_attr, put_post_op_handle, put_verifier};
use nfs_words::text::Text;
use nfs_xdr::fault::XdrFault;
use nfs_xdr::input::Input;

/// What READDIR answers, or READDIRPLUS: the directory's attributes, the verifier, a line for each entry,
/// after which READDIRPLUS has what its file is, and whether these are the last ones.
pub(crate) fn put_page(
    input: &mut Input<'_>,
    out: &mut Text,
    is_plus: bool,
) -> Result<(), XdrFault> {
    put_post_op_attr(input, out, b"directory: ")?;
    put_verifier(input, out)?;
    put_entries(input, out, is_plus)?;
    begin(out, b"");
    put_boolean(input, out, b"eof=")?;
    out.put(b"\n");
    Ok(())
}

fn put_entries(input: &mut Input<'_>, out: &mut Text, is_plus: bool) -> Result<(), XdrFault> {
    // Each turn takes some of the bytes, so that the loop ends with them.
    for _ in 0..u64::MAX {
        if !input.boolean()? {
            break;
        }
        put_entry(input, out)?;
        if is_plus {
            put_post_op_attr(input, out, b"  ")?;
            put_post_op_handle(input, out, b"  handle=")?;
        }
    }
    Ok(())
}

// An entry by its cookie, its name and its file, as a listing has it.
fn put_entry(input: &mut Input<'_>, out: &mut Text) -> Result<(), XdrFault> {
    let fileid = input.u64()?;
    let name = input.opaque(u32::MAX)?;
    let cookie = input.u64()?;
    begin(out, b"entry");
    out.put_field(b" ", cookie);
    out.put(b" ");
    out.put_name(name);
    out.put_field(b" ", fileid);
    out.put(b"\n");
    Ok(())
}
