//! Items that several results have.
ghost use Rattle.std.specs.Prelude.{◌++◌, codes};
ghost use Rattle.nfs_words.specs.Texts.{Puts};

use crate::attributes::put_attributes;
use crate::text::Text;
use nfs_attrs::fattr::read_post_op_attr;
use nfs_attrs::moment::Moment;
use nfs_attrs::wcc::read_wcc;
use nfs_xdr::fault::XdrFault;
use nfs_xdr::input::Input;

// The largest handle (RFC 1813, section 2.4, NFS3_FHSIZE).
const MAX_HANDLE_BYTES: u32 = 64;

/// Begins a line of an item.
pub fn begin(out: &mut Text, name: &[u8])
    ensures { Puts (codes "    " ++ name.now) out.old out.new }
{
    out.put(b"    ");
    out.put(name);
}

/// A number of 32 bits, in a line that is begun.
pub fn put_u32(input: &mut Input<'_>, out: &mut Text, name: &[u8]) -> Result<(), XdrFault> {
    let number = input.u32()?;
    out.put_field(name, u64::from(number));
    Ok(())
}

/// A number of 64 bits, in a line that is begun.
pub fn put_u64(input: &mut Input<'_>, out: &mut Text, name: &[u8]) -> Result<(), XdrFault> {
    let number = input.u64()?;
    out.put_field(name, number);
    Ok(())
}

/// A boolean, in a line that is begun.
pub fn put_boolean(input: &mut Input<'_>, out: &mut Text, name: &[u8]) -> Result<(), XdrFault> {
    let is_so = input.boolean()?;
    out.put_field(name, u64::from(is_so));
    Ok(())
}

/// A time, in a line that is begun.
pub fn put_moment(out: &mut Text, name: &[u8], moment: Moment) {
    out.put_field(name, u64::from(moment.seconds));
    if moment.nanos > 0 {
        out.put_field(b"+", u64::from(moment.nanos));
        out.put(b"ns");
    }
}

/// A handle, as a line.
pub fn put_handle(input: &mut Input<'_>, out: &mut Text, name: &[u8]) -> Result<(), XdrFault> {
    let handle = input.opaque(MAX_HANDLE_BYTES)?;
    begin(out, name);
    out.put_hex(handle);
    out.put(b"\n");
    Ok(())
}

/// A handle, if there is one, as a line.
pub fn put_post_op_handle(
    input: &mut Input<'_>,
    out: &mut Text,
    name: &[u8],
) -> Result<(), XdrFault> {
    if input.boolean()? {
        put_handle(input, out, name)
    } else {
        Ok(())
    }
}

/// A verifier, as a line.
pub fn put_verifier(input: &mut Input<'_>, out: &mut Text) -> Result<(), XdrFault> {
    let verifier = input.fixed(8)?;
    begin(out, b"verifier=");
    out.put_hex(verifier);
    out.put(b"\n");
    Ok(())
}

/// Attributes after an operation, if there are any, as a line.
pub fn put_post_op_attr(
    input: &mut Input<'_>,
    out: &mut Text,
    name: &[u8],
) -> Result<(), XdrFault> {
    let attributes = read_post_op_attr(input)?;
    begin(out, name);
    match attributes {
        Some(attributes) => put_attributes(out, &attributes),
        None => out.put(b"none"),
    }
    out.put(b"\n");
    Ok(())
}

/// Attributes before and after an operation, as two lines.
pub fn put_wcc(input: &mut Input<'_>, out: &mut Text, name: &[u8]) -> Result<(), XdrFault> {
    let wcc = read_wcc(input)?;
    begin(out, name);
    out.put(b" before: ");
    match wcc.before {
        Some(before) => {
            out.put_field(b"size=", before.size);
            put_moment(out, b" mtime=", before.mtime);
            put_moment(out, b" ctime=", before.ctime);
        }
        None => out.put(b"none"),
    }
    out.put(b"\n");
    begin(out, name);
    out.put(b" after: ");
    match wcc.after {
        Some(after) => put_attributes(out, &after),
        None => out.put(b"none"),
    }
    out.put(b"\n");
    Ok(())
}
