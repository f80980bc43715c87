//! What FSSTAT, FSINFO and PATHCONF answer, in words.

use nfs_attrs::moment::read_moment;
use nfs_words::items::{begin, put_boolean, put_moment, put_post_op_attr, put_u32, put_u64};
use nfs_words::text::Text;
use nfs_xdr::fault::XdrFault;
use nfs_xdr::input::Input;

/// FSSTAT (RFC 1813, section 3.3.18).
pub(crate) fn put_room(input: &mut Input<'_>, out: &mut Text) -> Result<(), XdrFault> {
    put_post_op_attr(input, out, b"attributes: ")?;
    begin(out, b"");
    for name in [
        b"tbytes=".as_slice(),
        b" fbytes=",
        b" abytes=",
        b" tfiles=",
        b" ffiles=",
        b" afiles=",
    ] {
        put_u64(input, out, name)?;
    }
    put_u32(input, out, b" invarsec=")?;
    out.put(b"\n");
    Ok(())
}

/// FSINFO (RFC 1813, section 3.3.19).
pub(crate) fn put_server_limits(input: &mut Input<'_>, out: &mut Text) -> Result<(), XdrFault> {
    put_post_op_attr(input, out, b"attributes: ")?;
    begin(out, b"");
    for name in [
        b"rtmax=".as_slice(),
        b" rtpref=",
        b" rtmult=",
        b" wtmax=",
        b" wtpref=",
        b" wtmult=",
        b" dtpref=",
    ] {
        put_u32(input, out, name)?;
    }
    put_u64(input, out, b" maxfilesize=")?;
    let delta = read_moment(input)?;
    put_moment(out, b" time_delta=", delta);
    put_u32(input, out, b" properties=")?;
    out.put(b"\n");
    Ok(())
}

/// PATHCONF (RFC 1813, section 3.3.20).
pub(crate) fn put_path_limits(input: &mut Input<'_>, out: &mut Text) -> Result<(), XdrFault> {
    put_post_op_attr(input, out, b"attributes: ")?;
    begin(out, b"");
    put_u32(input, out, b"linkmax=")?;
    put_u32(input, out, b" name_max=")?;
    for name in [
        b" no_trunc=".as_slice(),
        b" chown_restricted=",
        b" case_insensitive=",
        b" case_preserving=",
    ] {
        put_boolean(input, out, name)?;
    }
    out.put(b"\n");
    Ok(())
}
