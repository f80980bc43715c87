//! The attributes of a file.
ghost use Rattle.std.specs.Prelude.{◌≡◌, ◌≤◌, length, option_copied};
ghost use Rattle.nfs_xdr.specs.Reading.{Gives, Reads};
ghost use Rattle.nfs_xdr.specs.Written.{Appends};
ghost use Rattle.nfs_attrs.specs.Encoding.{IsAfterType, IsFattr, IsPostOpAttr, after_type_text, fattr_text, post_op_attr_text};
ghost use Rattle.nfs_attrs.specs.Reading.{fattr_at, post_op_attr_at};

use crate::file_type::{FileType, number_of, read_file_type};
use crate::moment::{Moment, read_moment};
use nfs_xdr::fault::XdrFault;
use nfs_xdr::input::Input;
use nfs_xdr::output::{Output, hyper_of};

/// The two numbers of a device, whose meaning the kind of file gives: for a block or character
/// device its major and minor number (RFC 1813, section 2.6, specdata3).
#[derive(Clone, Copy, Debug, PartialEq, Eq)]
pub struct SpecData {
    /// The first number, the major one of a device.
    pub specdata1: u32,
    /// The second number, the minor one of a device.
    pub specdata2: u32,
}

/// The attributes of a file (RFC 1813, section 2.6, fattr3).
#[derive(Clone, Copy, Debug, PartialEq, Eq)]
pub struct Fattr {
    /// What kind of file it is.
    pub file_type: FileType,
    /// The protection bits.
    pub mode: u32,
    /// How many names the file has.
    pub nlink: u32,
    /// The owner's user number.
    pub uid: u32,
    /// The number of the file's group.
    pub gid: u32,
    /// The file's size in bytes.
    pub size: u64,
    /// How many bytes of storage the file uses.
    pub used: u64,
    /// The device that a special file stands for.
    pub rdev: SpecData,
    /// The number of the file's volume.
    pub fsid: u64,
    /// The file's number in its volume.
    pub fileid: u64,
    /// When the content was last read.
    pub atime: Moment,
    /// When the content was last changed.
    pub mtime: Moment,
    /// When the attributes were last changed.
    pub ctime: Moment,
}

/// Reads the attributes of a file. The first fault from left to right: `Short` where the bytes
/// end, `BadEnum` at a number of no kind of file.
pub fn read_fattr(input: &mut Input<'_>) -> Result<Fattr, XdrFault>
    ensures exact { Gives (λ a. a) input.old input.new result (fattr_at input.old) }
    ensures reads { Reads (λ a. a) IsFattr input.old input.new result }
{
    let (attributes, rest) = fattr_of(input.rest())?;
    *input = rest;
    Ok(attributes)
}

fn fattr_of(bytes: &[u8]) -> Result<(Fattr, Input<'_>), XdrFault>
    ensures { result ≡ fattr_at bytes.now }
{
    let mut input = Input::new(bytes);
    let file_type = read_file_type(&mut input)?;
    let mode = input.u32()?;
    let nlink = input.u32()?;
    let uid = input.u32()?;
    let gid = input.u32()?;
    let size = input.u64()?;
    let used = input.u64()?;
    let specdata1 = input.u32()?;
    let specdata2 = input.u32()?;
    let fsid = input.u64()?;
    let fileid = input.u64()?;
    let atime = read_moment(&mut input)?;
    let mtime = read_moment(&mut input)?;
    let ctime = read_moment(&mut input)?;
    let attributes = Fattr {
        file_type,
        mode,
        nlink,
        uid,
        gid,
        size,
        used,
        rdev: SpecData {
            specdata1,
            specdata2,
        },
        fsid,
        fileid,
        atime,
        mtime,
        ctime,
    };
    Ok((attributes, input))
}

/// Writes the attributes of a file.
#[inline(always)]
pub fn write_fattr(out: &mut Output, attributes: &Fattr)
    requires { 84 ≤ out.old.room }
    ensures text { Appends (fattr_text attributes.now) out.old out.new }
    ensures encoded { IsFattr attributes.now (fattr_text attributes.now) }
{
    out.u32(number_of(attributes.file_type));
    write_after_type(out, attributes);
}

// Writes the attributes after the kind of file, by eight bytes.
#[inline(always)]
fn write_after_type(out: &mut Output, attributes: &Fattr)
    requires { 80 ≤ out.old.room }
    ensures text { Appends (after_type_text attributes.now) out.old out.new }
    ensures encoded { IsAfterType attributes.now (after_type_text attributes.now) }
{
    out.hypers([
        hyper_of(attributes.mode, attributes.nlink),
        hyper_of(attributes.uid, attributes.gid),
        attributes.size,
        attributes.used,
        hyper_of(attributes.rdev.specdata1, attributes.rdev.specdata2),
        attributes.fsid,
        attributes.fileid,
        hyper_of(attributes.atime.seconds, attributes.atime.nanos),
        hyper_of(attributes.mtime.seconds, attributes.mtime.nanos),
        hyper_of(attributes.ctime.seconds, attributes.ctime.nanos),
    ]);
}

/// Reads the attributes of a file, or that there are none (RFC 1813, section 2.6, post_op_attr).
/// The first fault from left to right: `Short` where the bytes end, `BadBool` where it is not
/// said whether they are there, `BadEnum` at a number of no kind of file.
pub fn read_post_op_attr(input: &mut Input<'_>) -> Result<Option<Fattr>, XdrFault>
    ensures exact { Gives (λ a. a) input.old input.new result (post_op_attr_at input.old) }
    ensures reads { Reads (λ a. a) IsPostOpAttr input.old input.new result }
{
    let (attributes, rest) = post_op_attr_of(input.rest())?;
    *input = rest;
    Ok(attributes)
}

fn post_op_attr_of(bytes: &[u8]) -> Result<(Option<Fattr>, Input<'_>), XdrFault>
    ensures { result ≡ post_op_attr_at bytes.now }
{
    let mut input = Input::new(bytes);
    if !input.boolean()? {
        return Ok((None, input));
    }
    let attributes = read_fattr(&mut input)?;
    Ok((Some(attributes), input))
}

/// Writes the attributes of a file, or that there are none (RFC 1813, section 2.6, post_op_attr).
#[inline(always)]
pub fn write_post_op_attr(out: &mut Output, attributes: Option<&Fattr>)
    requires { length (post_op_attr_text (option_copied attributes)) ≤ out.old.room }
    ensures text { Appends (post_op_attr_text (option_copied attributes.entry)) out.old out.new }
    ensures encoded { IsPostOpAttr (option_copied attributes.entry) (post_op_attr_text (option_copied attributes.entry)) }
{
    match attributes {
        None => out.u32(0),
        Some(attributes) => {
            out.hypers([hyper_of(1, number_of(attributes.file_type))]);
            write_after_type(out, attributes);
        }
    }
}
