//! A special file to be made.
ghost use Rattle.nfs_args.specs.Reading.{Takes, device_data_at, node_data_at, mknod_at};

use crate::dir_op::{DirOp, dir_op_of};
use nfs_attrs::fattr::SpecData;
use nfs_attrs::file_type::{FileType, read_file_type};
use nfs_attrs::sattr::{Sattr, read_sattr};
use nfs_xdr::fault::XdrFault;
use nfs_xdr::input::Input;

/// A device to be made (RFC 1813, section 3.3.11, devicedata3).
#[derive(Drop)]
pub struct DeviceData {
    /// What it is to be like.
    pub attributes: Sattr,
    /// Its two numbers.
    pub device: SpecData,
}

/// The kind of a special file to be made, and what it is to be like (RFC 1813, section 3.3.11,
/// mknoddata3). A regular file, a directory and a symbolic link are named all the same, with nothing
/// after their number.
#[derive(Drop)]
pub enum NodeData {
    /// A regular file.
    Regular,
    /// A directory.
    Directory,
    /// A block device.
    BlockDevice(DeviceData),
    /// A character device.
    CharacterDevice(DeviceData),
    /// A symbolic link.
    SymbolicLink,
    /// A socket.
    Socket(Sattr),
    /// A named pipe.
    Fifo(Sattr),
}

/// A special file to be made (RFC 1813, section 3.3.11, MKNOD3args).
#[derive(Drop)]
pub struct Mknod<'a> {
    /// Where it is to be.
    pub place: DirOp<'a>,
    /// Its kind, and what it is to be like.
    pub node: NodeData,
}

pub(crate) fn mknod_of<'a>(input: &mut Input<'a>) -> Result<Mknod<'a>, XdrFault>
    ensures { Takes input.old input.new result (mknod_at input.old) }
{
    let place = dir_op_of(input)?;
    let node = node_data_of(input)?;
    Ok(Mknod { place, node })
}

fn node_data_of(input: &mut Input<'_>) -> Result<NodeData, XdrFault>
    ensures { Takes input.old input.new result (node_data_at input.old) }
{
    match read_file_type(input)? {
        FileType::Regular => Ok(NodeData::Regular),
        FileType::Directory => Ok(NodeData::Directory),
        FileType::BlockDevice => Ok(NodeData::BlockDevice(device_data_of(input)?)),
        FileType::CharacterDevice => Ok(NodeData::CharacterDevice(device_data_of(input)?)),
        FileType::SymbolicLink => Ok(NodeData::SymbolicLink),
        FileType::Socket => Ok(NodeData::Socket(read_sattr(input)?)),
        FileType::Fifo => Ok(NodeData::Fifo(read_sattr(input)?)),
    }
}

fn device_data_of(input: &mut Input<'_>) -> Result<DeviceData, XdrFault>
    ensures { Takes input.old input.new result (device_data_at input.old) }
{
    let attributes = read_sattr(input)?;
    let specdata1 = input.u32()?;
    let specdata2 = input.u32()?;
    let device = SpecData {
        specdata1,
        specdata2,
    };
    Ok(DeviceData { attributes, device })
}
