//! Kinds of files.
ghost use Rattle.std.specs.Prelude.{◌≡◌};
ghost use Rattle.nfs_xdr.specs.Reading.{Gives, Reads};
ghost use Rattle.nfs_attrs.specs.Encoding.{IsFileType, type_number};
ghost use Rattle.nfs_attrs.specs.Reading.{file_type_at};

use nfs_xdr::fault::XdrFault;
use nfs_xdr::input::Input;
use nfs_xdr::output::Output;

/// What kind of file it is (RFC 1813, section 2.6, ftype3).
#[derive(Clone, Copy, Debug, PartialEq, Eq)]
pub enum FileType {
    /// A regular file.
    Regular,
    /// A directory.
    Directory,
    /// A block device.
    BlockDevice,
    /// A character device.
    CharacterDevice,
    /// A symbolic link.
    SymbolicLink,
    /// A socket.
    Socket,
    /// A named pipe.
    Fifo,
}

/// Reads a kind of file. `Short` where fewer than 4 bytes are left, `BadEnum` where they are
/// the number of no kind.
pub fn read_file_type(input: &mut Input<'_>) -> Result<FileType, XdrFault>
    ensures exact { Gives (λ t. t) input.old input.new result (file_type_at input.old) }
    ensures reads { Reads (λ t. t) IsFileType input.old input.new result }
{
    let mut ahead = Input::new(input.rest());
    let kind = match ahead.u32()? {
        1 => FileType::Regular,
        2 => FileType::Directory,
        3 => FileType::BlockDevice,
        4 => FileType::CharacterDevice,
        5 => FileType::SymbolicLink,
        6 => FileType::Socket,
        7 => FileType::Fifo,
        _ => return Err(XdrFault::BadEnum),
    };
    *input = ahead;
    Ok(kind)
}

/// The number of a kind of file.
#[inline(always)]
pub fn number_of(kind: FileType) -> u32
    ensures { result ≡ type_number kind }
{
    match kind {
        FileType::Regular => 1,
        FileType::Directory => 2,
        FileType::BlockDevice => 3,
        FileType::CharacterDevice => 4,
        FileType::SymbolicLink => 5,
        FileType::Socket => 6,
        FileType::Fifo => 7,
    }
}
