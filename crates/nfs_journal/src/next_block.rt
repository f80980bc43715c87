//! The file of a journal is read, block by block.
ghost use Rattle.std.specs.Prelude.{◌≡◌, ◌<◌, ◌≤◌, ◌↔◌, ◌++◌, length, take, IfOk, IsTrue};
ghost use Rattle.nfs_journal.specs.NextBlock.{AreZeros, IsNext, OfLeft, TellsZeros};
ghost use Rattle.nfs_xdr.specs.Known.{IsAtEnd, Shrinks};

use crate::block::{BLOCK_HEADER_BYTES, BlockKind, decode_header};
use std::alloc::AllocError;
use std::io::{self, ErrorKind, Read};

// How much is read at once.
const CHUNK_BYTES: usize = 65_536;

/// What stands next in the file of a journal.
#[derive(Clone, Copy, Debug, PartialEq, Eq)]
pub enum Next {
    /// A block.
    Block(BlockKind),
    /// Nothing, or a block that was not written whole.
    End,
    /// No block.
    Damaged,
}

/// Why nothing more is read.
#[derive(Debug, Drop)]
pub enum ReadFault {
    /// The system doesn't read it.
    System(io::Error),
    /// There is no memory.
    Memory(AllocError),
}

impl From<io::Error> for ReadFault {
    fn from(error: io::Error) -> ReadFault {
        ReadFault::System(error)
    }
}

impl From<AllocError> for ReadFault {
    fn from(error: AllocError) -> ReadFault {
        ReadFault::Memory(error)
    }
}

/// Reads the block with this number, if it is next: its bytes, or what stands there instead. Where the system wrote the
/// length of a file, and not yet its bytes, it ends with zeros.
pub fn read_block<F: Read>(
    file: &mut F,
    number: u64,
    bytes: &mut Vec<u8>,
) -> Result<Next, ReadFault>
    ensures { IfOk result (λ next. IsNext next number (F.remaining file.old) bytes.new.items (F.remaining file.new)) }
{
    let mut front = [0; BLOCK_HEADER_BYTES];
    if fill(file, &mut front)? < BLOCK_HEADER_BYTES {
        return Ok(Next::End);
    }
    let Some(header) = decode_header(&front) else {
        bytes.resize(CHUNK_BYTES, 0)?;
        if is_unwritten(file, &front, bytes.as_mut_slice())? {
            return Ok(Next::End);
        }
        return Ok(Next::Damaged);
    };
    if header.number != number || !header.is_allowed() {
        return Ok(Next::Damaged);
    }
    bytes.resize(header.len as usize, 0)?;
    if fill(file, bytes.as_mut_slice())? < bytes.len() {
        return Ok(Next::End);
    }
    Ok(Next::Block(header.kind))
}

/// Reads until this is full, or to the end of the file. How many bytes that are.
pub fn fill<F: Read>(file: &mut F, bytes: &mut [u8]) -> io::Result<usize>
    ensures count { IfOk result (λ n. n ≤ length bytes.new) }
    ensures read { IfOk result (λ n. Shrinks (F.remaining file.old) (take n bytes.new) (F.remaining file.new)) }
    ensures end { IfOk result (λ n. n < length bytes.new → IsAtEnd (F.remaining file.new)) }
    ensures len { length bytes.new ≡ length bytes.old }
{
    let mut len = 0;
    while len < bytes.len() {
        match read_some(file, &mut bytes[len..]) {
            Ok(0) => return Ok(len),
            Ok(n) => len += n,
            Err(error) => return Err(error),
        }
    }
    Ok(len)
}

// Reads some bytes, none only at the end.
fn read_some<F: Read>(file: &mut F, bytes: &mut [u8]) -> io::Result<usize>
    ensures count { IfOk result (λ n. n ≤ length bytes.new) }
    ensures read { IfOk result (λ n. Shrinks (F.remaining file.old) (take n bytes.new) (F.remaining file.new)) }
    ensures end { IfOk result (λ n. n ≡ 0 → 0 < length bytes.new → IsAtEnd (F.remaining file.new)) }
    ensures len { length bytes.new ≡ length bytes.old }
{
    for _ in 0..u64::MAX {
        match file.read(bytes) {
            Err(error) if error.kind() == ErrorKind::Interrupted => {}
            Err(error) => return Err(error),
            Ok(n) => return Ok(n),
        }
    }
    Err(io::Error::from(ErrorKind::Interrupted))
}

// Whether these bytes and all after them to the end of the file are zeros: it is read through this chunk.
fn is_unwritten<F: Read>(file: &mut F, front: &[u8], chunk: &mut [u8]) -> io::Result<bool>
    requires { 0 < length chunk.old }
    ensures { IfOk result (λ is. OfLeft (λ after. IsTrue is ↔ AreZeros (front.now ++ after)) (F.remaining file.old)) }
{
    if !are_zeros(front) {
        return Ok(false);
    }
    are_zeros_on(file, chunk)
}

// Whether nothing but zeros stands from there to the end of the file.
fn are_zeros_on<F: Read>(file: &mut F, chunk: &mut [u8]) -> io::Result<bool>
    requires { 0 < length chunk.old }
    ensures { IfOk result (λ is. TellsZeros is (F.remaining file.old)) }
{
    for _ in 0..u64::MAX {
        let len = read_some(file, chunk)?;
        if len == 0 {
            return Ok(true);
        }
        if !are_zeros(&chunk[..len]) {
            return Ok(false);
        }
    }
    Err(io::Error::from(ErrorKind::Interrupted))
}

/// Whether these are zeros.
pub fn are_zeros(bytes: &[u8]) -> bool
    ensures { IsTrue result ↔ AreZeros bytes.now }
{
    for byte in bytes {
        if *byte != 0 {
            return false;
        }
    }
    true
}
