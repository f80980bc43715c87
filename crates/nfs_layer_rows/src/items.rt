//! XDR items, read and written, and devices.

use nfs_xdr::device::{ByteIn, ByteOut, Device, DeviceFault, write_all};
use nfs_xdr::fault::XdrFault;
use nfs_xdr::input::Input;
use nfs_xdr::output::{Output, halves};
use rows::answers::{debug_text, digits, left, text, then, with};
use rows::stutter::Stutter;
use rows::words::{bytes, number, size, word};
use std::alloc::{AllocError, Global};
use std::str::SplitWhitespace;

/// `item KIND BYTES`: the item at the front of the bytes or its fault, and what is left.
pub(crate) fn item(alloc: Global, words: &mut SplitWhitespace<'_>) -> Option<String> {
    let kind = words.next()?;
    let bound = match kind {
        "fixed" | "opaque" => word(words)?,
        _ => 0,
    };
    let text = bytes(alloc, words)?;
    let mut input = Input::new(text.as_slice());
    let item = read(alloc, kind, bound, &mut input)?;
    left(alloc, item, input.rest())
}

fn read(alloc: Global, kind: &str, bound: u32, input: &mut Input<'_>) -> Option<String> {
    match kind {
        "u32" => debug_text(alloc, input.u32()),
        "u64" => debug_text(alloc, input.u64()),
        "boolean" => debug_text(alloc, input.boolean()),
        "fixed" => opaque_text(alloc, input.fixed(bound as usize)),
        "opaque" => opaque_text(alloc, input.opaque(bound)),
        _ => None,
    }
}

// The bytes of an item, or its fault.
fn opaque_text(alloc: Global, got: Result<&[u8], XdrFault>) -> Option<String> {
    match got {
        Ok(item) => digits(alloc, item),
        Err(fault) => debug_text(alloc, Err::<(), XdrFault>(fault)),
    }
}

/// An output that is written to.
#[derive(Drop)]
pub(crate) struct Written {
    alloc: Global,
    out: Output,
}

impl Written {
    /// An output without room.
    pub(crate) fn new(alloc: Global) -> Result<Written, AllocError> {
        Ok(Written {
            alloc,
            out: Output::new(alloc, 0)?,
        })
    }

    /// `write KIND ..`: what stands in the output then, and the room that is left.
    pub(crate) fn answer(&mut self, words: &mut SplitWhitespace<'_>) -> Option<String> {
        let kind = words.next()?;
        match kind {
            "room" => self.out = Output::new(self.alloc, size(words)?).ok()?,
            "u32" | "u64" | "boolean" | "numbers" => put_number(&mut self.out, kind, words)?,
            "fixed" | "opaque" => put_bytes(self.alloc, &mut self.out, kind, words)?,
            _ => change(self.alloc, &mut self.out, kind, words)?,
        }
        let text = digits(self.alloc, self.out.bytes())?;
        with(self.alloc, text, "room", self.out.room())
    }
}

// Numbers, where there is room for 12 bytes.
fn put_number(out: &mut Output, kind: &str, words: &mut SplitWhitespace<'_>) -> Option<()> {
    if out.room() < 12 {
        return None;
    }
    match kind {
        "u32" => out.u32(word(words)?),
        "u64" => out.u64(number(words)?),
        "boolean" => out.boolean(words.next()? == "true"),
        _ => return put_numbers(out, words),
    }
    Some(())
}

// A number, and one of 64 bits in halves.
fn put_numbers(out: &mut Output, words: &mut SplitWhitespace<'_>) -> Option<()> {
    let first = word(words)?;
    let (high, low) = halves(number(words)?);
    if out.room() < 12 {
        return None;
    }
    out.numbers([first, high, low]);
    Some(())
}

// Opaque data of at most eight bytes, where there is room for 12.
fn put_bytes(
    alloc: Global,
    out: &mut Output,
    kind: &str,
    words: &mut SplitWhitespace<'_>,
) -> Option<()> {
    let item = bytes(alloc, words)?;
    if item.len() > 8 || out.room() < 15 {
        return None;
    }
    match kind {
        "fixed" => out.fixed(item.as_slice()),
        _ => out.opaque(item.as_slice()),
    }
    Some(())
}

// What stands in the output is changed.
fn change(
    alloc: Global,
    out: &mut Output,
    kind: &str,
    words: &mut SplitWhitespace<'_>,
) -> Option<()> {
    match kind {
        "overwrite" => overwrite(alloc, out, words),
        "cut" => cut(out, size(words)?),
        "clear" => {
            out.clear();
            Some(())
        }
        _ => None,
    }
}

fn overwrite(alloc: Global, out: &mut Output, words: &mut SplitWhitespace<'_>) -> Option<()> {
    let at = size(words)?;
    let over = bytes(alloc, words)?;
    if at > out.bytes().len() || over.len() > out.bytes().len() - at {
        return None;
    }
    out.overwrite(at, over.as_slice());
    Some(())
}

fn cut(out: &mut Output, len: usize) -> Option<()> {
    if len > out.bytes().len() {
        return None;
    }
    out.cut(len);
    Some(())
}

/// `device STEP K BYTES`: whether all are written to a device that takes at most STEP bytes a
/// call and fails at its K-th call, what it answers to two more writes of a byte, and what it took.
pub(crate) fn device(alloc: Global, words: &mut SplitWhitespace<'_>) -> Option<String> {
    let step = size(words)?.max(1);
    let k = number(words)?.max(1);
    let text = bytes(alloc, words)?;
    let mut out = Stutter::new(Device::new(Vec::new(alloc)), step, k);
    let all = write_all(&mut out, text.as_slice());
    let next = out.write(b"x");
    let last = out.write(b"x");
    let answer = debug_text(alloc, (all, next, last))?;
    let taken = digits(alloc, out.into_inner().into_inner().as_slice())?;
    then(answer, taken.as_str())
}

/// `reader STEP K BYTES`: what four reads of at most eight bytes bring from such a device.
pub(crate) fn reader(alloc: Global, words: &mut SplitWhitespace<'_>) -> Option<String> {
    let step = size(words)?.max(1);
    let k = number(words)?.max(1);
    let given = bytes(alloc, words)?;
    let mut input = Stutter::new(Device::new(given.as_slice()), step, k);
    let mut buffer = [0u8; 8];
    let mut brought = text(alloc, "read")?;
    for _ in 0..4u8 {
        let read = input.read(&mut buffer);
        let chunk = read_text(alloc, read, &buffer)?;
        brought = then(brought, chunk.as_str())?;
    }
    Some(brought)
}

fn read_text(alloc: Global, read: Result<usize, DeviceFault>, buffer: &[u8]) -> Option<String> {
    match read {
        Ok(n) => digits(alloc, buffer.get(..n)?),
        Err(fault) => debug_text(alloc, fault),
    }
}
