//! What a connection is answered, before it is printed.
ghost use Rattle.std.specs.Prelude.{◌≡◌, ◌≤◌, ◌<◌, Some, length};

use nfs_xdr::device::{ByteOut, DeviceFault};
use std::alloc::Global;

/// A device that keeps all that is written to it. It fails where there is no memory.
#[derive(Drop)]
pub struct Captured {
    bytes: Vec<u8>,
    failed: bool,
}

impl Captured {
    /// A device that has nothing.
    pub(crate) fn new(alloc: Global) -> Captured {
        Captured {
            bytes: Vec::new(alloc),
            failed: false,
        }
    }

    /// Whether there was no memory.
    pub(crate) fn has_failed(&self) -> bool {
        self.failed
    }

    /// What was written.
    pub(crate) fn bytes(&self) -> &[u8] {
        self.bytes.as_slice()
    }
}

impl ByteOut for Captured {
    ghost contents = { λ c. Some c.bytes.items };

    ghost failed = { λ c. c.failed };

    fn write(&mut self, bytes: &[u8]) -> Result<usize, DeviceFault> {
        if self.failed || self.bytes.extend_from_slice(bytes).is_err() {
            self.failed = true;
            return Err(DeviceFault);
        }
        Ok(bytes.len())
    }
}

/// The first record of some, each framed as one fragment, and those after it.
pub(crate) fn split_record(records: &[u8]) -> (&[u8], &[u8])
    ensures { 0 < length records.now → length result.1.now < length records.now }
{
    let len = match records.first_chunk::<4>() {
        Some(mark) => 4 + (u32::from_be_bytes(*mark) & 0x7fff_ffff) as usize,
        None => records.len(),
    };
    records.split_at(len.min(records.len()))
}
