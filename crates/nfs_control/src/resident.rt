//! How much memory a process takes.

use nfs_text::number::decimal;
use std::alloc::Global;
use std::fs;
use std::io::Read;
use std::rt::Files;

// What the system says of the process that reads it (proc(5)).
const STATUS: &str = "/proc/self/status";

// The most bytes of that which are looked at.
const MOST_BYTES: usize = 8_192;

/// How many bytes of memory the process takes. `None` where the system doesn't say it.
pub(crate) fn resident_bytes<R: Files>(rt: &R) -> Option<u64> {
    let mut file = fs::open(rt, STATUS).ok()?;
    let mut text = [0; MOST_BYTES];
    let len = file.read(&mut text).ok()?;
    resident_in(&text[..len.min(MOST_BYTES)])
}

// The number after `VmRSS:`, in kibibytes.
fn resident_in(text: &[u8]) -> Option<u64> {
    for line in text.split(|byte| *byte == b'\n') {
        if let Some(rest) = line.strip_prefix(b"VmRSS:".as_slice()) {
            let kibibytes = rest.trim_ascii().strip_suffix(b" kB".as_slice())?;
            return decimal(kibibytes, u64::MAX)?.checked_mul(1_024);
        }
    }
    None
}
