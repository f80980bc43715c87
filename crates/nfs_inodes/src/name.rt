//! The names of entries.
ghost use Rattle.std.specs.Prelude.{◌≢◌, ◌↔◌, IsTrue, IsFalse, All};
ghost use Rattle.nfs_inodes.specs.Law.{IsName};

use crate::limits::MAX_NAME_BYTES;

/// Whether these bytes may name an entry: 1 to 255 of them, none 0 or `/`, neither `.` nor `..`.
pub fn is_name(name: &[u8]) -> bool
    ensures { IsTrue result ↔ IsName name.now }
{
    if name.is_empty() || name.len() > MAX_NAME_BYTES {
        return false;
    }
    if name == b".".as_slice() || name == b"..".as_slice() {
        return false;
    }
    !has_separator(name)
}

// Whether there is a byte 0 or `/`.
fn has_separator(name: &[u8]) -> bool
    ensures { IsFalse result ↔ All (λ byte. (byte ≢ 0) × (byte ≢ 47)) name.now }
{
    for byte in name {
        if *byte == 0 || *byte == b'/' {
            return true;
        }
    }
    false
}
