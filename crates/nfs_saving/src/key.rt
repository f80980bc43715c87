//! The keys of descriptions that are written.
ghost use Rattle.std.specs.Prelude.{IfOk};
ghost use Rattle.nfs_saving.specs.Saving.{IsKey};

use nfs_source::fault::Fault;
use std::alloc::Global;
use std::random::RandomSource;

/// How many bytes a key has.
pub const KEY_BYTES: usize = 8;

/// The key of these hexadecimal digits, or a new one where there are none, or not 16. `CannotRead`
/// where the system has no random bytes, `Memory`.
pub fn key_of<R: RandomSource>(
    rt: &R,
    alloc: Global,
    digits: Option<&str>,
) -> Result<[u8; KEY_BYTES], Fault> {
    given_or_new(rt, alloc, digits.and_then(given_key))
}

/// The key that is given, or a new one. The faults of `new_key`.
pub fn given_or_new<R: RandomSource>(
    rt: &R,
    alloc: Global,
    given: Option<[u8; KEY_BYTES]>,
) -> Result<[u8; KEY_BYTES], Fault>
    ensures { IfOk result (λ key. IsKey given key) }
{
    match given {
        Some(key) => Ok(key),
        None => new_key(rt, alloc),
    }
}

/// The key of 16 hexadecimal digits.
pub fn given_key(digits: &str) -> Option<[u8; KEY_BYTES]> {
    let mut key = [0; KEY_BYTES];
    match hex::decode_to_slice(digits, &mut key) {
        Ok(()) => Some(key),
        Err(_) => None,
    }
}

/// A key that no other description has. `CannotRead` where the system has no random bytes, `Memory`.
pub fn new_key<R: RandomSource>(rt: &R, alloc: Global) -> Result<[u8; KEY_BYTES], Fault> {
    let mut key = [0; KEY_BYTES];
    match rt.fill_bytes(&mut key) {
        Ok(()) => Ok(key),
        Err(error) => {
            let name = "the system's random bytes".to_string(alloc)?;
            Err(Fault::CannotRead { name, error })
        }
    }
}
