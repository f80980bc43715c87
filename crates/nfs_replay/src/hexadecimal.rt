//! Bytes as hexadecimal digits.
ghost use Rattle.std.specs.Prelude.{◌≡◌, ◌++◌, Ok, OnOk, OnErr, IfErr};
ghost use Rattle.hex.specs.Hex.{encode_lower};
ghost use Rattle.nfs_replay.specs.Scripts.{IsCauseOf, digits_in, onto};

use crate::fault::RunFault;
use crate::line_fault::LineFault;
use nfs_ask::script_fault::LineCause;
use std::alloc::{AllocError, Global};

/// Adds the bytes that the digits say, two digits of either case to a byte. `BadHex` where they
/// say none, `Memory` where there is none; nothing is added then.
pub(crate) fn push_bytes(alloc: Global, bytes: &mut Vec<u8>, digits: &[u8]) -> Result<(), LineFault>
    ensures ok { OnOk result (onto bytes.old.items (digits_in digits.now) ≡ Ok bytes.new.items) }
    ensures fault { IfErr result (IsCauseOf (digits_in digits.now)) }
    ensures err { OnErr result (bytes.new.items ≡ bytes.old.items) }
{
    match hex::decode(alloc, digits) {
        Ok(read) => match bytes.extend_from_slice(read.as_slice()) {
            Ok(()) => Ok(()),
            Err(_) => Err(LineFault::OfRun(RunFault::Memory)),
        },
        Err(hex::FromHexError::OutOfMemory) => Err(LineFault::OfRun(RunFault::Memory)),
        Err(_) => Err(LineFault::OfLine(LineCause::BadHex)),
    }
}

/// Adds the digits of the bytes, of lower case. Nothing is added where there is no memory.
pub(crate) fn push_digits(alloc: Global, text: &mut Vec<u8>, bytes: &[u8]) -> Result<(), AllocError>
    ensures ok { OnOk result (text.new.items ≡ text.old.items ++ encode_lower bytes.now) }
    ensures err { OnErr result (text.new.items ≡ text.old.items) }
{
    let digits = hex::encode(alloc, bytes)?;
    text.extend_from_slice(digits.as_bytes())
}
