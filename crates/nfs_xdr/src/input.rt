//! Bytes from which XDR items are read, one after another.
ghost use Rattle.std.specs.Prelude.{◌≡◌};
ghost use Rattle.std.specs.Int.{w32, w64};
ghost use Rattle.nfs_xdr.specs.Encoding.{IsNumber, IsBoolean, IsFixed, IsOpaque};
ghost use Rattle.nfs_xdr.specs.Reading.{Gives, Reads, AreBytes, number_at, boolean_at, fixed_at, opaque_at};

use crate::fault::XdrFault;
use std::marker::Model;

/// The bytes that are still to be read. Contracts see them as a list.
///
/// A reader that refuses leaves them as they were. Nothing is copied: what `fixed` and `opaque`
/// give is lent from the bytes themselves.
#[derive(Drop)]
pub struct Input<'a> {
    bytes: &'a [u8],
}

impl<'a> Model for Input<'a> {
    ghost use Rattle.std.specs.Prelude.{ℕ, List};

    ghost Value = { List ℕ };

    ghost view = { λ a. a.bytes.now };
}

impl<'a> Input<'a> {
    /// Reads from the front of these bytes.
    pub fn new(bytes: &'a [u8]) -> Input<'a>
        ensures { result ≡ bytes.entry.now }
    {
        Input { bytes }
    }

    /// What is still to be read.
    pub fn rest(&self) -> &'a [u8]
        ensures all { result.now ≡ self.now }
        ensures bytes { AreBytes result.now }
    {
        lent(self.bytes)
    }

    /// An unsigned integer (RFC 4506, section 4.2). `Short` where fewer than 4 bytes are left.
    #[inline(always)]
    pub fn u32(&mut self) -> Result<u32, XdrFault>
        ensures exact { Gives (λ n. n) self.old self.new result (number_at w32 self.old) }
        ensures reads { Reads (λ n. n) (IsNumber w32) self.old self.new result }
    {
        if self.bytes.len() < 4 {
            return Err(XdrFault::Short);
        }
        let (front, rest) = self.bytes.split_at(4);
        self.bytes = rest;
        Ok(u32::from_be_bytes([front[0], front[1], front[2], front[3]]))
    }

    /// An unsigned hyper integer (RFC 4506, section 4.5). `Short` where fewer than 8 bytes are left.
    #[inline(always)]
    pub fn u64(&mut self) -> Result<u64, XdrFault>
        ensures exact { Gives (λ n. n) self.old self.new result (number_at w64 self.old) }
        ensures reads { Reads (λ n. n) (IsNumber w64) self.old self.new result }
    {
        if self.bytes.len() < 8 {
            return Err(XdrFault::Short);
        }
        let (f, rest) = self.bytes.split_at(8);
        self.bytes = rest;
        Ok(u64::from_be_bytes([f[0], f[1], f[2], f[3], f[4], f[5], f[6], f[7]]))
    }

    /// A boolean (RFC 4506, section 4.4). `Short` where fewer than 4 bytes are left, `BadBool`
    /// where they are neither 0 nor 1.
    pub fn boolean(&mut self) -> Result<bool, XdrFault>
        ensures exact { Gives (λ b. b) self.old self.new result (boolean_at self.old) }
        ensures reads { Reads (λ b. b) IsBoolean self.old self.new result }
    {
        let before = self.bytes;
        match self.u32()? {
            0 => Ok(false),
            1 => Ok(true),
            _ => {
                self.bytes = before;
                Err(XdrFault::BadBool)
            }
        }
    }

    /// Opaque data of `len` bytes (RFC 4506, section 4.9), lent, with its padding taken as well.
    /// `Short` where they or the padding are not all there.
    #[inline(always)]
    pub fn fixed(&mut self, len: usize) -> Result<&'a [u8], XdrFault>
        ensures exact { Gives (λ b. b.now) self.old self.new result (fixed_at len self.old) }
        ensures reads { Reads (λ b. b.now) (IsFixed len) self.old self.new result }
    {
        let padding = (4 - len % 4) % 4;
        if self.bytes.len() < len || self.bytes.len() - len < padding {
            return Err(XdrFault::Short);
        }
        let item = &self.bytes[..len];
        self.bytes = &self.bytes[len + padding..];
        Ok(item)
    }

    /// Opaque data of at most `max` bytes (RFC 4506, section 4.10), lent, with its padding taken
    /// as well. `TooLong` where its length is above `max`, whatever follows; `Short` where the
    /// length, the bytes or the padding are not all there.
    #[inline(always)]
    pub fn opaque(&mut self, max: u32) -> Result<&'a [u8], XdrFault>
        ensures exact { Gives (λ b. b.now) self.old self.new result (opaque_at max self.old) }
        ensures reads { Reads (λ b. b.now) (IsOpaque max) self.old self.new result }
    {
        let before = self.bytes;
        let len = self.u32()?;
        if len > max {
            self.bytes = before;
            return Err(XdrFault::TooLong);
        }
        match self.fixed(len as usize) {
            Ok(item) => Ok(item),
            Err(fault) => {
                self.bytes = before;
                Err(fault)
            }
        }
    }
}

// The same bytes. That each is below 256 is known of what is handed over.
fn lent(bytes: &[u8]) -> &[u8]
    ensures all { result.now ≡ bytes.now }
    ensures bytes { AreBytes result.now }
{
    bytes
}
