//! Text that is put together, all of it before it is printed.
ghost use Rattle.std.specs.Prelude.{◌≡◌, ◌<◌, ◌++◌, [], false, decimal, IfOk};
ghost use Rattle.nfs_words.specs.Texts.{Puts, hex_text, hex_byte, name_text, name_byte};
ghost use Rattle.nfs_words.specs.Texts as spec;

use itoa::Buffer;
use std::alloc::{AllocError, Global};
use std::marker::Model;

/// A text that grows at its end. Where there is no memory for a part of it, it is no text.
#[derive(Drop)]
pub struct Text {
    bytes: Vec<u8>,
    is_short: bool,
}

impl Model for Text {
    ghost use Rattle.nfs_words.specs.Texts.{Put};

    ghost Value = { Put };

    ghost view = { λ a. record { bytes = a.bytes.items; is_short = a.is_short } };
}

// How many bytes of data are shown.
const MAX_SHOWN_BYTES: usize = 64;

impl Text {
    /// The empty text.
    pub fn new(alloc: Global) -> Text
        ensures bytes { result.bytes ≡ [] }
        ensures memory { result.is_short ≡ false }
    {
        Text {
            bytes: Vec::new(alloc),
            is_short: false,
        }
    }

    /// Puts bytes at the end.
    pub fn put(&mut self, bytes: &[u8])
        ensures { Puts bytes.now self.old self.new }
    {
        if self.bytes.extend_from_slice(bytes).is_err() {
            self.is_short = true;
        }
    }

    /// Puts a number in decimal digits at the end.
    pub fn put_number(&mut self, number: u64)
        ensures { Puts (decimal number) self.old self.new }
    {
        self.put(Buffer::new().format(number).as_bytes());
    }

    /// Puts a name and a number.
    pub fn put_field(&mut self, name: &[u8], number: u64)
        ensures { Puts (name.now ++ decimal number) self.old self.new }
    {
        self.put(name);
        self.put_number(number);
    }

    /// Puts the low 12 bits of a mode in four octal digits at the end.
    pub fn put_mode(&mut self, mode: u32) {
        for place in [512u32, 64, 8, 1] {
            self.put_number(u64::from(mode / place % 8));
        }
    }

    /// Puts bytes in hexadecimal digits at the end.
    pub fn put_hex(&mut self, bytes: &[u8])
        ensures { Puts (hex_text bytes.now) self.old self.new }
    {
        for byte in bytes {
            self.put_digits(*byte);
        }
    }

    fn put_digits(&mut self, byte: u8)
        ensures { Puts (hex_byte byte) self.old self.new }
    {
        self.put(&[digit(byte / 16), digit(byte % 16)]);
    }

    /// Puts bytes of a client: those from `!` to `~` but `%` as they are, and each other one as `%` and
    /// two hexadecimal digits.
    pub fn put_name(&mut self, name: &[u8])
        ensures { Puts (name_text name.now) self.old self.new }
    {
        for byte in name {
            self.put_byte(*byte);
        }
    }

    fn put_byte(&mut self, byte: u8)
        ensures { Puts (name_byte byte) self.old self.new }
    {
        if byte.is_ascii_graphic() && byte != b'%' {
            self.put(&[byte]);
        } else {
            self.put(&[b'%', digit(byte / 16), digit(byte % 16)]);
        }
    }

    /// Puts the first bytes of some data in this way, and that there are more.
    pub fn put_data(&mut self, data: &[u8]) {
        let shown = data.len().min(MAX_SHOWN_BYTES);
        self.put_name(&data[..shown]);
        if shown < data.len() {
            self.put(b" ..");
        }
    }

    /// The whole text. Refused where there was no memory for a part of it.
    pub fn into_bytes(self) -> Result<Vec<u8>, AllocError>
        ensures { IfOk result (λ bytes. (bytes.items ≡ self.bytes) × (self.is_short ≡ false)) }
    {
        let Text { bytes, is_short } = self;
        if is_short { Err(AllocError) } else { Ok(bytes) }
    }
}

// The digit for a value below 16.
fn digit(value: u8) -> u8
    requires { value < 16 }
    ensures { result ≡ spec.digit value }
{
    if value < 10 {
        b'0' + value
    } else {
        b'a' + (value - 10)
    }
}
