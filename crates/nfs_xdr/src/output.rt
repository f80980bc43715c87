//! A list of bytes to which XDR items are written, in room that was made once.
ghost use Rattle.std.specs.Prelude.{◌≡◌, ◌+◌, ◌*◌, ◌^◌, ◌<◌, ◌≤◌, [], ◌∷◌, ◌++◌, length, take, drop, IfOk};
ghost use Rattle.std.specs.Int.{w32, w64, to_be_bytes};
ghost use Rattle.nfs_xdr.specs.Encoding.{IsNumber, IsBoolean, AreItems, number_of, fixed_text, opaque_text, numbers_text, hypers_text, padding, pad_text};
ghost use Rattle.nfs_xdr.specs.Written.{Written, Appends};

use std::alloc::{AllocError, Global};
use std::marker::Model;

/// What was written, and the room that is left. Nothing is written where the room doesn't
/// suffice: that it does is the caller's to show.
// All of the room stands there from the start, so that a byte that is written is one that is put
// over another: no write asks whether there is memory.
#[derive(Drop)]
pub struct Output {
    all: Vec<u8>,
    len: usize,
}

impl Model for Output {
    ghost use Rattle.std.specs.Prelude.{◌-◌, ◌≤◌, length, take};
    ghost use Rattle.nfs_xdr.specs.Written.{Written};

    ghost Value = { Written };

    ghost view = { λ a. record { bytes = take a.len a.all.items; room = length a.all.items - a.len } };

    ghost invariant = { λ a. a.len ≤ length a.all.items };
}

impl Output {
    /// An output with room for this many bytes, which is never made larger. Refused where there
    /// is no memory.
    pub fn new(alloc: Global, room: usize) -> Result<Output, AllocError>
        ensures { IfOk result (λ out. (out.bytes ≡ []) × (out.room ≡ room)) }
    {
        let mut all = Vec::new(alloc);
        all.resize(room, 0)?;
        Ok(Output { all, len: 0 })
    }

    /// How many more bytes there is room for.
    #[inline(always)]
    pub fn room(&self) -> usize
        ensures { result ≡ self.now.room }
    {
        self.all.len() - self.len
    }

    /// What was written.
    #[inline(always)]
    pub fn bytes(&self) -> &[u8]
        ensures { result.now ≡ self.now.bytes }
    {
        &self.all[..self.len]
    }

    /// Writes an unsigned integer (RFC 4506, section 4.2).
    #[inline(always)]
    pub fn u32(&mut self, n: u32)
        requires { 4 ≤ self.old.room }
        ensures text { Appends (to_be_bytes w32 n) self.old self.new }
        ensures encoded { IsNumber w32 n (to_be_bytes w32 n) }
    {
        self.part(&n.to_be_bytes());
    }

    /// Writes an unsigned hyper integer (RFC 4506, section 4.5).
    #[inline(always)]
    pub fn u64(&mut self, n: u64)
        requires { 8 ≤ self.old.room }
        ensures text { Appends (to_be_bytes w64 n) self.old self.new }
        ensures encoded { IsNumber w64 n (to_be_bytes w64 n) }
    {
        self.part(&n.to_be_bytes());
    }

    /// Writes a boolean (RFC 4506, section 4.4).
    pub fn boolean(&mut self, b: bool)
        requires { 4 ≤ self.old.room }
        ensures text { Appends (to_be_bytes w32 (number_of b)) self.old self.new }
        ensures encoded { IsBoolean b (to_be_bytes w32 (number_of b)) }
    {
        self.u32(u32::from(b));
    }

    /// Writes unsigned integers one after another, as a fixed-length array of them (RFC 4506,
    /// section 4.12), in one chunk.
    #[inline(always)]
    pub fn numbers<const N: usize>(&mut self, ns: [u32; N])
        requires { 4 * N ≤ self.old.room }
        ensures text { Appends (numbers_text ns.entry) self.old self.new }
        ensures encoded { AreItems (IsNumber w32) ns.entry (numbers_text ns.entry) }
    {
        let mut words = [[0u8; 4]; N];
        for i in 0..N {
            words[i] = bytes_of(ns[i]);
        }
        self.part(words.as_flattened());
    }

    /// Writes unsigned hyper integers one after another, as a fixed-length array of them (RFC 4506,
    /// section 4.12), in one chunk: eight bytes are written as fast as four.
    #[inline(always)]
    pub fn hypers<const N: usize>(&mut self, ns: [u64; N])
        requires { 8 * N ≤ self.old.room }
        ensures text { Appends (hypers_text ns.entry) self.old self.new }
        ensures encoded { AreItems (IsNumber w64) ns.entry (hypers_text ns.entry) }
    {
        let mut words = [[0u8; 8]; N];
        for i in 0..N {
            words[i] = bytes_of_hyper(ns[i]);
        }
        self.part(words.as_flattened());
    }

    /// Writes opaque data of a fixed length (RFC 4506, section 4.9), padded with zeros.
    #[inline(always)]
    pub fn fixed(&mut self, item: &[u8])
        requires { length (fixed_text item.now) ≤ self.old.room }
        ensures { Appends (fixed_text item.now) self.old self.new }
    {
        let len = self.len + item.len() + padding_of(item.len());
        put_padded(self.all.as_mut_slice(), self.len, item);
        self.len = len;
    }

    /// Writes bytes as they are: a part of an item whose parts lie in different places.
    #[inline(always)]
    pub fn part(&mut self, bytes: &[u8])
        requires { length bytes.now ≤ self.old.room }
        ensures { Appends bytes.now self.old self.new }
    {
        let end = self.len + bytes.len();
        self.all[self.len..end].copy_from_slice(bytes);
        self.len = end;
    }

    /// Writes the zeros that follow opaque data of `len` bytes (RFC 4506, section 3).
    #[inline(always)]
    pub fn pad(&mut self, len: usize)
        requires { padding len ≤ self.old.room }
        ensures { Appends (pad_text len) self.old self.new }
    {
        let zeros = [0u8; 3];
        let padding = padding_of(len);
        if padding > 0 {
            self.part(&zeros[..padding]);
        }
    }

    /// Writes opaque data (RFC 4506, section 4.10): its length, its bytes, and zeros as padding.
    #[inline(always)]
    pub fn opaque(&mut self, item: &[u8])
        requires counted { length item.now < 2 ^ 32 }
        requires room { length (opaque_text item.now) ≤ self.old.room }
        ensures { Appends (opaque_text item.now) self.old self.new }
    {
        self.u32(item.len() as u32);
        self.fixed(item);
    }

    /// Puts these bytes over as many that were written, from `at` on: for what is known only
    /// later, as the length in front of what was written.
    #[inline(always)]
    pub fn overwrite(&mut self, at: usize, bytes: &[u8])
        requires { at + length bytes.now ≤ length self.old.bytes }
        ensures bytes { self.new.bytes ≡ take at self.old.bytes ++ bytes.now ++ drop (at + length bytes.now) self.old.bytes }
        ensures room { self.new.room ≡ self.old.room }
    {
        put_over(self.all.as_mut_slice(), at, bytes);
    }

    /// Keeps the first `len` bytes, and gives back the room of the others.
    #[inline(always)]
    pub fn cut(&mut self, len: usize)
        requires { len ≤ length self.old.bytes }
        ensures bytes { self.new.bytes ≡ take len self.old.bytes }
        ensures room { self.new.room + len ≡ self.old.room + length self.old.bytes }
    {
        self.len = len;
    }

    /// Takes out all that was written, and gives back its room.
    #[inline(always)]
    pub fn clear(&mut self)
        ensures bytes { self.new.bytes ≡ [] }
        ensures room { self.new.room ≡ self.old.room + length self.old.bytes }
    {
        self.cut(0);
    }
}

/// The two unsigned integers by which an unsigned hyper integer is encoded (RFC 4506, section 4.5),
/// for `numbers` to write it among others.
#[inline(always)]
pub fn halves(n: u64) -> (u32, u32)
    ensures text { numbers_text (result.0 ∷ result.1 ∷ []) ≡ to_be_bytes w64 n }
    ensures encoded { IsNumber w64 n (to_be_bytes w64 n) }
{
    ((n >> 32) as u32, (n % (1 << 32)) as u32)
}

/// The unsigned hyper integer that is encoded as these unsigned integers are, one after the other (RFC
/// 4506, section 4.5), for `hypers` to write them among others.
#[inline(always)]
pub fn hyper_of(high: u32, low: u32) -> u64
    ensures text { to_be_bytes w64 result ≡ numbers_text (high ∷ low ∷ []) }
    ensures high { IsNumber w32 high (to_be_bytes w32 high) }
    ensures low { IsNumber w32 low (to_be_bytes w32 low) }
{
    u64::from(high) * (1 << 32) + u64::from(low)
}

// Puts bytes over as many others.
#[inline(always)]
fn put_over(place: &mut [u8], at: usize, bytes: &[u8])
    requires { at + length bytes.now ≤ length place.old }
    ensures { place.new ≡ take at place.old ++ bytes.now ++ drop (at + length bytes.now) place.old }
{
    place[at..at + bytes.len()].copy_from_slice(bytes);
}

// Puts bytes over as many others, and zeros as their padding over those that follow. The last four of all these are zeros
// first, since a word is written faster than one to three bytes.
#[inline(always)]
fn put_padded(place: &mut [u8], at: usize, bytes: &[u8])
    requires { at + length (fixed_text bytes.now) ≤ length place.old }
    ensures { place.new ≡ take at place.old ++ fixed_text bytes.now ++ drop (at + length (fixed_text bytes.now)) place.old }
{
    if !bytes.is_empty() {
        put_over(
            place,
            at + bytes.len() + padding_of(bytes.len()) - 4,
            &[0; 4],
        );
    }
    put_over(place, at, bytes);
}

#[inline(always)]
fn padding_of(len: usize) -> usize
    ensures { result ≡ padding len }
{
    (4 - len % 4) % 4
}

#[inline(always)]
fn bytes_of(n: u32) -> [u8; 4]
    ensures text { result ≡ to_be_bytes w32 n }
    ensures encoded { IsNumber w32 n (to_be_bytes w32 n) }
{
    n.to_be_bytes()
}

#[inline(always)]
fn bytes_of_hyper(n: u64) -> [u8; 8]
    ensures text { result ≡ to_be_bytes w64 n }
    ensures encoded { IsNumber w64 n (to_be_bytes w64 n) }
{
    n.to_be_bytes()
}
