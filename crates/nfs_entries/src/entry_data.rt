//! What is kept of an entry.
ghost use Rattle.std.specs.Prelude.{◌≡◌};

use nfs_handles::number::{Hint, Number};
use std::marker::Model;

/// What is kept beside a name: the index of its place, and the number of a file. As bytes, the number needs
/// no padding, so that this takes 16 bytes.
#[derive(Drop)]
pub(crate) struct EntryData {
    place: u32,
    hint: Hint,
    fileid: [u8; 8],
}

const _: () = prove!(size_of::<EntryData>() == 16);

impl Model for EntryData {
    ghost use Rattle.std.specs.Int.{w64, from_le_bytes};
    ghost use Rattle.nfs_entries.specs.Listing.{KeptValue};

    ghost Value = { KeptValue };

    ghost view = { λ k. record { place = k.place; number = from_le_bytes w64 k.fileid } };
}

impl EntryData {
    /// The index of a place, and a number.
    #[inline(always)]
    pub(crate) fn new(place: u32, number: Number) -> EntryData
        ensures { result ≡ record { place = place; number = number.0 } }
    {
        EntryData {
            place,
            hint: number.1,
            fileid: number.0.to_le_bytes(),
        }
    }

    /// The index of the entry's place.
    #[inline(always)]
    pub(crate) fn place(&self) -> usize
        ensures { result ≡ self.now.place }
    {
        self.place as usize
    }

    /// The entry has its place at another index.
    #[inline(always)]
    pub(crate) fn move_to(&mut self, place: u32)
        ensures { self.new ≡ record { place = place; number = self.old.number } }
    {
        self.place = place;
    }

    /// The file that the entry names.
    #[inline(always)]
    pub(crate) fn number(&self) -> Number
        ensures { result.0 ≡ self.now.number }
    {
        Number(u64::from_le_bytes(self.fileid), self.hint)
    }
}

/// The place of an entry: its cookie, and the index of the row that has its name. As bytes, the cookie
/// needs no padding, so that a place takes 12 bytes and not 16.
#[derive(Drop)]
pub(crate) struct EntryPosition {
    cookie: [u8; 8],
    index: u32,
}

const _: () = prove!(size_of::<EntryPosition>() == 12);

impl Model for EntryPosition {
    ghost use Rattle.std.specs.Int.{w64, from_le_bytes};
    ghost use Rattle.nfs_entries.specs.Listing.{PlaceValue};

    ghost Value = { PlaceValue };

    ghost view = { λ p. record { cookie = from_le_bytes w64 p.cookie; index = p.index } };
}

impl EntryPosition {
    /// A cookie, and the index of a row.
    #[inline(always)]
    pub(crate) fn new(cookie: u64, index: u32) -> EntryPosition
        ensures { result ≡ record { cookie = cookie; index = index } }
    {
        EntryPosition {
            cookie: cookie.to_le_bytes(),
            index,
        }
    }

    /// Where a listing goes on after the entry.
    #[inline(always)]
    pub(crate) fn cookie(&self) -> u64
        ensures { result ≡ self.now.cookie }
    {
        u64::from_le_bytes(self.cookie)
    }

    /// The index of the row.
    #[inline(always)]
    pub(crate) fn index(&self) -> usize
        ensures { result ≡ self.now.index }
    {
        self.index as usize
    }
}
