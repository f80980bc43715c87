//! Numbered files: slots with their values, and the slots that numbers lead to.
ghost use Rattle.std.specs.Prelude.{not, ◌||◌, nat_eq, nat_le};
ghost use Rattle.std.specs.Prelude.{◌≡◌, ℕ, ◌-◌, ◌^◌, ◌<◌, ◌≤◌, ◌≢◌, Some, IsSome, IfSome, IfNone, IfOk, OnOk, OnErr};
ghost use Rattle.std.specs.Prelude.{IfErr, true, length, bytes_eq, option_copied};
ghost use Rattle.std.specs.Borrow.{sem};
ghost use Rattle.std.specs.Map.{lookup};
ghost use Rattle.std.specs.Option.{option_copied_mut};
ghost use Rattle.nfs_handles.specs.NumberedFiles.{NumberedFiles, at, value_at, unused, raised, with_key};
ghost use Rattle.nfs_handles.specs.NumberedFiles.{IsNumbered};
ghost use Rattle.nfs_handles.specs.Handles.{handle_at, is_shaped, key_in, live_with, Names};
ghost use Rattle.nfs_handles.specs.Handles.{LivesWith, reading, reading_without};
ghost use Rattle.nfs_handles.specs.declared.reading.Reading.TheVariants.{Stale};
ghost use Rattle.nfs_handles.specs.Slotted.{AllLeadBack, LeadsOr, tag_of};
ghost use Rattle.nfs_handles.specs.Changes.{Adds, Puts, Takes, LendsValue};

use crate::fault::PutFault;
use crate::number::{Hint, Number};
use crate::number_slots::NumberSlots;
use crate::reading::{NoFile, Reading};
use crate::slots::Slots;
use std::alloc::{AllocError, Global};
use std::marker::Model;

// The first bytes of each handle.
const MAGIC: [u8; 4] = *b"NFS3";

// The last tag. No file is in a slot from there on, since no number leads to one.
const LAST_TAG: usize = u32::MAX as usize;

/// Files that each have a number of their own, beside the number of the next and the key of the
/// server whose files they are. No number is given twice. A new handle's tag is the least that no file
/// has, which is the slot of its file, so the file is found without a search.
#[derive(Drop)]
pub struct Files<T> {
    slots: Slots<T>,
    places: NumberSlots,
    key: [u8; 8],
}

impl<T> Model for Files<T> {
    ghost use Rattle.nfs_handles.specs.NumberedFiles.{NumberedFiles};
    ghost use Rattle.nfs_handles.specs.Slotted.{IsKept, slotted};

    ghost Value = { NumberedFiles T };

    ghost view = { λ f. slotted f.slots f.places.entries f.places.next f.key };

    ghost invariant = { λ f. IsKept f.slots f.places.entries f.places.next f.key };
}

impl<T: Drop> Files<T> {
    /// No files; the first will have the number `first`.
    pub fn new(alloc: Global, key: [u8; 8], first: u64) -> Files<T>
        requires { 1 ≤ first }
        ensures { result ≡ unused first key }
    {
        Files {
            slots: Slots::new(alloc),
            places: NumberSlots::new(alloc, first),
            key,
        }
    }

    /// What always holds of the files, for proofs: their numbers rise, and each was given.
    pub fn law(&self)
        ensures { IsNumbered self.now }
    {
        let _ = &self.places;
    }

    /// The number that the next new file gets, unless it is the last, 2^64 - 1.
    pub fn next(&self) -> u64
        ensures { result ≡ self.now.next }
    {
        self.places.next()
    }

    /// The key of the server whose files these are.
    pub fn key(&self) -> [u8; 8]
        ensures { result ≡ self.now.key }
    {
        self.key
    }

    /// Raises the number that the next new file gets to at least this one.
    pub fn raise_next(&mut self, next: u64)
        ensures { self.new ≡ raised self.old next }
    {
        self.places.raise_next(next);
    }

    /// Gives the files another key: each handle has it from now on.
    pub fn set_key(&mut self, key: [u8; 8])
        ensures { self.new ≡ with_key self.old key }
    {
        self.key = key;
    }

    /// Adds a file, and answers its number. `Spent` exactly where the next number is 2^64 - 1,
    /// `Memory` where there is no memory or 2^32 - 1 files live; both hand the value back and change
    /// nothing.
    #[inline(always)]
    pub fn put(&mut self, value: T) -> Result<Number, PutFault<T>>
        ensures { Puts self.old value result self.new }
    {
        let number = self.places.next();
        if number == u64::MAX {
            return Err(PutFault::Spent(value));
        }
        let slot = match self.slots.reserve() {
            Ok(slot) => slot,
            Err(refused) => return Err(PutFault::Memory(value, refused)),
        };
        match self.places.push(slot) {
            Ok(()) => {
                self.slots.fill(slot, number, value);
                Ok(Number(number, Hint(tag_of(slot))))
            }
            Err(refused) => Err(PutFault::Memory(value, refused)),
        }
    }

    /// Adds a file where numbers are left, and answers its number. Refused without memory, or where
    /// 2^32 - 1 files live; then the value is dropped, and nothing changes.
    #[inline(always)]
    pub fn add(&mut self, value: T) -> Result<Number, AllocError>
        requires { self.old.next < 2 ^ 64 - 1 }
        ensures adds { OnOk result (Adds self.old value self.new) }
        ensures number { IfOk result (λ n. n.0 ≡ self.old.next) }
        ensures err { OnErr result (self.new ≡ self.old) }
    {
        match self.put(value) {
            Ok(number) => Ok(number),
            Err(PutFault::Memory(_, refused)) => Err(refused),
            Err(PutFault::Spent(_)) => unreachable!(),
        }
    }

    /// What the bytes of a handle say.
    pub fn read(&self, handle: &[u8]) -> Reading
        ensures { result ≡ reading self.now handle.now }
    {
        match self.find(handle) {
            Ok((number, _)) => Reading::Live(Number::new(number.0)),
            Err(NoFile::Stale) => Reading::Stale,
            Err(NoFile::Bad) => Reading::Bad,
        }
    }

    /// The file that a handle names, with its number. `Stale` and `Bad` as a handle reads.
    #[inline(always)]
    pub fn find(&self, handle: &[u8]) -> Result<(Number, &T), NoFile>
        ensures found { IfOk result (λ file. Names self.now handle.now file.0 file.1.now) }
        ensures none { IfErr result (λ why. reading self.now handle.now ≡ reading_without why) }
    {
        if !is_shaped(handle) {
            return Err(NoFile::Bad);
        }
        if !self.has_key_of(handle) {
            return Err(NoFile::Stale);
        }
        let t = &handle[12..16];
        let n = &handle[16..];
        let tag = u32::from_be_bytes([t[0], t[1], t[2], t[3]]);
        let number = u64::from_be_bytes([n[0], n[1], n[2], n[3], n[4], n[5], n[6], n[7]]);
        if !self.was_given(number) {
            return Err(NoFile::Bad);
        }
        let number = Number(number, Hint(tag));
        match self.living(tag, number) {
            Some(value) => Ok((number, value)),
            None => Err(NoFile::Stale),
        }
    }

    // Whether a handle has the key of these files.
    #[inline(always)]
    fn has_key_of(&self, handle: &[u8]) -> bool
        requires { length handle.now ≡ 24 }
        ensures { result ≡ bytes_eq (key_in handle.now) self.now.key }
    {
        let k = &handle[4..12];
        [k[0], k[1], k[2], k[3], k[4], k[5], k[6], k[7]] == self.key
    }

    // Whether a number was given.
    #[inline(always)]
    fn was_given(&self, number: u64) -> bool
        ensures { result ≡ not (nat_eq number 0 || nat_le self.now.next number) }
    {
        number != 0 && number < self.places.next()
    }

    // The file that lives under a number that was given, where it has this tag.
    #[inline(always)]
    fn living(&self, tag: u32, number: Number) -> Option<&T>
        ensures found { IfSome result (λ value. LivesWith self.now tag number.0 value.now) }
        ensures none { IfNone result (live_with tag number.0 (at self.now number.0) ≡ Stale) }
    {
        let slot = slot_at(&self.slots, &self.places, number)?;
        if tag_of(slot) != tag {
            return None;
        }
        self.slots.value(slot)
    }

    /// The handle of a file that lives. It never names another.
    #[inline(always)]
    pub fn handle(&self, number: Number) -> [u8; 24]
        requires { IsSome (at self.now number.0) }
        ensures { handle_at self.now number.0 ≡ Some result }
    {
        match self.handle_of(number) {
            Some(handle) => handle,
            None => unreachable!(),
        }
    }

    /// The handle of the file of a number, if it lives.
    #[inline(always)]
    pub fn handle_of(&self, number: Number) -> Option<[u8; 24]>
        ensures { result ≡ handle_at self.now number.0 }
    {
        let slot = slot_at(&self.slots, &self.places, number)?;
        let k = self.key;
        let t = tag_of(slot).to_be_bytes();
        let n = number.0.to_be_bytes();
        Some([
            MAGIC[0], MAGIC[1], MAGIC[2], MAGIC[3], k[0], k[1], k[2], k[3], k[4], k[5], k[6], k[7],
            t[0], t[1], t[2], t[3], n[0], n[1], n[2], n[3], n[4], n[5], n[6], n[7],
        ])
    }

    /// The file of a number, if it lives.
    #[inline(always)]
    pub fn get(&self, number: Number) -> Option<&T>
        ensures { option_copied result ≡ value_at self.now number.0 }
    {
        self.slots
            .value(slot_at(&self.slots, &self.places, number)?)
    }

    /// The file of a number, if it lives, to be changed; it keeps its number and its handle.
    #[inline(always)]
    pub fn get_mut(&mut self, number: Number) -> Option<&mut T>
        ensures* writes_back { sem 𝓛 (LendsValue T.row self.entry number.0 result) }
        ensures value { option_copied_mut result ≡ value_at self.old number.0 }
    {
        let slot = slot_of(&self.slots, &self.places, number);
        self.slots.value_mut(slot)
    }

    /// Takes the file of a number away, if it lives. From then on its handle is stale.
    #[inline(always)]
    pub fn take(&mut self, number: Number) -> Option<T>
        ensures { Takes self.old number.0 result self.new }
    {
        let slot = self.places.remove(number.0)?;
        self.slots.take(slot)
    }
}

// The slot that a number leads to: the one of its hint, where this number stands there, and else the
// one of its place.
#[inline(always)]
fn slot_at<T: Drop>(slots: &Slots<T>, places: &NumberSlots, number: Number) -> Option<usize>
    requires { AllLeadBack slots.now places.now.entries }
    ensures { result ≡ lookup (nat_eq number.0) places.now.entries }
{
    if let Some(stored) = slots.get(number.1.0 as usize) {
        if stored.number == number.0 {
            return Some(number.1.0 as usize);
        }
    }
    places.get(number.0)
}

// The slot that a number leads to, or else a vacant one.
#[inline(always)]
fn slot_of<T: Drop>(slots: &Slots<T>, places: &NumberSlots, number: Number) -> usize
    requires { AllLeadBack slots.now places.now.entries }
    ensures { LeadsOr slots.now places.now.entries number.0 result }
{
    match slot_at(slots, places, number) {
        Some(slot) => slot,
        None => slots.vacant(),
    }
}

// The tag of a file in a slot.
#[inline(always)]
fn tag_of(slot: usize) -> u32
    ensures { result ≡ tag_of slot }
{
    slot.min(LAST_TAG) as u32
}

// Whether bytes have the length of a handle and begin as one.
#[inline(always)]
fn is_shaped(handle: &[u8]) -> bool
    ensures shape { result ≡ is_shaped handle.now }
    ensures length { result ≡ true → length handle.now ≡ 24 }
{
    if handle.len() != 24 {
        return false;
    }
    let m = &handle[..4];
    [m[0], m[1], m[2], m[3]] == MAGIC
}
