//! The slots that values are kept in.
ghost use Rattle.std.specs.Prelude.{◌≡◌, ◌≢◌, ℕ, [], Some, None, IfOk, IfSome, IfNone, IsSome};
ghost use Rattle.std.specs.Prelude.{nat_lt, option_copied, vec_capacity};
ghost use Rattle.std.specs.Borrow.{sem};
ghost use Rattle.std.specs.Option.{option_copied_mut};
ghost use Rattle.std.specs.Option.Follows.{option_follows_value};
ghost use Rattle.nfs_handles.specs.SlotList.{AllHeld, IsNextSlot, Updates, get};
ghost use Rattle.nfs_handles.specs.Lending.{LendsSlot, LendsStored, LendsStoredIf};
ghost use Rattle.nfs_handles.specs.Slotted.{value_in};
ghost use Rattle.nfs_handles.specs.VacantSlots.{PopsVacant};

use crate::room::room_kept;
use std::alloc::{AllocError, Global};
use std::cmp::Reverse;
use std::collections::BinaryHeap;
use std::marker::Model;

/// A file's value, with its number.
#[derive(Drop)]
pub(crate) struct Stored<T> {
    pub(crate) number: u64,
    pub(crate) value: T,
}

/// Values in slots, each with its number. The next value comes into the least vacant slot.
#[derive(Drop)]
pub(crate) struct Slots<T> {
    // The last of them has a value.
    slots: Vec<Option<Stored<T>>>,
    // The vacant ones among them, and slots beyond them that were vacant when they went. It has memory
    // for as many more as have a value, so a value is taken out in no memory.
    vacant: BinaryHeap<Reverse<usize>>,
}

impl<T> Model for Slots<T> {
    ghost use Rattle.std.specs.Prelude.{min, vec_capacity};
    ghost use Rattle.std.specs.BinaryHeap.{heap_items, heap_capacity};
    ghost use Rattle.nfs_handles.specs.SlotList.{SlotList};
    ghost use Rattle.nfs_handles.specs.VacantSlots.{HasVacant};
    ghost use Rattle.nfs_handles.specs.declared.slots.Stored.{Stored};

    ghost Value = { SlotList (Stored T) };

    ghost view = { λ s. record {
      slots = s.slots.items;
      capacity = min (vec_capacity s.slots) (heap_capacity s.vacant);
    } };

    ghost invariant = { λ s. HasVacant s.slots.items (heap_items s.vacant) (heap_capacity s.vacant) };
}

impl<T: Drop> Slots<T> {
    /// None.
    pub(crate) fn new(alloc: Global) -> Slots<T>
        ensures { result.slots ≡ [] }
    {
        Slots {
            slots: Vec::new(alloc),
            vacant: BinaryHeap::new(alloc),
        }
    }

    /// Makes room for the next value, and answers the slot that it comes into, the least that is vacant.
    /// Refused without memory; then nothing else changes.
    #[inline(always)]
    pub(crate) fn reserve(&mut self) -> Result<usize, AllocError>
        ensures slot { IfOk result (IsNextSlot self.new) }
        ensures same { self.new ≡ record self.old { capacity = self.new.capacity } }
    {
        if let Some(slot) = self.least_vacant() {
            return Ok(slot);
        }
        self.slots.reserve(1)?;
        let room = self.slots.capacity().saturating_sub(self.vacant.len());
        self.vacant.reserve(room)?;
        Ok(self.slots.len())
    }

    // The least slot with nothing in it, unless all have a value.
    #[inline(always)]
    fn least_vacant(&self) -> Option<usize>
        ensures some { IfSome result (IsNextSlot self.now) }
        ensures none { IfNone result (AllHeld self.now.slots) }
    {
        match self.vacant.peek() {
            Some(least) if least.0 < self.slots.len() => Some(least.0),
            _ => None,
        }
    }

    /// Puts a value with its number into the slot that was reserved.
    #[inline(always)]
    pub(crate) fn fill(&mut self, slot: usize, number: u64, value: T)
        requires { IsNextSlot self.old slot }
        ensures { Updates self.old self.new slot (Some (record { number = number; value = value })) }
    {
        let stored = Some(Stored { number, value });
        if slot == self.slots.len() {
            // None among the slots is vacant, so what is left lies beyond them.
            self.vacant.clear();
            self.slots.push_reserved(stored);
            return;
        }
        self.vacant.pop();
        self.slots[slot] = stored;
    }

    /// A slot with nothing in it.
    #[inline(always)]
    pub(crate) fn vacant(&self) -> usize
        ensures { get self.now result ≡ None }
    {
        self.slots.len()
    }

    /// What is in a slot.
    #[inline(always)]
    pub(crate) fn get(&self, slot: usize) -> Option<&Stored<T>>
        ensures { option_copied result ≡ get self.now slot }
    {
        match self.slots.get(slot) {
            Some(Some(stored)) => Some(stored),
            _ => None,
        }
    }

    /// The value in a slot.
    #[inline(always)]
    pub(crate) fn value(&self, slot: usize) -> Option<&T>
        ensures { option_copied result ≡ value_in self.now slot }
    {
        match self.get(slot) {
            Some(stored) => Some(&stored.value),
            None => None,
        }
    }

    /// The value in a slot, to be changed.
    #[inline(always)]
    pub(crate) fn value_mut(&mut self, slot: usize) -> Option<&mut T>
        ensures* writes_back { sem 𝓛 (LendsSlot T.row self.entry slot result) }
        ensures value { option_copied_mut result ≡ value_in self.old slot }
    {
        match self.get_mut(slot) {
            Some(stored) => Some(&mut stored.value),
            None => None,
        }
    }

    // What is in a slot, to be changed.
    #[inline(always)]
    fn get_mut(&mut self, slot: usize) -> Option<&mut Stored<T>>
        ensures* writes_back { sem 𝓛 (LendsStoredIf T.row self.entry slot result) }
        ensures value { option_copied_mut result ≡ get self.old slot }
    {
        if self.get(slot).is_some() {
            Some(self.stored_mut(slot))
        } else {
            None
        }
    }

    // What is in a slot that has a value, to be changed.
    #[inline(always)]
    fn stored_mut(&mut self, slot: usize) -> &mut Stored<T>
        requires { IsSome (get self.old slot) }
        ensures* writes_back { sem 𝓛 (LendsStored T.row self.entry slot result) }
        ensures value { get self.old slot ≡ Some result.now }
    {
        inside(&mut self.slots[slot])
    }

    /// Takes the value out of a slot. Vacant slots at the end go, and with them memory that is no more
    /// needed.
    #[inline(always)]
    pub(crate) fn take(&mut self, slot: usize) -> Option<T>
        ensures value { result ≡ value_in self.old slot }
        ensures vacant { get self.new slot ≡ None }
        ensures others { (other : ℕ) → other ≢ slot → get self.new other ≡ get self.old other }
    {
        if slot >= self.slots.len() {
            return None;
        }
        let stored = self.slots[slot].take()?;
        if slot + 1 < self.slots.len() {
            self.vacant.push(Reverse(slot)).unwrap();
        } else {
            pop_vacant(&mut self.slots);
            self.shrink();
        }
        Some(stored.value)
    }

    // Gives memory back, where less than a quarter of it is in use.
    #[inline(always)]
    fn shrink(&mut self)
        ensures { self.new.slots ≡ self.old.slots }
    {
        let kept = room_kept(self.slots.len(), self.slots.capacity());
        if let Some(room) = kept {
            self.shrink_to(room);
        }
    }

    // Gives memory back, but for so many slots.
    #[inline(never)]
    fn shrink_to(&mut self, room: usize)
        ensures { self.new.slots ≡ self.old.slots }
    {
        self.slots.shrink_to(room);
        let len = self.slots.len();
        self.vacant.retain(
            |slot: &Reverse<usize>| -> bool
                ensures { result ≡ nat_lt slot.now.0 len }
            { slot.0 < len },
        );
        let needed = self.vacant.len() + len;
        self.vacant.shrink_to(needed.max(room));
    }
}

// Takes the vacant slots at the end out.
#[inline(always)]
fn pop_vacant<X: Drop>(slots: &mut Vec<Option<X>>)
    ensures pops { PopsVacant slots.old.items slots.new.items }
    ensures capacity { vec_capacity slots.new ≡ vec_capacity slots.old }
{
    while let Some(None) = slots.last() {
        slots.pop();
    }
}

// What an option that has a value holds, to be changed.
#[inline(always)]
fn inside<X>(option: &mut Option<X>) -> &mut X
    requires { IsSome option.old }
    ensures* writes_back { sem 𝓛 (option_follows_value X.row option.entry result) }
    ensures value { option.old ≡ Some result.now }
{
    match option {
        Some(value) => value,
        None => unreachable!(),
    }
}
