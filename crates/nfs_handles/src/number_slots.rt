//! The slots that numbers lead to, by rising number. A number that is taken away leaves its place
//! behind, dead; where more than half of the places are, they go.
ghost use Rattle.std.specs.Prelude.{◌≡◌, ◌+◌, ◌<◌, ◌^◌, ◌++◌, ◌∷◌, ◌↔◌, [], ℕ, max, IsTrue, IfSome, IfNone, OnErr, OnOk, OnSome};
ghost use Rattle.std.specs.Prelude.{nat_eq, nat_lt};
ghost use Rattle.std.specs.Map.{lookup, remove_entry};
ghost use Rattle.nfs_handles.specs.Placed.{Rises, IsPlaceOf, HasNo, is_live, led};

use crate::number_slot::NumberSlot;
use crate::room::give_back;
use std::alloc::{AllocError, Global};
use std::marker::Model;

// So many dead places are left where there are few.
const FEW: usize = 16;

/// The slots that numbers lead to, and the next number.
#[derive(Drop)]
pub(crate) struct NumberSlots {
    places: Vec<NumberSlot>,
    dead: usize,
    next: u64,
}

impl Model for NumberSlots {
    ghost use Rattle.nfs_handles.specs.Placed.{Placed, Rises, led};

    ghost Value = { Placed };

    ghost view = { λ p. record { entries = led p.places.items; next = p.next } };

    ghost invariant = { λ p. Rises 0 p.places.items p.next };
}

impl NumberSlots {
    /// None; the first number is this one.
    pub(crate) fn new(alloc: Global, first: u64) -> NumberSlots
        ensures { result ≡ record { entries = []; next = first } }
    {
        NumberSlots {
            places: Vec::new(alloc),
            dead: 0,
            next: first,
        }
    }

    /// The next number.
    #[inline(always)]
    pub(crate) fn next(&self) -> u64
        ensures { result ≡ self.now.next }
    {
        self.next
    }

    /// Raises the next number to at least this one.
    pub(crate) fn raise_next(&mut self, next: u64)
        ensures entries { self.new.entries ≡ self.old.entries }
        ensures next { self.new.next ≡ max self.old.next next }
    {
        self.next = self.next.max(next);
    }

    /// The slot that a number leads to. Out of line, since a hint mostly spares the search.
    #[cold]
    #[inline(never)]
    pub(crate) fn get(&self, number: u64) -> Option<usize>
        ensures { result ≡ lookup (nat_eq number) self.now.entries }
    {
        let at = find(self.places.as_slice(), number)?;
        self.places[at].slot()
    }

    /// The next number leads to this slot from now on. Refused without memory, or where the slot is
    /// 2^32 - 1 or above; then nothing changes.
    #[inline(always)]
    pub(crate) fn push(&mut self, slot: usize) -> Result<(), AllocError>
        requires { self.old.next + 1 < 2 ^ 64 }
        ensures entries { OnOk result (self.new.entries ≡ self.old.entries ++ (self.old.next, slot) ∷ []) }
        ensures next { OnOk result (self.new.next ≡ self.old.next + 1) }
        ensures err { OnErr result (self.new ≡ self.old) }
    {
        let Some(place) = NumberSlot::new(self.next, slot) else {
            return Err(AllocError);
        };
        self.places.push(place)?;
        self.next += 1;
        Ok(())
    }

    /// The slot that a number led to, which it leads to no more.
    pub(crate) fn remove(&mut self, number: u64) -> Option<usize>
        ensures value { result ≡ lookup (nat_eq number) self.old.entries }
        ensures entries { OnSome result (self.new.entries ≡ remove_entry (nat_eq number) self.old.entries) }
        ensures next { self.new.next ≡ self.old.next }
        ensures same { IfNone result (self.new ≡ self.old) }
    {
        let at = find(self.places.as_slice(), number)?;
        let slot = self.places[at].slot()?;
        self.places[at] = NumberSlot::dead(number);
        self.dead = thin(&mut self.places, self.dead.saturating_add(1));
        Some(slot)
    }
}

// Where the place of a number stands. Up to the first place that went, it stands as far after the first
// as its number is above the first's, and after the last that went as far before the last as its
// number is below the last's; else it is found by halving.
#[inline(always)]
fn find(places: &[NumberSlot], number: u64) -> Option<usize>
    requires { (next : ℕ) × Rises 0 places.now next }
    ensures found { IfSome result (λ at. IsPlaceOf places.now number at) }
    ensures none { IfNone result (HasNo places.now number) }
{
    match find_at_once(places, number) {
        Some(at) => Some(at),
        None => find_by_halving(places, number),
    }
}

// Where the place of a number stands, if no place before it went, or none after it.
#[inline(always)]
fn find_at_once(places: &[NumberSlot], number: u64) -> Option<usize>
    ensures { IfSome result (λ at. IsPlaceOf places.now number at) }
{
    let above = number.checked_sub(places.first()?.number())? as usize;
    if stands_at(places, number, above) {
        return Some(above);
    }
    let below = places.last()?.number().checked_sub(number)? as usize;
    let at = places.len().checked_sub(below)?.checked_sub(1)?;
    if stands_at(places, number, at) {
        Some(at)
    } else {
        None
    }
}

#[inline(always)]
fn stands_at(places: &[NumberSlot], number: u64, at: usize) -> bool
    ensures { IsTrue result ↔ IsPlaceOf places.now number at }
{
    at < places.len() && places[at].number() == number
}

fn find_by_halving(places: &[NumberSlot], number: u64) -> Option<usize>
    requires { (next : ℕ) × Rises 0 places.now next }
    ensures found { IfSome result (λ at. IsPlaceOf places.now number at) }
    ensures none { IfNone result (HasNo places.now number) }
{
    let at = places.partition_point(
        |place: &NumberSlot| -> bool
            ensures { result ≡ nat_lt place.now.number number }
        { place.number() < number },
    );
    if stands_at(places, number, at) {
        Some(at)
    } else {
        None
    }
}

// Takes the dead places out where they are more than half, and answers how many are left. It takes no
// memory, and gives back what is no more needed.
fn thin(places: &mut Vec<NumberSlot>, dead: usize) -> usize
    ensures entries { led places.new.items ≡ led places.old.items }
    ensures rises { (next : ℕ) → Rises 0 places.old.items next → Rises 0 places.new.items next }
{
    if dead <= places.len() / 2 + FEW {
        return dead;
    }
    places.retain(
        |place: &NumberSlot| -> bool
            ensures { result ≡ is_live place.now }
        { place.slot().is_some() },
    );
    give_back(places);
    0
}
