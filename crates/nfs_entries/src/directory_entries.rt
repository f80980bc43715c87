//! The entries of a directory: rows with an index of their names, and places by rising cookie. A place
//! leads to its row, and a row to its place. A name stands in its row, unless it is long. An entry that
//! goes leaves its place behind, dead; where half of them are, they go, and unused memory is given back.
ghost use Rattle.std.specs.Prelude.{ℕ, IsTrue, ◌↔◌, ◌≡◌, ◌+◌, ◌<◌, ◌≤◌, ◌++◌, ◌∷◌, [], false, OnOk, OnErr, IfSome, IfNone, ◌⊎◌, None};
ghost use Rattle.std.specs.Prelude.{nat_le, nat_lt, option_map, slice_get, filter, length, vec_len, vec_capacity, ◌^◌};
ghost use Rattle.std.specs.Iterator.{YieldsFirstBy, item_count};
ghost use Rattle.indexmap.specs.IndexMap.{spare as room};
ghost use Rattle.nfs_entries.specs.Listing.{AreFew, KeptValue, max_rows, entries_beyond, entry_named, number_named, without, listed, led, linked, is_live, settled, IsRowOf, HasNo, IsThinned, Rises};
ghost use Rattle.nfs_entries.specs.Listing as spec;
ghost use Rattle.nfs_entries.specs.Seen.{entry_seen, entries_left};

use crate::entry_data::{EntryData, EntryPosition};
use crate::entry_name::{EntryName, SoughtName};
use indexmap::IndexMap;
use nfs_handles::number::Number;
use std::alloc::{AllocError, Global};
use std::marker::Model;

// So many dead places are left where there are few entries.
const FEW: usize = 16;

// A place has four bytes for the index of its row, and a row as many for that of its place.
const MAX_ROWS: usize = u32::MAX as usize;

// The index in a place whose entry is gone. No row has it.
const NO_ROW: u32 = u32::MAX;

/// An entry.
#[derive(Clone, Copy)]
pub struct EntryView<'a> {
    /// Where a listing goes on after it.
    pub cookie: u64,
    /// Its name.
    pub name: &'a [u8],
    /// The file that it names.
    pub number: Number,
}

/// The entries of a directory, by rising cookie. A name is found by the index.
#[derive(Drop)]
pub struct DirectoryEntries {
    rows: IndexMap<EntryName, EntryData>,
    places: Vec<EntryPosition>,
    next: u64,
}

impl Model for DirectoryEntries {
    ghost use Rattle.std.specs.Prelude.{◌≤◌, ◌-◌, min, length, vec_len, vec_capacity};
    ghost use Rattle.indexmap.specs.IndexMap.{spare as room};
    ghost use Rattle.nfs_entries.specs.Listing.{Listed, listed, AreFew, IsKept, max_rows};

    ghost Value = { Listed };

    ghost view = { λ m. record {
      entries = listed m.rows.entries m.places.items;
      next = m.next;
      spare = min (min (max_rows - length m.rows.entries) (max_rows - length m.places.items)) (min (room m.rows) (vec_capacity m.places - vec_len m.places));
    } };

    ghost invariant = { λ m. IsKept m.rows.entries m.places.items m.next × AreFew m.rows.entries m.places.items × (length m.places.items ≤ max_rows) };
}

impl DirectoryEntries {
    /// No entries, where the first one takes this cookie.
    pub fn new(alloc: Global, first: u64) -> DirectoryEntries
        ensures entries { result.entries ≡ [] }
        ensures next { result.next ≡ first }
    {
        DirectoryEntries {
            rows: IndexMap::new(alloc),
            places: Vec::new(alloc),
            next: first,
        }
    }

    /// The cookie that the next entry takes.
    #[inline(always)]
    pub fn next(&self) -> u64
        ensures { result ≡ self.now.next }
    {
        self.next
    }

    /// Whether there are none.
    pub fn is_empty(&self) -> bool
        ensures { IsTrue result ↔ (self.now.entries ≡ []) }
    {
        self.rows.is_empty()
    }

    /// The number of the file that the entry of a name names. `None` where no entry has the name.
    #[inline(always)]
    pub fn number(&self, name: &[u8]) -> Option<Number>
        ensures { option_map (λ n. n.0) result ≡ number_named name.now self.now.entries }
    {
        match row_named(&self.rows, name) {
            Some((_, kept)) => Some(kept.number()),
            None => None,
        }
    }

    /// The entries, by rising cookie.
    pub fn entries(&self) -> Entries<'_>
        ensures { entries_left result ≡ self.now.entries }
    {
        Entries {
            rows: &self.rows,
            places: self.places.as_slice(),
        }
    }

    /// Those with cookies above this one. The first of them is found by halving.
    pub fn after(&self, cookie: u64) -> Entries<'_>
        ensures { entries_left result ≡ entries_beyond cookie self.now.entries }
    {
        Entries {
            rows: &self.rows,
            places: places_after(self.places.as_slice(), cookie),
        }
    }

    /// Room for one entry more. `AllocError` where there is no room, and either no memory for it or
    /// 2^32 - 1 places, of entries and of some that went.
    pub fn reserve(&mut self) -> Result<(), AllocError>
        ensures ok { OnOk result (0 < self.new.spare) }
        ensures full { OnErr result (self.old.spare ≡ 0) }
        ensures entries { self.new.entries ≡ self.old.entries }
        ensures next { self.new.next ≡ self.old.next }
    {
        if self.rows.len().max(self.places.len()) >= MAX_ROWS {
            return Err(AllocError);
        }
        self.rows.reserve(1)?;
        self.places.reserve(1)
    }

    /// One entry more, for which there is room. It goes last.
    pub fn push(&mut self, name: EntryName, number: Number)
        requires room { 0 < self.old.spare }
        requires absent { entry_named name self.old.entries ≡ None }
        requires next { self.old.next + 1 < 2 ^ 64 }
        ensures entries { self.new.entries
            ≡ self.old.entries ++ (record { cookie = self.old.next; name = name; number = number.0 }) ∷ [] }
        ensures next { self.new.next ≡ self.old.next + 1 }
    {
        let cookie = self.next;
        self.next += 1;
        let index = self.rows.len() as u32;
        let place = self.places.len() as u32;
        self.rows
            .insert(name, EntryData::new(place, number))
            .unwrap();
        self.places.push(EntryPosition::new(cookie, index)).unwrap();
    }

    /// Takes the entry of a name out, if there is one. It takes no memory, gives some back where much
    /// more is kept than the entries need, and leaves room for an entry where there was room.
    pub fn remove(&mut self, name: &[u8])
        ensures others { self.new.entries ≡ without name.now self.old.entries }
        ensures next { self.new.next ≡ self.old.next }
        ensures room { 0 < self.old.spare → 0 < self.new.spare }
    {
        let Some((index, kept)) = row_named(&self.rows, name) else {
            return;
        };
        let place = kept.place();
        self.rows.swap_remove_index(index);
        lead(&mut self.places, place, NO_ROW);
        settle(&mut self.places, &self.rows, index);
        thin(&mut self.places, &mut self.rows);
    }
}

/// Gives entries in turn, by rising cookie.
#[derive(Drop)]
pub struct Entries<'a> {
    rows: &'a IndexMap<EntryName, EntryData>,
    places: &'a [EntryPosition],
}

impl<'a> Iterator for Entries<'a> {
    type Item = EntryView<'a>;

    ghost next_gives = { YieldsFirstBy entry_seen entries_left };

    ghost remaining = { item_count entries_left };

    #[inline(always)]
    fn next(&mut self) -> Option<EntryView<'a>> {
        let (entry, rest) = first_live(self.rows, self.places)?;
        self.places = rest;
        Some(entry)
    }
}

// Those with cookies above this one, which come last.
fn places_after(places: &[EntryPosition], cookie: u64) -> &[EntryPosition]
    requires { (next : ℕ) × Rises 0 places.now next }
    ensures { result.now ≡ filter (λ p. nat_lt cookie p.cookie) places.now }
{
    let first = places.partition_point(
        |place: &EntryPosition| -> bool
            ensures { result ≡ nat_le place.now.cookie cookie }
        { place.cookie() <= cookie },
    );
    &places[first..]
}

// The first of the entries that still stand at some places, and the places after it.
#[inline(always)]
fn first_live<'a>(
    rows: &'a IndexMap<EntryName, EntryData>,
    places: &'a [EntryPosition],
) -> Option<(EntryView<'a>, &'a [EntryPosition])>
    ensures some { IfSome result (λ f. listed rows.now.entries places.now ≡ entry_seen f.0 ∷ listed rows.now.entries f.1.now) }
    ensures none { IfNone result (listed rows.now.entries places.now ≡ []) }
{
    for (at, place) in places.iter().enumerate() {
        if let Some(entry) = standing(rows, place) {
            return Some((entry, &places[at + 1..]));
        }
    }
    None
}

// The index of the row of a name, and what is kept there.
#[inline(always)]
fn row_named<'a>(
    rows: &'a IndexMap<EntryName, EntryData>,
    name: &[u8],
) -> Option<(usize, &'a EntryData)>
    ensures found { IfSome result (λ f. IsRowOf rows.now.entries name.now f.0 f.1.now) }
    ensures within { IfSome result (λ f. f.0 < length rows.now.entries) }
    ensures none { IfNone result (HasNo rows.now.entries name.now) }
{
    match rows.get_full(SoughtName { bytes: name }) {
        Some((index, _, kept)) => Some((index, kept)),
        None => None,
    }
}

// The place of the row that came to an index, if one did, leads there.
fn settle(places: &mut Vec<EntryPosition>, rows: &IndexMap<EntryName, EntryData>, index: usize)
    requires { index < max_rows }
    ensures items { places.new.items ≡ settled index (slice_get rows.now.entries index) places.old.items }
    ensures len { vec_len places.new ≡ vec_len places.old }
    ensures capacity { vec_capacity places.new ≡ vec_capacity places.old }
{
    if let Some((_, kept)) = rows.get_index(index) {
        lead(places, kept.place(), index as u32);
    }
}

// The place at an index leads to this row.
#[inline(always)]
fn lead(places: &mut Vec<EntryPosition>, at: usize, row: u32)
    ensures items { places.new.items ≡ led at row places.old.items }
    ensures len { vec_len places.new ≡ vec_len places.old }
    ensures capacity { vec_capacity places.new ≡ vec_capacity places.old }
{
    if at < places.len() {
        let cookie = places[at].cookie();
        places[at] = EntryPosition::new(cookie, row);
    }
}

// Takes the dead places out where they are more than half, or no entry is left, in no memory. Then
// memory is given back.
fn thin(places: &mut Vec<EntryPosition>, rows: &mut IndexMap<EntryName, EntryData>)
    requires rows { length rows.old.entries ≤ max_rows }
    requires places { length places.old.items ≤ max_rows }
    ensures kept { IsThinned rows.old.entries places.old.items rows.new.entries places.new.items }
    ensures few { AreFew rows.new.entries places.new.items }
    ensures rows { length rows.new.entries ≡ length rows.old.entries }
    ensures place { vec_len places.old < vec_capacity places.old → vec_len places.new < vec_capacity places.new }
    ensures len { vec_len places.new ≤ vec_len places.old }
    ensures row { 0 < room rows.old → 0 < room rows.new }
{
    if rows.is_empty() || places.len() / 2 > rows.len() + FEW {
        close_up(places, rows);
        link(places.as_slice(), rows);
        give_back(places, rows);
    }
}

// Gives memory back where there is room for more than four times as many entries. What is kept has
// room for as many rows again, and for the places that die until the next time.
fn give_back(places: &mut Vec<EntryPosition>, rows: &mut IndexMap<EntryName, EntryData>)
    requires { length rows.old.entries ≤ max_rows }
    ensures items { places.new.items ≡ places.old.items }
    ensures entries { rows.new.entries ≡ rows.old.entries }
    ensures place { vec_len places.old < vec_capacity places.old → vec_len places.new < vec_capacity places.new }
    ensures row { 0 < room rows.old → 0 < room rows.new }
{
    let most = places.capacity().max(rows.capacity());
    if most / 4 > places.len().saturating_add(FEW) {
        places.shrink_to(3 * (places.len() + FEW));
        rows.shrink_to(2 * (rows.len() + FEW));
    }
}

// Takes the dead places out, in no memory.
fn close_up(places: &mut Vec<EntryPosition>, rows: &IndexMap<EntryName, EntryData>)
    ensures items { places.new.items ≡ filter (is_live rows.now.entries) places.old.items }
    ensures len { vec_len places.new ≤ vec_len places.old }
    ensures capacity { vec_capacity places.new ≡ vec_capacity places.old }
{
    places.retain(
        |place: &EntryPosition| -> bool
            ensures { result ≡ is_live rows.entry.now.entries place.now }
        { standing(rows, place).is_some() },
    );
}

// Each row to which a place leads has that place.
fn link(places: &[EntryPosition], rows: &mut IndexMap<EntryName, EntryData>)
    requires { length places.now ≤ max_rows }
    ensures entries { rows.new.entries ≡ linked 0 places.now rows.old.entries }
    ensures room { room rows.new ≡ room rows.old }
{
    for (at, place) in places.iter().enumerate() {
        if let Some(kept) = rows.get_index_mut(place.index()) {
            kept.move_to(at as u32);
        }
    }
}

// The entry that stands at a place.
#[inline(always)]
fn standing<'a>(
    rows: &'a IndexMap<EntryName, EntryData>,
    place: &EntryPosition,
) -> Option<EntryView<'a>>
    ensures { option_map entry_seen result ≡ spec.standing rows.now.entries place.now }
{
    let (name, kept) = rows.get_index(place.index())?;
    Some(EntryView {
        cookie: place.cookie(),
        name: name.as_slice(),
        number: kept.number(),
    })
}
