//! What a service knows of its clients by their keys, beside the clients themselves.
ghost use Rattle.std.specs.Prelude.{◌≡◌, ◌+◌, ◌<◌, ◌≤◌, ◌^◌, ℕ, [], false, true, if◌then◌else◌, length, nat_lt, slice_set, vec_len, OnOk};
ghost use Rattle.nfs_loop.specs.Watching.{heard_at, held_count, hold_at, is_over, nothing_known, one_if_held, watch_at};

use std::alloc::{AllocError, Global};
use std::marker::Model;

/// Why a client that has something to say gets no turn for now.
#[derive(Clone, Copy, Debug, PartialEq, Eq)]
pub enum Hold {
    /// As many lines of denied calls wait as may.
    Lines,
    /// A denied call from its address was refused lately. It waits until then, in milliseconds since the
    /// service began.
    Until(u64),
}

/// Whether the time of a hold is over, so many milliseconds after the service began, where so many lines
/// wait as may, or not.
pub fn is_over(hold: Option<Hold>, is_full: bool, now: u64) -> bool
    ensures { result ≡ is_over is_full now hold }
{
    match hold {
        Some(Hold::Lines) => !is_full,
        Some(Hold::Until(until)) => until <= now,
        None => false,
    }
}

/// What is known of the client of a key.
#[derive(Clone, Copy)]
pub struct Watch {
    // When something was heard of it last, in seconds since the service began.
    heard: u64,
    // Why it gets no turn for now, if it gets none.
    hold: Option<Hold>,
    // Whether its peer is known to have ended its side.
    is_closing: bool,
}

/// When something was heard of each client last, which of them get no turn for now, and which have
/// ended their side, by their keys.
#[derive(Drop)]
pub struct Watches {
    watches: Vec<Watch>,
    // How many get no turn for now.
    held: usize,
}

impl Model for Watches {
    ghost use Rattle.std.specs.Prelude.{◌≡◌, List};
    ghost use Rattle.nfs_loop.specs.Watching.{held_count};
    ghost use Rattle.nfs_loop.specs.declared.watches.Watch.{Watch as Known};

    ghost Value = { List Known };

    ghost view = { λ w. w.watches.items };

    ghost invariant = { λ w. held_count w.watches.items ≡ w.held };
}

impl Watches {
    /// Of no client.
    pub fn new(alloc: Global) -> Watches
        ensures { result ≡ [] }
    {
        Watches {
            watches: Vec::new(alloc),
            held: 0,
        }
    }

    /// Above all keys of which something may be known.
    pub fn keys(&self) -> usize
        ensures { result ≡ length self.now }
    {
        self.watches.len()
    }

    /// Whether some get no turn for now.
    pub fn has_held(&self) -> bool
        ensures { result ≡ nat_lt 0 (held_count self.now) }
    {
        self.held > 0
    }

    /// Makes room for the client of a key.
    pub fn make_room(&mut self, key: usize) -> Result<(), AllocError>
        ensures room { OnOk result (key < length self.new) }
        ensures longer { length self.old ≤ length self.new }
        ensures stay { (k : ℕ) → watch_at self.new k ≡ watch_at self.old k }
    {
        lengthen(&mut self.watches, key)
    }

    /// Begins with a client that is heard of now.
    pub fn begin(&mut self, key: usize, seconds: u64, hold: Option<Hold>)
        ensures { self.new ≡ slice_set self.old key (record { heard = seconds; hold = hold; is_closing = false }) }
    {
        self.set(
            key,
            Watch {
                heard: seconds,
                hold,
                is_closing: false,
            },
        );
    }

    /// Why the client of a key gets no turn for now, if it gets none.
    pub fn hold(&self, key: usize) -> Option<Hold>
        ensures { result ≡ hold_at self.now key }
    {
        self.at(key).hold
    }

    /// Has the client of a key get no turn for now, or turns again.
    pub fn set_hold(&mut self, key: usize, hold: Option<Hold>)
        ensures { self.new ≡ slice_set self.old key (record (watch_at self.old key) { hold = hold }) }
    {
        let mut watch = self.at(key);
        watch.hold = hold;
        self.set(key, watch);
    }

    /// Whether the peer of a key's client is known to have ended its side.
    pub fn is_closing(&self, key: usize) -> bool
        ensures { result ≡ (watch_at self.now key).is_closing }
    {
        self.at(key).is_closing
    }

    /// The peer of a key's client has ended its side.
    pub fn set_closing(&mut self, key: usize)
        ensures closing { self.new ≡ slice_set self.old key (record (watch_at self.old key) { is_closing = true }) }
        ensures holds { (k : ℕ) → hold_at self.new k ≡ hold_at self.old k }
        ensures heard { (k : ℕ) → heard_at self.new k ≡ heard_at self.old k }
    {
        let mut watch = self.at(key);
        watch.is_closing = true;
        self.set(key, watch);
    }

    /// Where something was heard of the client of a key, so many seconds after the service began, keeps
    /// when.
    pub fn hear(&mut self, key: usize, seconds: u64, is_heard: bool)
        ensures heard { self.new ≡ (if is_heard
            then slice_set self.old key (record (watch_at self.old key) { heard = seconds }) else self.old) }
        ensures holds { (k : ℕ) → hold_at self.new k ≡ hold_at self.old k }
    {
        if is_heard {
            let mut watch = self.at(key);
            watch.heard = seconds;
            self.set(key, watch);
        }
    }

    /// When something was heard of the client of a key last, in seconds since the service began.
    pub fn heard(&self, key: usize) -> u64
        ensures { result ≡ heard_at self.now key }
    {
        self.at(key).heard
    }

    /// Whether the client of a key was not heard of since then.
    pub fn is_silent(&self, key: usize, since: u64) -> bool
        ensures { result ≡ nat_lt (watch_at self.now key).heard since }
    {
        self.at(key).heard < since
    }

    // What is known of the client of a key.
    fn at(&self, key: usize) -> Watch
        ensures { result ≡ watch_at self.now key }
    {
        match self.watches.get(key) {
            Some(watch) => *watch,
            None => nothing_known(),
        }
    }

    // From now on this is known of the client of a key.
    fn set(&mut self, key: usize, watch: Watch)
        ensures { self.new ≡ slice_set self.old key watch }
    {
        if key < self.watches.len() {
            let was = self.at(key);
            self.held = recount(self.held, was.hold, watch.hold);
            self.watches[key] = watch;
        }
    }
}

// Nothing is known.
fn nothing_known() -> Watch
    ensures { result ≡ nothing_known }
{
    Watch {
        heard: 0,
        hold: None,
        is_closing: false,
    }
}

// How many get no turn for now, once one of so many does or doesn't.
fn recount(held: usize, was: Option<Hold>, now: Option<Hold>) -> usize
    requires counted { one_if_held was ≤ held }
    requires fits { held + one_if_held now < 2 ^ 64 + one_if_held was }
    ensures { result + one_if_held was ≡ held + one_if_held now }
{
    match was {
        Some(_) => match now {
            Some(_) => held,
            None => held - 1,
        },
        None => match now {
            Some(_) => held + 1,
            None => held,
        },
    }
}

// Makes a list longer than this key.
fn lengthen(watches: &mut Vec<Watch>, key: usize) -> Result<(), AllocError>
    ensures room { OnOk result (key < vec_len watches.new) }
    ensures longer { vec_len watches.old ≤ vec_len watches.new }
    ensures stay { (k : ℕ) → watch_at watches.new.items k ≡ watch_at watches.old.items k }
    ensures count { held_count watches.new.items ≡ held_count watches.old.items }
{
    while watches.len() <= key {
        watches.push(nothing_known())?;
    }
    Ok(())
}
