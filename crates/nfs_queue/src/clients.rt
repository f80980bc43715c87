//! Members by keys, and a queue of those that wait for a turn.
ghost use Rattle.std.specs.Prelude.{length, ◌≡◌, ◌≢◌, ◌⊎◌, ◌↔◌, ◌<◌, ◌≤◌, ℕ, [], ◌∷◌, ◌++◌, None, Some, true, false, IsTrue, IsNone, IfNone, IfOk, OnOk, OnErr, OnSome, IfSome, IsSome, option_map, ◌+◌, ◌^◌};
ghost use Rattle.slab.specs.Slab.{get, slab_len, Updates, SameValues, HasRoomFor};
ghost use Rattle.nfs_queue.specs.Queues.{AreApart, is_waiting, with_ready, with_key, IsCalled};

use slab::Slab;
use std::alloc::{AllocError, Global};
use std::collections::VecDeque;
use std::marker::Model;

/// Members by keys, and a queue of those that wait for a turn.
#[derive(Drop)]
pub struct Clients<M> {
    members: Slab<M>,
    queue: VecDeque<usize>,
    // Whether the member of a key waits.
    flags: Vec<bool>,
}

impl<M> Model for Clients<M> {
    ghost use Rattle.std.specs.Prelude.{vec_len};
    ghost use Rattle.std.specs.Coded.{coded×, coded_ℕ, coded_list};
    ghost use Rattle.std.specs.VecDeque.{deque_capacity};
    ghost use Rattle.slab.specs.Slab.{slab_code};
    ghost use Rattle.nfs_queue.specs.Queues.{Waiting, IsQueue};

    ghost Value = { Waiting M };

    ghost coded = { coded× (slab_code M.code) (coded× (coded_list coded_ℕ) coded_ℕ) };

    ghost view = { λ c. (c.members, (c.queue.items, vec_len c.flags)) };

    ghost invariant = { λ c. IsQueue c.members c.queue.items c.flags.items (deque_capacity c.queue) };
}

impl<M: Drop> Clients<M> {
    /// None.
    pub fn new(alloc: Global) -> Clients<M>
        ensures members { result.0.slots ≡ [] }
        ensures queue { result.1.0 ≡ [] }
    {
        Clients {
            members: Slab::new(alloc),
            queue: VecDeque::new(alloc),
            flags: Vec::new(alloc),
        }
    }

    /// How many there are.
    pub fn len(&self) -> usize
        ensures { result ≡ slab_len self.now.0 }
    {
        self.members.len()
    }

    /// How many wait for a turn, each once.
    pub fn waiting(&self) -> usize
        ensures len { result ≡ length self.now.1.0 }
        ensures apart { AreApart self.now.1.0 }
    {
        self.queue.len()
    }

    /// Whether one waits for a turn.
    pub fn is_any_waiting(&self) -> bool
        ensures { IsTrue result ↔ (self.now.1.0 ≢ []) }
    {
        self.queue.len() > 0
    }

    /// Above all keys.
    pub fn keys(&self) -> usize
        ensures value { result ≡ self.now.1.1 }
        ensures above { (key : ℕ) → IsSome (get self.now.0 key) → key < result }
    {
        self.flags.len()
    }

    /// The member of a key, if one has it and is not at its turn.
    pub fn get(&self, key: usize) -> Option<&M>
        ensures { option_map (λ member. member.now) result ≡ get self.now.0 key }
    {
        self.members.get(key)
    }

    /// The key that the next member has.
    pub fn next_key(&self) -> usize
        ensures { result ≡ self.now.0.vacant_key }
    {
        self.members.vacant_key()
    }

    /// Adds a member, which doesn't wait, where its key is not the greatest number that there is. Refused,
    /// and the member dropped, where there is no memory.
    pub fn add(&mut self, member: M) -> Result<(), AllocError>
        requires { self.old.0.vacant_key + 1 < 2 ^ 64 }
        ensures added { OnOk result (Updates self.old.0 self.new.0 self.old.0.vacant_key (Some member)) }
        ensures vacant { OnOk result (get self.old.0 self.old.0.vacant_key ≡ None) }
        ensures len { OnOk result (slab_len self.new.0 ≡ slab_len self.old.0 + 1) }
        ensures err { OnErr result (SameValues self.old.0 self.new.0) }
        ensures queue { self.new.1.0 ≡ self.old.1.0 }
    {
        self.make_room()?;
        self.members.insert_reserved(member);
        Ok(())
    }

    // Makes room for one more.
    fn make_room(&mut self) -> Result<(), AllocError>
        requires { self.old.0.vacant_key + 1 < 2 ^ 64 }
        ensures room { OnOk result (HasRoomFor self.new.0 1) }
        ensures within { OnOk result (self.new.0.vacant_key < self.new.1.1) }
        ensures members { self.new.0 ≡ record self.old.0 { capacity = self.new.0.capacity } }
        ensures queue { self.new.1.0 ≡ self.old.1.0 }
    {
        self.members.reserve(1)?;
        let key = self.members.vacant_key();
        if key < self.flags.len() {
            return Ok(());
        }
        self.queue.reserve(key + 1)?;
        self.flags.resize(key + 1, false)
    }

    /// Calls the one that has waited longest to its turn. It is put back with its key before anything
    /// else is added.
    pub fn next(&mut self) -> Option<(usize, M)>
        ensures some { IfSome result (λ r. IsCalled self.old self.new r.0 r.1) }
        ensures none { IfNone result ((self.old.1.0 ≡ []) × (self.new ≡ self.old)) }
        ensures keys { self.new.1.1 ≡ self.old.1.1 }
    {
        let Some(key) = self.queue.pop_front() else {
            return None;
        };
        self.flags[key] = false;
        match self.members.try_remove(key) {
            Some(member) => Some((key, member)),
            None => unreachable!(),
        }
    }

    /// Puts one back that was called, after all others that wait, if it waits again.
    pub fn put_back(&mut self, key: usize, member: M, waits: bool)
        requires key { self.old.0.vacant_key ≡ key }
        requires room { HasRoomFor self.old.0 1 }
        requires within { key < self.old.1.1 }
        ensures back { Updates self.old.0 self.new.0 key (Some member) }
        ensures was { get self.old.0 key ≡ None }
        ensures queue { self.new.1.0 ≡ with_key waits key self.old.1.0 }
        ensures keys { self.new.1.1 ≡ self.old.1.1 }
    {
        self.members.insert_reserved(member);
        if waits {
            self.flags[key] = true;
            self.queue.push_back_reserved(key);
        }
    }

    /// Has the member of a key wait for a turn after the others, if it doesn't wait yet.
    pub fn make_ready(&mut self, key: usize)
        ensures members { self.new.0 ≡ self.old.0 }
        ensures queue { self.new.1.0 ≡ with_ready (get self.old.0 key) key self.old.1.0 }
        ensures keys { self.new.1.1 ≡ self.old.1.1 }
    {
        if self.members.contains(key) && !self.flags[key] {
            self.flags[key] = true;
            self.queue.push_back_reserved(key);
        }
    }

    /// Takes a member away that doesn't wait.
    pub fn remove(&mut self, key: usize) -> Option<M>
        ensures value { IfSome result (λ m. (get self.old.0 key ≡ Some m) × (is_waiting key self.old.1.0 ≡ false)) }
        ensures away { OnSome result (Updates self.old.0 self.new.0 key None) }
        ensures none { IfNone result ((self.new ≡ self.old) × ((get self.old.0 key ≡ None) ⊎ (is_waiting key self.old.1.0 ≡ true))) }
        ensures queue { self.new.1.0 ≡ self.old.1.0 }
        ensures keys { self.new.1.1 ≡ self.old.1.1 }
    {
        if !self.members.contains(key) || self.flags[key] {
            return None;
        }
        self.members.try_remove(key)
    }
}
