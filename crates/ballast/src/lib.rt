//! Want of memory, for tests: all of a process's memory is taken, and given back little by
//! little.
#![tactic(auto)]

ghost use Rattle.std.specs.Prelude.{◌≡◌, ◌-◌, ◌<◌, ◌≤◌, nat_lt, IfOk};

use std::alloc::{AllocError, Global};
use std::marker::Model;

/// Blocks of memory that hold nothing; contracts see their number. They are never touched, so they cost address space alone.
#[derive(Drop)]
pub struct Ballast {
    blocks: Vec<Vec<u8>>,
}

impl Model for Ballast {
    ghost use Rattle.std.specs.Prelude.{ℕ, vec_len};

    ghost Value = { ℕ };

    ghost view = { λ b. vec_len b.blocks };
}

/// How many blocks there may be.
const MOST: usize = 100_000;

// Up to here each size is tried, since the allocator keeps chunks that were freed for requests of just
// their size.
const SMALL: usize = 4_096;

impl Ballast {
    /// Takes all memory that there is, in blocks that get smaller and smaller. Refused where
    /// there is none for the list of blocks.
    pub fn new(alloc: Global) -> Result<Ballast, AllocError>
        ensures { IfOk result (λ ballast. ballast ≤ MOST) }
    {
        let mut blocks = Vec::with_capacity(alloc, MOST)?;
        let mut size = 1usize << 40;
        for _ in 0..MOST {
            match Vec::with_capacity(alloc, size) {
                Ok(block) => {
                    if blocks.push(block).is_err() {
                        break;
                    }
                }
                Err(_) if size <= 8 => break,
                Err(_) if size <= SMALL => size -= 8,
                Err(_) => size /= 2,
            }
        }
        Ok(Ballast { blocks })
    }

    /// Gives the smallest block back. `false` where none is left.
    pub fn lighten(&mut self) -> bool
        ensures given { result ≡ nat_lt 0 self.old }
        ensures left { self.new ≡ self.old - 1 }
    {
        self.blocks.pop().is_some()
    }
}
