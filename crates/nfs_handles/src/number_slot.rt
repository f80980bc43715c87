//! What is kept of a number.
ghost use Rattle.std.specs.Prelude.{◌≡◌, ◌-◌, ◌^◌, ◌≤◌, Some, None, IfSome, IfNone};

use std::marker::Model;

// Stands for no slot.
const DEAD: u32 = u32::MAX;

/// A number, and the slot that it leads to, unless it is dead. As bytes, the number needs no padding.
#[derive(Drop)]
pub(crate) struct NumberSlot {
    number: [u8; 8],
    slot: u32,
}

const _: () = prove!(size_of::<NumberSlot>() == 12);

impl Model for NumberSlot {
    ghost use Rattle.std.specs.Int.{w64, from_le_bytes};
    ghost use Rattle.nfs_handles.specs.Placed.{Place, slot_of};

    ghost Value = { Place };

    ghost view = { λ p. record { number = from_le_bytes w64 p.number; slot = slot_of p.slot } };
}

impl NumberSlot {
    /// A number that leads to a slot. None where that is 2^32 - 1 or above, and has no place here.
    #[inline(always)]
    pub(crate) fn new(number: u64, slot: usize) -> Option<NumberSlot>
        ensures some { IfSome result (λ p. p ≡ record { number = number; slot = Some slot }) }
        ensures none { IfNone result (2 ^ 32 - 1 ≤ slot) }
    {
        if slot < DEAD as usize {
            Some(NumberSlot {
                number: number.to_le_bytes(),
                slot: slot as u32,
            })
        } else {
            None
        }
    }

    /// A number that is dead.
    #[inline(always)]
    pub(crate) fn dead(number: u64) -> NumberSlot
        ensures { result ≡ record { number = number; slot = None } }
    {
        NumberSlot {
            number: number.to_le_bytes(),
            slot: DEAD,
        }
    }

    /// The number.
    #[inline(always)]
    pub(crate) fn number(&self) -> u64
        ensures { result ≡ self.now.number }
    {
        u64::from_le_bytes(self.number)
    }

    /// The slot that it leads to, unless it is dead.
    #[inline(always)]
    pub(crate) fn slot(&self) -> Option<usize>
        ensures { result ≡ self.now.slot }
    {
        if self.slot == DEAD {
            None
        } else {
            Some(self.slot as usize)
        }
    }
}
