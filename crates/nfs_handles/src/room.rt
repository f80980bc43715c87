//! How much memory vectors keep.
ghost use Rattle.std.specs.Prelude.{◌≡◌, ◌+◌, ◌*◌, ◌<◌, ◌≤◌, max, IfSome, IfNone};

// For so many items memory is kept in any case.
const FEW: usize = 1024;

/// For how many items memory is to be kept, where less than a quarter of it is in use: for twice as many
/// as there are, so that it is long until memory is given back again, or taken.
#[inline(always)]
pub(crate) fn room_kept(len: usize, capacity: usize) -> Option<usize>
    ensures some { IfSome result (λ room. (room ≡ max 1024 (2 * len)) × (room < capacity)) }
    ensures none { IfNone result (capacity ≤ max 1024 (4 * len + 3)) }
{
    if capacity > FEW && len < capacity / 4 {
        Some(FEW.max(2 * len))
    } else {
        None
    }
}

/// Gives memory back, where less than a quarter of it is in use.
pub(crate) fn give_back<X>(items: &mut Vec<X>)
    ensures { items.new.items ≡ items.old.items }
{
    if let Some(room) = room_kept(items.len(), items.capacity()) {
        items.shrink_to(room);
    }
}
