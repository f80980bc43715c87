//! How much is received at once.
ghost use Rattle.std.specs.Prelude.{◌≡◌, ◌⊎◌, ◌+◌, ◌<◌, ◌≤◌, Some, IfSome, IfNone};
ghost use Rattle.nfs_serving.specs.Asked.{EndsWithRecord, left_of};

use nfs_rpc::framer::Begun;
use nfs_rpc::record::HEADER_BYTES;

/// The most bytes that are received at once: four records with 64 KiB of data each.
pub const MOST_RECEIVED: usize = 4 * (65_536 + 1_024);

/// The size of the records that come, without their headers, as the last one tells that came in two
/// chunks.
#[derive(Clone, Copy)]
pub(crate) struct ReceiveSize {
    record: Option<usize>,
}

impl ReceiveSize {
    /// No such record has come.
    pub(crate) fn new() -> ReceiveSize {
        ReceiveSize { record: None }
    }

    /// How many bytes are received next, by what has come of a record and what is left of it: as many
    /// as end with a record, should the next ones have its size. One that comes in two chunks has to be
    /// copied, and any other is read where it stands.
    pub(crate) fn next(&mut self, begun: Option<Begun>) -> usize
        ensures some { 0 < result }
        ensures most { result ≤ MOST_RECEIVED }
        ensures ends { IfSome self.new.record (λ len. left_of begun ≤ MOST_RECEIVED → HEADER_BYTES + len ≤ MOST_RECEIVED
            → EndsWithRecord MOST_RECEIVED (left_of begun) (HEADER_BYTES + len) result) }
        ensures cut { IfSome begun (λ b. b.come + b.left ≤ MOST_RECEIVED → self.new.record ≡ Some (b.come + b.left)) }
        ensures same { IfNone begun (self.new ≡ self.old) }
    {
        let left = match begun {
            Some(begun) => {
                self.record = Some(begun.come.saturating_add(begun.left));
                begun.left
            }
            None => 0,
        };
        match self.record {
            Some(record) => whole_records(left, HEADER_BYTES.saturating_add(record)),
            None => MOST_RECEIVED,
        }
    }
}

// So many bytes, and after them as many whole records of a size as fit. Where not even one does, as
// many bytes as there may be.
fn whole_records(left: usize, size: usize) -> usize
    requires { 0 < size }
    ensures some { 0 < result }
    ensures most { result ≤ MOST_RECEIVED }
    ensures ends { left ≤ MOST_RECEIVED → (0 < left) ⊎ (size ≤ MOST_RECEIVED) → EndsWithRecord MOST_RECEIVED left size result }
{
    let after = MOST_RECEIVED.saturating_sub(left);
    match MOST_RECEIVED - after % size {
        0 => MOST_RECEIVED,
        n => n,
    }
}
