//! Many bytes that are copied chunk by chunk.
ghost use Rattle.std.specs.Prelude.{◌≡◌, ◌+◌, ◌≤◌, ◌++◌, length, vec_len, vec_capacity};

// So many bytes are copied at once. The C library copies 8 KiB and more by one instruction of the
// processor, which takes half as long again where other work shares the caches, and no less where none
// does.
const COPIED: usize = 8128;

/// Puts some bytes after those of a list that has room for them.
#[inline(always)]
pub fn append(list: &mut Vec<u8>, bytes: &[u8])
    requires { vec_len list.old + length bytes.now ≤ vec_capacity list.old }
    ensures items { list.new.items ≡ list.old.items ++ bytes.now }
    ensures room { vec_capacity list.old ≤ vec_capacity list.new }
{
    let mut left = bytes;
    while left.len() > COPIED {
        let (chunk, rest) = left.split_at(COPIED);
        list.extend_from_slice(chunk).unwrap();
        left = rest;
    }
    list.extend_from_slice(left).unwrap();
}
