//! The sizes of a page and of its parts.
ghost use Rattle.std.specs.Prelude.{◌≡◌, ◌+◌, ◌≤◌, length};
ghost use Rattle.nfs_xdr.specs.Encoding.{padding};
ghost use Rattle.nfs_dirs.specs.Pages.{plus_bytes};

/// What a page has beside its entries: the directory's attributes, a verifier, and two words after
/// the entries.
pub const PAGE_HEAD_BYTES: usize = 104;

// What READDIRPLUS says of an entry's file: its attributes and its handle, or that there are none.
const SHOWN_BYTES: usize = 120;

const HIDDEN_BYTES: usize = 8;

/// The bytes of an entry: its word, its number, its name with its length and padding, and its cookie.
pub fn entry_bytes(name: &[u8]) -> usize
    ensures bytes { result ≡ 24 + length name.now + padding (length name.now) }
    ensures bound { result ≤ length name.now + 27 }
{
    24 + name.len() + (4 - name.len() % 4) % 4
}

/// What READDIRPLUS says beside that, where the caller may search the directory or may not.
pub fn plus_bytes(searchable: bool) -> usize
    ensures bytes { result ≡ plus_bytes searchable }
    ensures bound { result ≤ 120 }
{
    if searchable {
        SHOWN_BYTES
    } else {
        HIDDEN_BYTES
    }
}
