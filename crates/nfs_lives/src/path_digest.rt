//! The key of a server's handles, by what its description names.
ghost use Rattle.std.specs.Prelude.{◌≡◌, ℕ, List, [], ◌∷◌, ◌++◌, option_map};
ghost use Rattle.nfs_lives.specs.Paths.{rows_of, life_key, path_text, old_text};
ghost use Rattle.nfs_lives.specs.Rows.{HasTaken, Feeds, row_seen};
ghost use Rattle.sha2.specs.Hashers.{Holds256};

use crate::path_row::{PathRow, read_row, word_of};
use sha2::{Digest, Sha256};

/// A digest (SHA-256, FIPS 180-4) of what the lines of a description name, in their order: the
/// kinds and paths of its files, whatever their bytes and attributes are. It is fed a line at a
/// time, so that a line may be let go as soon as it is taken.
#[derive(Drop)]
pub struct PathDigest {
    digest: Sha256,
}

impl PathDigest {
    /// No line was taken.
    pub fn new() -> PathDigest
        ensures { HasTaken result [] }
    {
        PathDigest {
            digest: Sha256::new(),
        }
    }

    /// Takes the next line, which is given without its LF.
    pub fn take(&mut self, line: &[u8])
        ensures { (lines : List (List ℕ)) → HasTaken self.old lines → HasTaken self.new (lines ++ line.now ∷ []) }
    {
        if let Some(row) = read_row(line) {
            feed(&mut self.digest, row);
        }
    }

    /// The key for the handles of a life of the server with this key, where its description has the
    /// lines that were taken. Both keys have 8 bytes; this one is the first bytes of the digest of
    /// what the lines name, with the server's key after it.
    pub fn finish(self, key: [u8; 8]) -> [u8; 8]
        ensures { (lines : List (List ℕ)) → HasTaken self lines → result ≡ life_key key (rows_of lines) }
    {
        let mut digest = self.digest;
        digest.update(key.as_slice());
        let whole = digest.finalize();
        let mut first = [0; 8];
        first.copy_from_slice(&whole[..8]);
        first
    }
}

// One row more.
fn feed(digest: &mut Sha256, row: PathRow<'_>)
    ensures { Feeds digest.old (path_text (row_seen row.entry)) digest.new }
{
    put(digest, word_of(row.keyword));
    put(digest, b" ");
    put(digest, row.path);
    feed_old(digest, row.old);
    put(digest, b"\n");
}

// The other path, where the row has one.
fn feed_old(digest: &mut Sha256, old: Option<&[u8]>)
    ensures { Feeds digest.old (old_text (option_map (λ it. it.now) old.entry)) digest.new }
{
    if let Some(old) = old {
        put(digest, b" ");
        put(digest, old);
    }
}

fn put(digest: &mut Sha256, text: &[u8])
    ensures { Feeds digest.old text.now digest.new }
{
    digest.update(text);
}
