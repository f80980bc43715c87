//! Descriptions whose text is digested while it is written.
ghost use Rattle.std.specs.Prelude.{◌≡◌, ℕ, List, [], ◌++◌};
ghost use Rattle.nfs_saving.specs.Digests.{HasDigested, IsDigestOf, digest_of};

use memchr::memchr;
use nfs_describe::fault::DescribeFault;
use nfs_describe::output::Output;
use sha2::{Digest, Sha256};

/// An output whose text is digested too.
#[derive(Drop)]
pub struct Digested<O> {
    out: O,
    digest: DescriptionDigest,
}

impl<O: Output> Digested<O> {
    /// Over an output to which nothing was written.
    pub fn new(out: O) -> Digested<O>
        ensures { O.has out [] → HasDigested O.has result [] }
    {
        Digested {
            out,
            digest: DescriptionDigest::new(),
        }
    }

    /// The output, and the digest of its text.
    pub fn finish(self) -> (O, [u8; 32])
        ensures { (text : List ℕ) → HasDigested O.has self text → O.has result.0 text × (result.1 ≡ digest_of text) }
    {
        let Digested { out, digest } = self;
        (out, digest.finish())
    }
}

impl<O: Output> Output for Digested<O> {
    ghost has = { λ it text. HasDigested O.has it text };

    fn put(&mut self, part: &[u8]) -> Result<(), DescribeFault> {
        self.out.put(part)?;
        self.digest.take(part);
        Ok(())
    }
}

/// The digest (SHA-256, FIPS 180-4) of a description, whatever the key in its first line is: of what stands
/// after that line, from its LF on.
#[derive(Drop)]
pub struct DescriptionDigest {
    digest: Sha256,
    // Whether the first line has ended.
    is_after_key: bool,
}

impl DescriptionDigest {
    /// Nothing was taken.
    pub fn new() -> DescriptionDigest
        ensures { IsDigestOf result [] }
    {
        DescriptionDigest {
            digest: Sha256::new(),
            is_after_key: false,
        }
    }

    /// Takes the next part.
    pub fn take(&mut self, part: &[u8])
        ensures { (before : List ℕ) → IsDigestOf self.old before → IsDigestOf self.new (before ++ part.now) }
    {
        if self.is_after_key {
            self.digest.update(part);
            return;
        }
        if let Some(end) = memchr(b'\n', part) {
            self.digest.update(&part[end..]);
            self.is_after_key = true;
        }
    }

    /// The digest of what was taken.
    pub fn finish(self) -> [u8; 32]
        ensures { (text : List ℕ) → IsDigestOf self text → result ≡ digest_of text }
    {
        let DescriptionDigest { digest, .. } = self;
        digest.finalize()
    }
}
