//! What a content is, however it is kept.
ghost use Rattle.std.specs.Prelude.{◌≡◌, ◌+◌, ◌<◌, ◌≤◌, List, ℕ, OnOk, OnErr, drop, length};
ghost use Rattle.nfs_content.specs.Bytes.{IsFirstChunk, written, sized};
ghost use Rattle.nfs_content.specs.Limits.{max_content};

use std::alloc::AllocError;

/// The bytes of a regular file, at most 1,099,511,627,776.
pub trait Content {
    /// The bytes.
    ghost bytes: { Self → List ℕ };

    /// How many there are.
    fn len(&self) -> usize
        ensures { result ≡ length (bytes self.now) };

    /// A first run of the bytes from an offset on, which has one where there is one.
    fn run_at(&self, offset: usize) -> &[u8]
        ensures { IsFirstChunk result.now (drop offset (bytes self.now)) };

    /// Puts bytes at an offset, zeros in a gap before them; no bytes change nothing. Refused only
    /// without memory for what the content grows by, or keeps no page of, and then it is as before.
    fn put_at(&mut self, offset: usize, new: &[u8]) -> Result<(), AllocError>
        requires { offset + length new.now ≤ max_content }
        ensures ok { OnOk result (bytes self.new ≡ written (bytes self.old) offset new.now) }
        ensures err { OnErr result (bytes self.new ≡ bytes self.old) }
        ensures full { OnErr result (0 < length new.now) };

    /// The first so many bytes, and zeros where there are fewer. Refused only without memory for
    /// what the content grows by, and then it is as before.
    fn set_len(&mut self, len: usize) -> Result<(), AllocError>
        requires { len ≤ max_content }
        ensures ok { OnOk result (bytes self.new ≡ sized (bytes self.old) len) }
        ensures err { OnErr result (bytes self.new ≡ bytes self.old) }
        ensures full { OnErr result (length (bytes self.old) < len) };
}
