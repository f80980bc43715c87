//! Where a description is written.
ghost use Rattle.std.specs.Prelude.{◌≡◌, ℕ, List, Some, OnOk};
ghost use Rattle.std.specs.Io.Buffered.{writer_contents};
ghost use Rattle.nfs_describe.specs.Outputs.{Takes};

use crate::fault::DescribeFault;
use std::io::{BufWriter, Write};

/// Where a description is written, part by part, so that no more of it than a part is in memory.
pub trait Output {
    /// That these bytes may be what was written.
    ghost has: { Self → List ℕ → Type 0 };

    /// Writes the next part. `Write` where the system refuses it, `Memory`.
    fn put(&mut self, part: &[u8]) -> Result<(), DescribeFault>
        ensures { OnOk result (Takes has self.old part.now self.new) };
}

impl Output for Vec<u8> {
    ghost has = { λ written text. written.items ≡ text };

    fn put(&mut self, part: &[u8]) -> Result<(), DescribeFault> {
        self.extend_from_slice(part)?;
        Ok(())
    }
}

impl<W: Write + Drop> Output for BufWriter<W> {
    ghost has = { λ writer text. writer_contents W.contents writer ≡ Some text };

    fn put(&mut self, part: &[u8]) -> Result<(), DescribeFault> {
        match self.write_all(part) {
            Ok(()) => Ok(()),
            Err(error) => Err(DescribeFault::Write(error)),
        }
    }
}
