//! Files that are synced.
ghost use Rattle.std.specs.Prelude.{◌≡◌, ℕ, List, Option, None, OnOk};

use std::fs::File;
use std::io::{self, Write};

/// A file that can be synced.
pub trait SyncFile: Write {
    /// The bytes that outlive the machine, where they are known.
    ghost synced: { Self → Option (List ℕ) };

    /// Has everything on disk that was written, and answers once it is there.
    fn sync(&mut self) -> io::Result<()>
        ensures contents { Self.contents self.new ≡ Self.contents self.old }
        ensures synced { OnOk result (synced self.new ≡ Self.contents self.new) };
}

impl SyncFile for File {
    ghost synced = { λ _. None };

    fn sync(&mut self) -> io::Result<()> {
        self.sync_data()
    }
}
