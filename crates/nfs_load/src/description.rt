//! What a description says: its lines in turn.
ghost use Rattle.std.specs.Prelude.{◌≡◌, IfOk, length};
ghost use Rattle.nfs_inodes.specs.Law.{Law};
ghost use Rattle.nfs_load.specs.Descriptions.{Describes};

use crate::load_error::LoadError;
use crate::loaded::Loaded;
use crate::loading::Loading;
use nfs_text::lines::Lines;
use std::alloc::Global;

/// The tree and the table that a text describes. The first fault of the first faulty line where
/// there is one; at the end of the text `NoServer`, then `NoVolume`, for the line after the last.
/// `Memory` where there is none for a line that is in order as far as it was looked at, and what
/// was made is given back.
pub fn load(alloc: Global, text: &[u8]) -> Result<Loaded, LoadError>
    ensures described { Describes text.now result }
    ensures law { IfOk result (λ loaded. Law loaded.tree) }
    ensures lists { IfOk result (λ loaded. length loaded.table ≡ length loaded.tree.volumes) }
{
    let mut loading = Loading::new(alloc);
    let mut lines = Lines::new(text);
    while let Some(line) = lines.next() {
        if let Err(error) = loading.take(line) {
            return Err(error);
        }
    }
    loading.finish()
}
