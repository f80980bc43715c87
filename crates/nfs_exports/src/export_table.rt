//! What is exported to whom (exports(5)): for each volume, patterns of addresses in order, each
//! with its options.
ghost use Rattle.std.specs.Prelude.{◌≡◌, ◌<◌, ◌≤◌, [], ◌∷◌, ◌++◌, Some, length, slice_get, OnOk, OnErr, option_copied};
ghost use Rattle.std.specs.Global.{Vec};
ghost use Rattle.std.specs.Vec.{vec_capacity, vec_len};
ghost use Rattle.nfs_exports.specs.Tables.{added, exports_of, grant, lists, pattern_count};

use crate::addr::Addr;
use crate::options::Options;
use crate::pattern::Pattern;
use std::alloc::{AllocError, Global};
use std::marker::Model;

/// A pattern of a volume, with its options.
#[derive(Clone, Copy, Debug, PartialEq, Eq)]
pub struct Export {
    /// Whom it is for.
    pub pattern: Pattern,
    /// What is allowed.
    pub options: Options,
}

/// The exports of each volume, in order. Contracts see a list for each volume.
#[derive(Drop)]
pub struct ExportTable {
    alloc: Global,
    volumes: Vec<Vec<Export>>,
    count: usize,
}

impl Model for ExportTable {
    ghost use Rattle.std.specs.Prelude.{◌≡◌, ◌≤◌, List};
    ghost use Rattle.nfs_exports.specs.Tables.{lists, pattern_count};
    ghost use Rattle.nfs_exports.specs.declared.export_table.Export.{Export};

    ghost Value = { List (List Export) };

    ghost view = { λ a. lists a.volumes.items };

    ghost invariant = { λ a. (a.count ≡ pattern_count (lists a.volumes.items)) × (a.count ≤ 256) };
}

impl ExportTable {
    /// No export.
    pub fn new(alloc: Global) -> ExportTable
        ensures { result ≡ [] }
    {
        ExportTable {
            alloc,
            volumes: Vec::new(alloc),
            count: 0,
        }
    }

    /// What always holds of the table, for proofs: it has at most 256 patterns, those of all volumes
    /// together.
    pub fn law(&self)
        ensures { pattern_count self.now ≤ 256 }
    {
        let _ = &self.count;
    }

    /// The number of patterns, those of all volumes together.
    pub fn pattern_count(&self) -> usize
        ensures { result ≡ pattern_count self.now }
    {
        self.count
    }

    /// The number of volumes.
    pub fn volume_count(&self) -> usize
        ensures { result ≡ length self.now }
    {
        self.volumes.len()
    }

    /// A volume more, after the others, without exports. Refused without memory, and then the
    /// table is as before.
    pub fn add_volume(&mut self) -> Result<(), AllocError>
        requires { length self.old < 64 }
        ensures ok { OnOk result (self.new ≡ self.old ++ [] ∷ []) }
        ensures err { OnErr result (self.new ≡ self.old) }
    {
        self.volumes.push(Vec::new(self.alloc))?;
        Ok(())
    }

    /// One export more, after the others of its volume, which is named by its index from 0.
    /// Refused without memory, and then the table is as before.
    pub fn add(
        &mut self,
        volume: usize,
        pattern: Pattern,
        options: Options,
    ) -> Result<(), AllocError>
        requires volume { volume < length self.old }
        requires count { pattern_count self.old < 256 }
        ensures ok { OnOk result (self.new ≡ added self.old volume (record { pattern = pattern; options = options })) }
        ensures err { OnErr result (self.new ≡ self.old) }
    {
        if let Err(fault) = push_to(&mut self.volumes, volume, Export { pattern, options }) {
            return Err(fault);
        }
        self.count += 1;
        Ok(())
    }

    /// The exports of a volume, by its index from 0, in the order in which they were added.
    #[inline(always)]
    pub fn patterns(&self, volume: usize) -> &[Export]
        ensures { result.now ≡ exports_of self.now volume }
    {
        match self.volumes.get(volume) {
            Some(exports) => exports.as_slice(),
            None => &[],
        }
    }

    /// The options of the volume's first pattern that covers the address. `None` where none does.
    /// Other volumes' patterns aren't looked at.
    #[inline(always)]
    pub fn grant(&self, volume: usize, addr: Addr) -> Option<&Options>
        ensures { option_copied result ≡ grant (exports_of self.now volume) addr }
    {
        for export in self.patterns(volume) {
            if export.pattern.covers(addr) {
                return Some(&export.options);
            }
        }
        None
    }
}

fn push_to(volumes: &mut Vec<Vec<Export>>, volume: usize, export: Export) -> Result<(), AllocError>
    requires { volume < length volumes.old.items }
    ensures ok { OnOk result (lists volumes.new.items ≡ added (lists volumes.old.items) volume export) }
    ensures err { OnErr result (lists volumes.new.items ≡ lists volumes.old.items) }
    ensures full { OnErr result ((exports : Vec Export) → slice_get volumes.old.items volume ≡ Some exports
        → vec_capacity exports ≡ vec_len exports) }
{
    volumes[volume].push(export)?;
    Ok(())
}
