//! How many calls came of each procedure, for who watches a server. No answer depends on it.
ghost use Rattle.std.specs.Prelude.{◌≡◌, ◌<◌, slice_index, replicate};
ghost use Rattle.nfs_args.specs.Procedures.{mount_number, procedure_number};
ghost use Rattle.nfs_server.specs.Counting.{one_more, one_more_at};

use nfs_args::procedure::{MountProcedure, Procedure};
use std::marker::Model;

/// How many calls came of each procedure of NFS and of MOUNT, granted and denied ones, retransmissions
/// among them. Calls of another version, program or procedure aren't counted. A count stays at
/// `u64::MAX` once it is there.
#[derive(Drop)]
pub struct CallCounts {
    nulls: u64,
    nfs: [u64; 22],
    mount: [u64; 6],
}

impl Model for CallCounts {
    ghost use Rattle.nfs_server.specs.Counting.{Counts};

    ghost Value = { Counts };

    ghost view = { λ a. record { nulls = a.nulls; nfs = a.nfs; mount = a.mount } };
}

impl CallCounts {
    /// No call.
    pub fn new() -> CallCounts
        ensures { result ≡ record { nulls = 0; nfs = replicate 22 0; mount = replicate 6 0 } }
    {
        CallCounts {
            nulls: 0,
            nfs: [0; 22],
            mount: [0; 6],
        }
    }

    /// The calls of procedure 0, which is NULL in both programs.
    pub fn nulls(&self) -> u64
        ensures { result ≡ self.now.nulls }
    {
        self.nulls
    }

    /// The calls of a procedure of NFS other than NULL.
    pub fn of_nfs(&self, procedure: Procedure) -> u64
        ensures { result ≡ slice_index self.now.nfs (procedure_number procedure) }
    {
        self.nfs[place_of(procedure)]
    }

    /// The calls of a procedure of MOUNT other than NULL.
    pub fn of_mount(&self, procedure: MountProcedure) -> u64
        ensures { result ≡ slice_index self.now.mount (mount_number procedure) }
    {
        self.mount[mount_place_of(procedure)]
    }

    /// All calls that are counted, up to `u64::MAX`.
    pub fn total(&self) -> u64 {
        let nfs = sum_of(self.nfs.as_slice());
        let mount = sum_of(self.mount.as_slice());
        self.nulls.saturating_add(nfs).saturating_add(mount)
    }

    /// Counts a call of NULL.
    #[inline(always)]
    pub(crate) fn count_null(&mut self)
        ensures { self.new ≡ record self.old { nulls = one_more self.old.nulls } }
    {
        self.nulls = self.nulls.saturating_add(1);
    }

    /// Counts a call of another procedure of NFS.
    #[inline(always)]
    pub(crate) fn count_nfs(&mut self, procedure: Procedure)
        ensures { self.new ≡ record self.old { nfs = one_more_at (procedure_number procedure) self.old.nfs } }
    {
        let place = place_of(procedure);
        self.nfs[place] = self.nfs[place].saturating_add(1);
    }

    /// Counts a call of another procedure of MOUNT.
    #[inline(always)]
    pub(crate) fn count_mount(&mut self, procedure: MountProcedure)
        ensures { self.new ≡ record self.old { mount = one_more_at (mount_number procedure) self.old.mount } }
    {
        let place = mount_place_of(procedure);
        self.mount[place] = self.mount[place].saturating_add(1);
    }
}

// All of some counts together, up to `u64::MAX`.
fn sum_of(counts: &[u64]) -> u64 {
    let mut all = 0u64;
    for count in counts {
        all = all.saturating_add(*count);
    }
    all
}

// Where a procedure is counted: at its number.
#[inline(always)]
fn place_of(procedure: Procedure) -> usize
    ensures number { result ≡ procedure_number procedure }
    ensures within { result < 22 }
{
    procedure.row().number as usize
}

#[inline(always)]
fn mount_place_of(procedure: MountProcedure) -> usize
    ensures number { result ≡ mount_number procedure }
    ensures within { result < 6 }
{
    procedure.number() as usize
}
