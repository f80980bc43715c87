//! The mount list: which clients mount which volumes.
ghost use Rattle.std.specs.Prelude.{◌≡◌, ◌≤◌, [], false, length, OnOk, OnErr};
ghost use Rattle.nfs_args.specs.MountAnswers.{IsMountAnswerOf, mount_text};
ghost use Rattle.nfs_args.specs.declared.procedure.MountProcedure.TheVariants as procedure;
ghost use Rattle.nfs_mount.specs.MountAnswers.{Mounts, dump_answer};
ghost use Rattle.nfs_mount.specs.Mounts.{IsMountList, is_in, is_of_another, with_mount, without_mount, without_addr, after_umnt};
ghost use Rattle.nfs_xdr.specs.Written.{Appends};

use crate::limits::{MAX_DUMP_BYTES, MAX_MOUNT_BYTES, MAX_MOUNTS};
use crate::mount::Mount;
use crate::outcome::MountOutcome;
use crate::replies::{write_client, write_denied, write_granted};
use crate::rules::volume_for;
use crate::volumes::root_handle;
use indexmap::IndexSet;
use nfs_args::chain::write_chain_end;
use nfs_exports::addr::Addr;
use nfs_exports::export_table::ExportTable;
use nfs_inodes::tree::Tree;
use nfs_xdr::output::Output;
use std::alloc::{AllocError, Global};
use std::marker::Model;

/// Which clients mount which volumes (RFC 1813, appendix I, section 5.2), in the order in which they
/// asked for them: no pair is there twice, and there are at most 1,024. Contracts see a list.
#[derive(Drop)]
pub struct MountList {
    mounts: IndexSet<Mount>,
}

impl Model for MountList {
    ghost use Rattle.std.specs.Prelude.{List, ◌≤◌, length};
    ghost use Rattle.nfs_mount.specs.declared.mount.Mount.{Mount as Pair};

    ghost Value = { List Pair };

    ghost view = { λ a. a.mounts.keys };

    ghost invariant = { λ a. length a.mounts.keys ≤ 1024 };
}

impl MountList {
    /// No client.
    pub fn new(alloc: Global) -> MountList
        ensures { result ≡ [] }
    {
        MountList {
            mounts: IndexSet::new(alloc),
        }
    }

    /// What always holds of the list, for proofs.
    pub fn law(&self)
        ensures { IsMountList self.now }
    {
        let _ = self.mounts.len();
    }

    /// The pairs, in the order in which clients asked for them.
    pub fn as_slice(&self) -> &[Mount]
        ensures { result.now ≡ self.now }
    {
        self.mounts.as_slice()
    }

    /// MNT (RFC 1813, appendix I, section 5.2.1) of the volume of exactly this path, by a client at
    /// this address. `Denied` by the first of the rules `PathLong`, `MountPath` and `Export` that
    /// fails; then the list is as before, and the answer has the rule's status. `Granted` where none
    /// fails: a new pair goes last, and the oldest of 1,025 goes; a pair that is there keeps its
    /// place; the answer has the handle of the volume's root. `Memory` only where no rule fails and
    /// the pair is new; then the list is as before, and nothing is written.
    pub fn mnt(
        &mut self,
        tree: &Tree,
        table: &ExportTable,
        addr: Addr,
        path: &[u8],
        out: &mut Output,
    ) -> MountOutcome
        requires { MAX_MOUNT_BYTES ≤ out.old.room }
        ensures { Mounts tree.now table.now addr path.now result self.old self.new out.old out.new }
    {
        let volume = match volume_for(tree, table, addr, path) {
            Ok(volume) => volume,
            Err(rule) => {
                write_denied(out, rule);
                return MountOutcome::Denied(rule);
            }
        };
        if let Err(refused) = self.add(Mount { addr, volume }) {
            return MountOutcome::Memory(refused);
        }
        write_granted(out, &root_handle(tree, volume));
        MountOutcome::Granted
    }

    /// UMNT (RFC 1813, appendix I, section 5.2.3): without the pair of this address and the volume of
    /// exactly this path. Where there is no such pair, the list is as before.
    pub fn umnt(&mut self, tree: &Tree, addr: Addr, path: &[u8])
        ensures { self.new ≡ after_umnt tree.now addr path.now self.old }
    {
        if let Some(volume) = tree.volume_named(path) {
            self.remove(Mount { addr, volume });
        }
    }

    /// UMNTALL (RFC 1813, appendix I, section 5.2.4): without the pairs of this address.
    pub fn umnt_all(&mut self, addr: Addr)
        ensures { self.new ≡ without_addr addr self.old }
    {
        self.mounts.retain(
            |mount: &Mount| -> bool
                ensures { result ≡ is_of_another addr mount.now }
            { mount.addr != addr },
        );
    }

    /// Writes the result of DUMP (RFC 1813, appendix I, section 5.2.2): the pairs in their order,
    /// addresses in dotted decimal form, volumes by their paths.
    pub fn write_dump(&self, tree: &Tree, out: &mut Output)
        requires { MAX_DUMP_BYTES ≤ out.old.room }
        ensures text { Appends (mount_text (dump_answer tree.now self.now)) out.old out.new }
        ensures encoded { IsMountAnswerOf procedure.Dump (dump_answer tree.now self.now) (mount_text (dump_answer tree.now self.now)) }
        ensures bound { length (mount_text (dump_answer tree.now self.now)) ≤ MAX_DUMP_BYTES }
    {
        for mount in self.mounts.as_slice() {
            write_client(out, tree, mount);
        }
        write_chain_end(out);
    }

    // With a pair, for which there is room first.
    fn add(&mut self, mount: Mount) -> Result<(), AllocError>
        ensures ok { OnOk result (self.new ≡ with_mount mount self.old) }
        ensures err { OnErr result (self.new ≡ self.old) }
        ensures absent { OnErr result (is_in mount self.old ≡ false) }
    {
        self.mounts.insert(mount)?;
        if self.mounts.len() > MAX_MOUNTS {
            self.mounts.shift_remove_index(0);
        }
        Ok(())
    }

    // Without a pair.
    fn remove(&mut self, mount: Mount)
        ensures { self.new ≡ without_mount mount self.old }
    {
        let _ = self.mounts.len();
        self.mounts.shift_remove(&mount);
    }
}
