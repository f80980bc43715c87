//! The tree that a server has, kept as a description.
ghost use Rattle.std.specs.Prelude.{◌≡◌, ℕ, List, [], IfOk, OnOk, OnErr};
ghost use Rattle.nfs_saving.specs.Saving.{IsDigest, IsDone, IsRefused, IsSaved, MayReplace, Replaces};
ghost use Rattle.nfs_describe.specs.Outputs.{Takes};
ghost use Rattle.nfs_describe.specs.Texts.{Says};
ghost use Rattle.nfs_inodes.specs.Changes.{with_key};

use crate::digested::Digested;
use crate::key::{KEY_BYTES, given_or_new};
use crate::saved_file::{DiskFile, SavedFile};
use nfs_describe::description::describe;
use nfs_describe::fault::DescribeFault;
use nfs_describe::output::Output;
use nfs_server::server::Server;
use nfs_source::fault::Fault;
use std::alloc::{AllocError, Global};
use std::io;
use std::random::RandomSource;
use std::rt::Files;

/// Whether a tree was written.
#[derive(Clone, Copy)]
pub enum Saved {
    /// It was, in the place of the file.
    Written,
    /// It wasn't, since it is as it was saved last.
    Unchanged,
}

/// Writes the description of a server's tree and exports under a key, or under a new one: to a file
/// beside the one of this name, which it then replaces.
///
/// `CannotWrite` where the system refuses a step, `CannotRead` where the system has no new key, `Memory`. The
/// file of that name is then as it was, with nothing beside it; only where its directory can't be synced it is
/// the new one.
pub fn save<R: Files + RandomSource>(
    rt: &R,
    alloc: Global,
    name: &str,
    server: &Server,
    key: Option<[u8; KEY_BYTES]>,
) -> Result<(), Fault> {
    let mut file = DiskFile::new(rt, alloc, name)?;
    save_to(rt, alloc, &mut file, server, key)
}

/// The same in the place of this file.
pub fn save_to<R: RandomSource, F: SavedFile>(
    rt: &R,
    alloc: Global,
    file: &mut F,
    server: &Server,
    key: Option<[u8; KEY_BYTES]>,
) -> Result<(), Fault>
    ensures saved { OnOk result ((text : List ℕ) × IsSaved key server.now text (F.named file.old) (F.named file.new)) }
    ensures refused { OnErr result (IsRefused key server.now (F.named file.old) (F.named file.new)) }
{
    let key = given_or_new(rt, alloc, key)?;
    let mut part = begin(file)?;
    describe_server(alloc, file, &mut part, server, key)?;
    replace(file, part)
}

/// The same as `save`, unless the tree is described as it was when this digest was taken, whatever the key is;
/// the digest is that of the new file then.
pub fn save_changed<R: Files + RandomSource>(
    rt: &R,
    alloc: Global,
    name: &str,
    server: &Server,
    key: Option<[u8; KEY_BYTES]>,
    saved: &mut Option<[u8; 32]>,
) -> Result<Saved, Fault>
    ensures digest { OnOk result (IsDigest key server.now saved.new) }
    ensures refused { OnErr result (saved.new ≡ saved.old) }
{
    let mut file = DiskFile::new(rt, alloc, name)?;
    save_changed_to(rt, alloc, &mut file, server, key, saved)
}

/// The same in the place of this file.
pub fn save_changed_to<R: RandomSource, F: SavedFile>(
    rt: &R,
    alloc: Global,
    file: &mut F,
    server: &Server,
    key: Option<[u8; KEY_BYTES]>,
    saved: &mut Option<[u8; 32]>,
) -> Result<Saved, Fault>
    ensures done { IfOk result (λ done. IsDone done key server.now saved.old saved.new (F.named file.old) (F.named file.new)) }
    ensures digest { OnOk result (IsDigest key server.now saved.new) }
    ensures refused { OnErr result ((saved.new ≡ saved.old)
        × IsRefused key server.now (F.named file.old) (F.named file.new)) }
{
    let key = given_or_new(rt, alloc, key)?;
    let mut out = Digested::new(begin(file)?);
    describe_server(alloc, file, &mut out, server, key)?;
    let (part, digest) = out.finish();
    if *saved == Some(digest) {
        file.remove();
        return Ok(Saved::Unchanged);
    }
    replace(file, part)?;
    *saved = Some(digest);
    Ok(Saved::Written)
}

// A file beside the one that is replaced.
fn begin<F: SavedFile>(file: &mut F) -> Result<F::Part, Fault>
    ensures kept { F.named file.new ≡ F.named file.old }
    ensures empty { IfOk result (λ part. F.Part.has part []) }
{
    match file.begin() {
        Ok(part) => Ok(part),
        Err(error) => Err(give_up(file, error)),
    }
}

// Writes the description of a server's tree and exports under a key beside the file.
fn describe_server<F: SavedFile, O: Output>(
    alloc: Global,
    file: &mut F,
    out: &mut O,
    server: &Server,
    key: [u8; KEY_BYTES],
) -> Result<(), Fault>
    ensures kept { F.named file.new ≡ F.named file.old }
    ensures written { OnOk result ((text : List ℕ) × Says (with_key server.now.state.tree key) server.now.setup.exports text × Takes O.has out.old text out.new) }
{
    match describe(alloc, out, server.tree(), server.exports(), key) {
        Ok(()) => Ok(()),
        Err(DescribeFault::Write(error)) => Err(give_up(file, error)),
        Err(DescribeFault::Memory) => {
            file.remove();
            Err(Fault::Memory(AllocError))
        }
    }
}

// The text beside the file has its name then. Where that is refused nothing is left beside it, and the text
// before has the name; only where its directory can't be synced it may be the new one.
fn replace<F: SavedFile>(file: &mut F, part: F::Part) -> Result<(), Fault>
    ensures replaced { OnOk result ((text : List ℕ) → F.Part.has part text → Replaces (F.named file.old) text (F.named file.new)) }
    ensures refused { OnErr result ((text : List ℕ) → F.Part.has part text → MayReplace (F.named file.old) text (F.named file.new)) }
{
    match file.replace(part) {
        Ok(()) => Ok(()),
        Err(error) => Err(give_up(file, error)),
    }
}

// Takes away what stands beside the file. That it can't be written.
fn give_up<F: SavedFile>(file: &mut F, error: io::Error) -> Fault
    ensures { F.named file.new ≡ F.named file.old }
{
    file.remove();
    file.fault(error)
}
