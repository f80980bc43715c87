//! Files that are replaced as a whole.
ghost use Rattle.std.specs.Prelude.{◌≡◌, ℕ, List, [], Option, None, ⊤, IfOk, OnOk, OnErr};
ghost use Rattle.nfs_saving.specs.Saving.{MayReplace, Replaces};

use nfs_describe::fault::DescribeFault;
use nfs_describe::output::Output;
use nfs_source::fault::Fault;
use std::alloc::{AllocError, Global};
use std::fs::{self, OpenFile};
use std::io::{self, BufWriter, ErrorKind, Write};
use std::rt::Files;

// How much is written at once.
const BUFFER_BYTES: usize = 65_536;

/// A file that is replaced as a whole: another one is written beside it, which then takes its name.
pub trait SavedFile {
    /// The file beside it.
    type Part: Output + Drop;

    /// The text that has the name, where it is known.
    ghost named: { Self → Option (List ℕ) };

    /// Makes an empty file beside the one that has the name.
    fn begin(&mut self) -> io::Result<Self::Part>
        ensures kept { named self.new ≡ named self.old }
        ensures empty { IfOk result (λ part. Self.Part.has part []) };

    /// Gives what was written beside it the name, once it is on disk.
    fn replace(&mut self, part: Self::Part) -> io::Result<()>
        ensures replaced { OnOk result ((text : List ℕ) → Self.Part.has part text → Replaces (named self.old) text (named self.new)) }
        ensures refused { OnErr result ((text : List ℕ) → Self.Part.has part text → MayReplace (named self.old) text (named self.new)) };

    /// Takes away what stands beside it.
    fn remove(&mut self)
        ensures { named self.new ≡ named self.old };

    /// That it can't be written, and what the system says.
    fn fault(&self, error: io::Error) -> Fault;
}

/// A file of the system.
#[derive(Drop)]
pub struct DiskFile<'a, R> {
    rt: &'a R,
    alloc: Global,
    name: &'a str,
    part: String,
}

impl<'a, R> DiskFile<'a, R> {
    /// The file of this name.
    pub fn new(rt: &'a R, alloc: Global, name: &'a str) -> Result<DiskFile<'a, R>, AllocError> {
        let part = part_of(alloc, name)?;
        Ok(DiskFile {
            rt,
            alloc,
            name,
            part,
        })
    }
}

impl<R: Files> SavedFile for DiskFile<'_, R> {
    type Part = DiskPart<R::File>;

    ghost named = { λ _. None };

    fn begin(&mut self) -> io::Result<DiskPart<R::File>> {
        let file = fs::create(self.rt, self.part.as_str())?;
        Ok(DiskPart {
            out: BufWriter::with_capacity(self.alloc, BUFFER_BYTES, file)?,
        })
    }

    // The directory is opened before, so that the file isn't replaced where that is refused.
    fn replace(&mut self, part: DiskPart<R::File>) -> io::Result<()> {
        let DiskPart { mut out } = part;
        out.flush()?;
        out.get_ref().sync_all()?;
        let directory = fs::open(self.rt, directory_of(self.name))?;
        fs::rename(self.rt, self.part.as_str(), self.name)?;
        directory.sync_all()
    }

    fn remove(&mut self) {
        let _ = fs::remove_file(self.rt, self.part.as_str());
    }

    fn fault(&self, error: io::Error) -> Fault {
        cannot_write(self.alloc, self.name, error)
    }
}

/// A file of the system that is written, 64 KiB at once.
#[derive(Drop)]
pub struct DiskPart<W: Write + Drop> {
    out: BufWriter<W>,
}

impl<W: Write + Drop> Output for DiskPart<W> {
    ghost has = { λ _ _. ⊤ };

    fn put(&mut self, part: &[u8]) -> Result<(), DescribeFault> {
        self.out.put(part)
    }
}

/// Makes the file beside the one of this name, and takes it away again. `CannotWrite` where the system
/// refuses that, or where something else than a file has the name; `Memory`.
pub fn try_place<R: Files>(rt: &R, alloc: Global, name: &str) -> Result<(), Fault> {
    let part = part_of(alloc, name)?;
    match make_and_remove(rt, part.as_str(), name) {
        Ok(()) => Ok(()),
        Err(error) => Err(cannot_write(alloc, name, error)),
    }
}

fn make_and_remove<R: Files>(rt: &R, part: &str, name: &str) -> io::Result<()> {
    if is_taken(rt, name) {
        return Err(io::Error::new(ErrorKind::IsADirectory, "it is not a regular file"));
    }
    let _file = fs::create(rt, part)?;
    fs::remove_file(rt, part)
}

// Whether a directory or a device has the name, which no file is to replace.
fn is_taken<R: Files>(rt: &R, name: &str) -> bool {
    match fs::metadata(rt, name) {
        Ok(found) => !found.is_file(),
        Err(_) => false,
    }
}

/// Has the names in the directory of this one on disk. The error of the system, where it opens or syncs no such directory.
pub fn sync_directory<R: Files>(rt: &R, name: &str) -> io::Result<()> {
    fs::open(rt, directory_of(name))?.sync_all()
}

fn part_of(alloc: Global, name: &str) -> Result<String, AllocError> {
    format!(in alloc; "{name}.part")
}

// The directory of a path: `.` where it has no slash.
fn directory_of(name: &str) -> &str {
    match name.rsplit_once('/') {
        Some(("", _)) => "/",
        Some((directory, _)) => directory,
        None => ".",
    }
}

/// That a file of this name can't be written, and what the system says.
pub fn cannot_write(alloc: Global, name: &str, error: io::Error) -> Fault {
    match name.to_string(alloc) {
        Ok(name) => Fault::CannotWrite { name, error },
        Err(error) => Fault::Memory(error),
    }
}
