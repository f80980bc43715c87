//! A walk over a directory on disk.
ghost use Rattle.std.specs.Prelude.{◌≡◌, ℕ, List, ◌∷◌, map, not, IfOk, if◌then◌else◌};
ghost use Rattle.nfs_disk.specs.Surveys as spec;
ghost use Rattle.nfs_disk.specs.Surveys.{extent_of, is_among, number_of, owned_by};
ghost use Rattle.nfs_disk.specs.Tallies.{Holds};

use crate::fault::DiskFault;
use crate::found::{Found, Kind, given_of, is_alone, kind_of, number_of, size_of, times_of};
use crate::warning::{SkipReason, Warning};
use std::alloc::{AllocError, Global};
use std::collections::BTreeSet;
use std::fs::{self, Metadata};
use std::io;
use std::os::unix::fs::MetadataExt;
use std::rt::Files;

/// What a directory on disk is read for.
#[derive(Clone, Copy, Debug, PartialEq, Eq)]
pub enum Purpose {
    /// A description without times.
    Describing,
    /// A volume as it is, with its times.
    Serving,
}

impl Purpose {
    /// Whether files get the times that they have on disk.
    pub(crate) fn has_times(self) -> bool {
        self == Purpose::Serving
    }
}

/// What a directory on disk holds, with what is skipped of it.
#[derive(Drop)]
pub struct Survey {
    /// What it is for.
    pub purpose: Purpose,
    /// The path of the directory on disk.
    pub directory: String,
    /// The directory itself, then what stands in it, then what stands in each directory of these,
    /// and so on, each time in the order of names.
    pub found: Vec<Found>,
    /// What is skipped.
    pub warnings: Vec<Warning>,
}

/// How much some files have together, or a volume takes.
#[derive(Clone, Copy, Debug)]
pub struct Extent {
    /// How many bytes the regular files have.
    pub bytes: u64,
    /// How many files there are, directories and symbolic links too.
    pub files: u64,
}

impl Survey {
    /// A survey of a directory on disk, whose links are not followed. `CannotRead` where it is none
    /// or can't be read, `Memory`.
    pub fn of<R: Files + AllocGlobal>(
        rt: &R,
        directory: &str,
        purpose: Purpose,
    ) -> Result<Survey, DiskFault> {
        let alloc = rt.alloc();
        let mut survey = Survey {
            purpose,
            directory: String::from_str(alloc, directory)?,
            found: Vec::new(alloc),
            warnings: Vec::new(alloc),
        };
        survey.begin(rt, directory)?;
        for place in 0..usize::MAX {
            let Some(found) = survey.found.get(place) else {
                return Ok(survey);
            };
            if found.kind == Kind::Directory {
                let disk_path = found.disk_path(alloc, directory)?;
                let path = found.path.clone()?;
                survey.enter(rt, place, disk_path.as_str(), path.as_str())?;
            }
        }
        Err(DiskFault::Memory)
    }

    /// How much was found, where a file with several names is counted once. `AllocError` where there is
    /// no memory to find these again.
    pub fn extent(&self, alloc: Global) -> Result<Extent, AllocError>
        ensures { IfOk result (λ extent. extent ≡ extent_of self.now.found.items) }
    {
        let mut seen = BTreeSet::new(alloc);
        let mut bytes = 0u64;
        let mut files = 0u64;
        for found in &self.found {
            if is_first(&mut seen, found)? {
                bytes = bytes.saturating_add(size_of(found, Kind::Regular));
                files = files.saturating_add(1);
            }
        }
        Ok(Extent { bytes, files })
    }

    /// Gives all that was found this owner and group.
    pub fn chown(&mut self, uid: u32, gid: u32)
        ensures found { self.new.found.items ≡ map (owned_by uid gid) self.old.found.items }
        ensures warnings { self.new.warnings ≡ self.old.warnings }
    {
        for found in self.found.iter_mut() {
            found.given.uid = uid;
            found.given.gid = gid;
        }
    }

    // The directory that everything else is below.
    fn begin<R: Files + AllocGlobal>(&mut self, rt: &R, directory: &str) -> Result<(), DiskFault> {
        let alloc = rt.alloc();
        let metadata = match fs::metadata(rt, directory) {
            Ok(metadata) => metadata,
            Err(error) => return Err(DiskFault::CannotRead(error)),
        };
        if !metadata.is_dir() {
            let error = io::Error::from(io::ErrorKind::NotADirectory);
            return Err(DiskFault::CannotRead(error));
        }
        let first = found_at(0, String::new(alloc), Kind::Directory, &metadata);
        self.found.push(first)?;
        Ok(())
    }

    // What stands in a directory, in the order of names.
    fn enter<R: Files + AllocGlobal>(
        &mut self,
        rt: &R,
        place: usize,
        disk_path: &str,
        path: &str,
    ) -> Result<(), DiskFault> {
        let alloc = rt.alloc();
        let Some(names) = names_in(rt, disk_path)? else {
            return self.leave_out(alloc, disk_path, SkipReason::Unreadable);
        };
        for name in &names.texts {
            self.take(rt, place, disk_path, path, name.as_str())?;
        }
        if names.are_all {
            return Ok(());
        }
        self.leave_out(alloc, disk_path, SkipReason::NotText)
    }

    // A name in a directory.
    fn take<R: Files + AllocGlobal>(
        &mut self,
        rt: &R,
        parent: usize,
        directory: &str,
        above: &str,
        name: &str,
    ) -> Result<(), DiskFault> {
        let alloc = rt.alloc();
        let disk_path = format!(in alloc; "{directory}/{name}")?;
        let path = format!(in alloc; "{above}/{name}")?;
        let Ok(metadata) = fs::symlink_metadata(rt, disk_path.as_str()) else {
            return self.leave_out(alloc, disk_path.as_str(), SkipReason::Unreadable);
        };
        match kind_for(&metadata) {
            Ok(kind) => {
                let found = found_at(parent, path, kind, &metadata);
                self.found.push(found)?;
                Ok(())
            }
            Err(reason) => self.leave_out(alloc, disk_path.as_str(), reason),
        }
    }

    // Something is skipped.
    fn leave_out(
        &mut self,
        alloc: Global,
        path: &str,
        reason: SkipReason,
    ) -> Result<(), DiskFault> {
        self.warnings.push(Warning {
            path: String::from_str(alloc, path)?,
            reason,
        })?;
        Ok(())
    }
}

// Whether this is the first name of its file, by the numbers of those that were seen. Its own is one of
// them then.
fn is_first(seen: &mut BTreeSet<u128>, found: &Found) -> Result<bool, AllocError>
    ensures { IfOk result (λ first. (before : List ℕ) → Holds seen.old before
        → (first ≡ spec.is_first before found.now) × Holds seen.new (spec.seen_with before found.now)) }
{
    if is_alone(found) {
        return Ok(true);
    }
    Ok(seen.insert(number_of(found))?)
}

// What kind of file this is, or why it is skipped.
fn kind_for(metadata: &Metadata) -> Result<Kind, SkipReason> {
    match kind_of(metadata) {
        Some(kind) => Ok(kind),
        None => Err(SkipReason::OtherKind),
    }
}

fn found_at(parent: usize, path: String, kind: Kind, metadata: &Metadata) -> Found {
    Found {
        parent,
        path,
        kind,
        given: given_of(metadata),
        times: times_of(metadata),
        size: metadata.len(),
        identity: (metadata.dev(), metadata.ino()),
        names: metadata.nlink(),
    }
}

// The names in a directory.
#[derive(Drop)]
struct Names {
    // In their order.
    texts: Vec<String>,
    // Whether there are no others, which are no text.
    are_all: bool,
}

// The names in a directory; none where it can't be read.
fn names_in<R: Files + AllocGlobal>(rt: &R, directory: &str) -> Result<Option<Names>, DiskFault> {
    let alloc = rt.alloc();
    let Ok(entries) = fs::read_dir(&rt, directory) else {
        return Ok(None);
    };
    let mut names = Names {
        texts: Vec::new(alloc),
        are_all: true,
    };
    for entry in entries {
        match entry {
            Ok(entry) => names
                .texts
                .push(String::from_str(alloc, entry.file_name())?)?,
            Err(_) => names.are_all = false,
        }
    }
    names.texts.sort()?;
    Ok(Some(names))
}
