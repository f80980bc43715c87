//! A tree, written as a directory on disk.

use crate::attributes::set_attributes;
pub use crate::fault::ExtractFault;
pub use crate::skipped::Skipped;
use nfs_attrs::fattr::Fattr;
use nfs_attrs::file_type::FileType;
use nfs_handles::number::Number;
use nfs_inodes::tree::Tree;
use std::alloc::Global;
use std::collections::BTreeMap;
use std::fs::{self, DirBuilder, File, OpenOptions};
use std::io;
use std::os::unix::fs::{DirBuilderExt, FileExt, OpenOptionsExt, symlink};
use std::rt::Files;
use std::str::from_utf8;

// The modes of what is still being written, which nobody else reads.
const NEW_DIR_MODE: u32 = 0o700;

const NEW_FILE_MODE: u32 = 0o600;

/// Writes the volumes of a tree as a new directory: the one volume as the directory itself, several below it
/// by their paths. All of it comes into directories that are made here, so nothing else on disk is touched.
/// Each file and directory of the tree is the owner's alone until all of them are written, and has its mode
/// then. What is skipped is answered. `CannotWrite` where there is such a directory already, or the system
/// doesn't write it; then a part of it may stand there. `Memory`.
pub fn extract<R: Files<File = File>>(
    rt: &R,
    alloc: Global,
    tree: &Tree,
    directory: &str,
) -> Result<Vec<Skipped>, ExtractFault> {
    let mut writer = Writer {
        alloc,
        tree,
        places: Vec::new(alloc),
        first_paths: BTreeMap::new(alloc),
        skipped: Vec::new(alloc),
    };
    writer.begin(rt, directory)?;
    writer.write_all(rt)?;
    writer.finish(rt)?;
    let Writer { skipped, .. } = writer;
    Ok(skipped)
}

// A file that stands on disk.
#[derive(Drop)]
struct Place {
    path: String,
    number: Number,
}

// A directory that is written.
#[derive(Drop)]
struct Writer<'a> {
    alloc: Global,
    tree: &'a Tree,
    // The files that are written, each after its directory.
    places: Vec<Place>,
    // Where each file with several names stands first.
    first_paths: BTreeMap<u64, String>,
    skipped: Vec<Skipped>,
}

// What is written of a file.
#[derive(Clone, Copy)]
enum Content<'a> {
    Directory,
    // So many bytes.
    Bytes(u64),
    // The text of a symbolic link.
    Link(&'a str),
}

impl Writer<'_> {
    // The roots of the volumes.
    fn begin<R: Files<File = File>>(
        &mut self,
        rt: &R,
        directory: &str,
    ) -> Result<(), ExtractFault> {
        let alloc = self.alloc;
        let volumes = self.tree.volumes();
        if volumes != 1 {
            self.with_path(directory, fs::create_dir(rt, directory))?;
        }
        for index in 0..volumes {
            let Some(volume) = self.tree.volume(index) else {
                continue;
            };
            let path = if volumes == 1 {
                String::from_str(alloc, directory)?
            } else {
                self.make_way(rt, directory, volume.path)?
            };
            self.make_dir(rt, path.as_str())?;
            self.places.push(Place {
                path,
                number: volume.root,
            })?;
        }
        Ok(())
    }

    // The path of a volume in a directory, and the directories on the way to it, which another volume may
    // have made.
    fn make_way<R: Files<File = File>>(
        &self,
        rt: &R,
        directory: &str,
        volume: &[u8],
    ) -> Result<String, ExtractFault> {
        let mut path = String::from_str(self.alloc, directory)?;
        for name in volume.split(|byte| *byte == b'/') {
            let name = from_utf8(name).unwrap_or("");
            if name.is_empty() {
                continue;
            }
            match fs::create_dir(rt, path.as_str()) {
                Err(error) if error.kind() == io::ErrorKind::AlreadyExists => {}
                made => self.with_path(path.as_str(), made)?,
            }
            path.push('/')?;
            path.push_str(name)?;
        }
        Ok(path)
    }

    // What stands in each directory, one after another.
    fn write_all<R: Files<File = File>>(&mut self, rt: &R) -> Result<(), ExtractFault> {
        for at in 0..usize::MAX {
            let Some(place) = self.places.get(at) else {
                return Ok(());
            };
            let path = place.path.clone()?;
            let number = place.number;
            self.write_entries(rt, path.as_str(), number)?;
        }
        Ok(())
    }

    // What stands in a directory; nothing in another file.
    fn write_entries<R: Files<File = File>>(
        &mut self,
        rt: &R,
        dir: &str,
        number: Number,
    ) -> Result<(), ExtractFault> {
        let alloc = self.alloc;
        let tree = self.tree;
        let Some(view) = tree.view(number) else {
            return Ok(());
        };
        for entry in view.entries() {
            match from_utf8(entry.name) {
                Ok(name) => {
                    let path = format!(in alloc; "{dir}/{name}")?;
                    self.write(rt, path, entry.number)?;
                }
                Err(_) => self.skipped.push(Skipped::Name {
                    directory: String::from_str(alloc, dir)?,
                })?,
            }
        }
        Ok(())
    }

    // A file at a path on disk: by its first name all of it, by others a hard link.
    fn write<R: Files<File = File>>(
        &mut self,
        rt: &R,
        path: String,
        number: Number,
    ) -> Result<(), ExtractFault> {
        let Some(attributes) = self.tree.attributes(number) else {
            return Ok(());
        };
        let Some(content) = content_of(self.tree, number, &attributes) else {
            self.skipped.push(Skipped::LinkText { path })?;
            return Ok(());
        };
        if attributes.file_type != FileType::Directory && attributes.nlink > 1 {
            if let Some(first) = self.first_paths.get(&attributes.fileid) {
                let linked = fs::hard_link(rt, first.as_str(), path.as_str());
                return self.with_path(path.as_str(), linked);
            }
            self.first_paths.insert(attributes.fileid, path.clone()?)?;
        }
        self.write_first(rt, path.as_str(), number, content)?;
        self.places.push(Place { path, number })?;
        Ok(())
    }

    // A file that has no other name on disk yet.
    fn write_first<R: Files<File = File>>(
        &self,
        rt: &R,
        path: &str,
        number: Number,
        content: Content<'_>,
    ) -> Result<(), ExtractFault> {
        match content {
            Content::Directory => self.make_dir(rt, path),
            Content::Link(text) => self.with_path(path, symlink(rt, text, path)),
            Content::Bytes(size) => {
                self.with_path(path, write_file(rt, path, self.tree, number, size))
            }
        }
    }

    fn make_dir<R: Files<File = File>>(&self, rt: &R, path: &str) -> Result<(), ExtractFault> {
        let made = DirBuilder::new().mode(NEW_DIR_MODE).create(rt, path);
        self.with_path(path, made)
    }

    // What the system did, and where it is a fault at which path.
    fn with_path(&self, path: &str, written: io::Result<()>) -> Result<(), ExtractFault> {
        match written {
            Ok(()) => Ok(()),
            Err(error) => Err(cannot_write(self.alloc, path, error)),
        }
    }

    // The attributes of all, the last one first: what comes into a directory changes its times, and needs the
    // right to write there.
    fn finish<R: Files<File = File>>(&self, rt: &R) -> Result<(), ExtractFault> {
        for place in self.places.iter().rev() {
            let Some(attributes) = self.tree.attributes(place.number) else {
                continue;
            };
            let path = place.path.as_str();
            self.with_path(path, set_attributes(rt, path, &attributes))?;
        }
        Ok(())
    }
}

// What is written of a file; nothing of a symbolic link whose text is not UTF-8.
fn content_of<'a>(tree: &'a Tree, number: Number, attributes: &Fattr) -> Option<Content<'a>> {
    if attributes.file_type == FileType::Directory {
        return Some(Content::Directory);
    }
    match tree.link_path(number) {
        Some(text) => from_utf8(text).ok().map(Content::Link),
        None => Some(Content::Bytes(attributes.size)),
    }
}

// A regular file, whose zeros at the end are a hole.
fn write_file<R: Files<File = File>>(
    rt: &R,
    path: &str,
    tree: &Tree,
    number: Number,
    size: u64,
) -> io::Result<()> {
    let file = OpenOptions::new()
        .write(true)
        .create_new(true)
        .mode(NEW_FILE_MODE)
        .open(rt, path)?;
    let mut offset = 0usize;
    for _ in 0..u64::MAX {
        let run = tree.bytes_at(number, offset);
        if run.is_empty() {
            break;
        }
        if !is_zeros(run) {
            file.write_all_at(run, offset as u64)?;
        }
        offset = offset.saturating_add(run.len());
    }
    file.set_len(size)
}

// Whether the first byte is zero, and each the one before it.
fn is_zeros(run: &[u8]) -> bool {
    match run.split_first() {
        Some((first, rest)) => *first == 0 && rest == &run[..rest.len()],
        None => true,
    }
}

fn cannot_write(alloc: Global, path: &str, error: io::Error) -> ExtractFault {
    match path.to_string(alloc) {
        Ok(path) => ExtractFault::CannotWrite { path, error },
        Err(error) => ExtractFault::Memory(error),
    }
}
