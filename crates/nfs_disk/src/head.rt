//! The first lines of a description: its key, the limits that are not the defaults, its volumes, and to
//! whom each is exported.
ghost use Rattle.std.specs.Prelude.{◌≡◌, ◌++◌, ◌-◌, ◌<◌, ◌^◌, IfOk, OnOk};
ghost use Rattle.std.specs.List.{flat_map};
ghost use Rattle.nfs_disk.specs.Heads as spec;
ghost use Rattle.nfs_disk.specs.Heads.{export_line, head_text, root_given, volume_text, word_text};

use crate::found::Found;
use crate::needs::{larger, limits_for};
use crate::survey::{Extent, Survey};
use nfs_describe::fault::DescribeFault;
use nfs_describe::lines::{put_head, put_volume_line};
use nfs_inodes::limits::{Limits, MAX_FILES, MAX_VOLUME_BYTES};
use nfs_load::name_form::NameForm;
use nfs_load::statement::Given;
use nfs_text::chunks::cut;
use std::alloc::{AllocError, Global};

// The least limits of a volume where none are given, so that clients have room to write.
const LEAST_BYTES: u64 = 1_000_000_000;

const LEAST_FILES: u64 = 100_000;

/// What is said of a volume beside its files, in words that are not looked at.
#[derive(Clone, Copy)]
pub struct Head<'a> {
    /// The path of the volume.
    pub mount: &'a str,
    /// The most bytes, if not twice those that were found.
    pub bytes: Option<u64>,
    /// The most files, if not twice those that were found.
    pub files: Option<u64>,
    /// Patterns, each with its options after `=`.
    pub exports: &'a [&'a str],
}

/// How much the volume takes of which this is said: the numbers that are given, or twice what was found, but
/// at least 1,000,000,000 bytes and 100,000 files, and at most what a volume may take.
pub fn room_for(head: &Head<'_>, found: Extent) -> Extent
    ensures { result ≡ spec.room_for head.now found }
{
    Extent {
        bytes: or_twice(head.bytes, LEAST_BYTES, found.bytes, MAX_VOLUME_BYTES),
        files: or_twice(head.files, LEAST_FILES, found.files, MAX_FILES),
    }
}

/// A directory on disk as a volume.
#[derive(Clone, Copy)]
pub struct Volume<'a> {
    /// What is said of it.
    pub head: Head<'a>,
    /// What was found in it.
    pub survey: &'a Survey,
}

/// The first lines of a description of some volumes, under the server's key: each limit is the largest that one of
/// them needs, and each volume is followed by its exports. A word with a byte outside `!` to `~` stands as `%`, which
/// no field of theirs takes.
pub fn head_of(alloc: Global, key: [u8; 8], volumes: &[Volume<'_>]) -> Result<Vec<u8>, AllocError>
    ensures { IfOk result (λ text. text.items ≡ head_text key volumes.now) }
{
    let limits = limits_of(alloc, volumes)?;
    let mut text = Vec::new(alloc);
    put_head(alloc, &mut text, key, limits, NameForm::Plain).map_err(no_memory)?;
    put_volumes(alloc, &mut text, volumes)?;
    Ok(text)
}

// The largest of each limit that one of some volumes needs.
fn limits_of(alloc: Global, volumes: &[Volume<'_>]) -> Result<Limits, AllocError>
    ensures { IfOk result (λ limits. limits ≡ spec.limits_of volumes.now) }
{
    let mut limits = Limits::standard();
    for volume in volumes {
        limits = larger(limits, limits_in(alloc, volume)?);
    }
    Ok(limits)
}

// The limits that a volume needs.
fn limits_in(alloc: Global, volume: &Volume<'_>) -> Result<Limits, AllocError>
    ensures { IfOk result (λ limits. limits ≡ spec.limits_in volume.now) }
{
    let room = room_for(&volume.head, volume.survey.extent(alloc)?);
    limits_for(alloc, volume.survey.found.as_slice(), room.files)
}

// The lines of some volumes.
fn put_volumes(alloc: Global, text: &mut Vec<u8>, volumes: &[Volume<'_>]) -> Result<(), AllocError>
    ensures { OnOk result (text.new.items ≡ text.old.items ++ flat_map volume_text volumes.now) }
{
    for volume in volumes {
        put_volume(alloc, text, volume)?;
    }
    Ok(())
}

// The line of a volume, and those of its exports.
fn put_volume(alloc: Global, text: &mut Vec<u8>, volume: &Volume<'_>) -> Result<(), AllocError>
    ensures { OnOk result (text.new.items ≡ text.old.items ++ volume_text volume.now) }
{
    let Volume { head, survey } = volume;
    let room = room_for(head, survey.extent(alloc)?);
    let mount = word_of(head.mount.as_bytes());
    let root = root_of(survey.found.as_slice());
    put_volume_line(text, mount, room.bytes, room.files, root).map_err(no_memory)?;
    put_exports(text, head.exports)
}

// Bytes that are kept in memory can't be written only where there is none.
fn no_memory(_fault: DescribeFault) -> AllocError {
    AllocError
}

// The number that is given, or twice the one that was found.
fn or_twice(given: Option<u64>, least: u64, found: u64, most: u64) -> u64
    requires { most < 2 ^ 64 - 1 }
    ensures { result ≡ spec.or_twice given least found most }
{
    match given {
        Some(number) => number,
        None => found.saturating_mul(2).max(least).min(most),
    }
}

// The mode, owner and group of the directory that everything else is below.
fn root_of(found: &[Found]) -> Given
    ensures { result ≡ root_given found.now }
{
    match found.first() {
        Some(root) => root.given,
        None => Given {
            mode: 0o755,
            uid: 0,
            gid: 0,
        },
    }
}

// The lines of the exports.
fn put_exports(text: &mut Vec<u8>, exports: &[&str]) -> Result<(), AllocError>
    ensures { OnOk result (text.new.items ≡ text.old.items ++ flat_map (λ word. export_line word.now) exports.now) }
{
    for export in exports {
        put_export(text, export.as_bytes())?;
    }
    Ok(())
}

// The line of an export.
fn put_export(text: &mut Vec<u8>, export: &[u8]) -> Result<(), AllocError>
    ensures { OnOk result (text.new.items ≡ text.old.items ++ export_line export.now) }
{
    text.extend_from_slice(b"export ")?;
    match cut(export, b'=') {
        (pattern, Some(options)) => {
            text.extend_from_slice(word_of(pattern))?;
            text.extend_from_slice(b" ")?;
            text.extend_from_slice(word_of(options))?;
            text.extend_from_slice(b"\n")
        }
        (pattern, None) => {
            text.extend_from_slice(word_of(pattern))?;
            text.extend_from_slice(b"\n")
        }
    }
}

// A word, or `%` in place of one that would be none or several.
fn word_of(text: &[u8]) -> &[u8]
    ensures { result.now ≡ word_text text.entry.now }
{
    if is_word(text) { text } else { b"%" }
}

// Whether a text is one word of a line.
fn is_word(text: &[u8]) -> bool
    ensures { result ≡ spec.is_word text.now }
{
    for byte in text {
        if !byte.is_ascii_graphic() {
            return false;
        }
    }
    !text.is_empty()
}
