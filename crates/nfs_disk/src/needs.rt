//! The limits of a tree that takes what was found.
ghost use Rattle.std.specs.Prelude.{◌≡◌, ◌-◌, ◌^◌, ℕ, List, [], min, IfOk};
ghost use Rattle.nfs_disk.specs.Needs as spec;
ghost use Rattle.nfs_disk.specs.Needs.{most_equal, parents};
ghost use Rattle.nfs_inodes.specs.Limits.{AreLimits};

use crate::found::{Found, Kind, number_of, size_of};
use crate::tally::Tally;
use nfs_inodes::limits::{Limits, MAX_FILE_BYTES, MAX_FILES, MAX_LINKS, MAX_PATH_BYTES};
use std::alloc::{AllocError, Global};

/// The limits of a tree that takes what was found, as far as a tree may have them, in a volume of so
/// many files: each is its default unless it has to be higher.
pub fn limits_for(alloc: Global, found: &[Found], files: u64) -> Result<Limits, AllocError>
    ensures limits { IfOk result (λ limits. AreLimits limits) }
    ensures needs { IfOk result (λ limits. limits ≡ spec.limits_for found.now files) }
{
    let default = Limits::standard();
    let subdirectories = most_subdirectories(alloc, found)?;
    let names = most_names(alloc, found, u64::from(default.links))?;
    let links = subdirectories.saturating_add(2).max(names);
    let file_size = largest(found, Kind::Regular);
    let link_path = largest(found, Kind::Link);
    Ok(Limits {
        file_size: within(default.file_size as u64, file_size, MAX_FILE_BYTES as u64) as usize,
        links: within(u64::from(default.links), links, u64::from(MAX_LINKS)) as u32,
        link_path: within(default.link_path as u64, link_path, MAX_PATH_BYTES as u64) as usize,
        files: within(default.files, files, MAX_FILES),
    })
}

/// The larger of each limit.
pub(crate) fn larger(one: Limits, other: Limits) -> Limits
    ensures { result ≡ spec.larger one other }
{
    Limits {
        file_size: one.file_size.max(other.file_size),
        links: one.links.max(other.links),
        link_path: one.link_path.max(other.link_path),
        files: one.files.max(other.files),
    }
}

// A number, or its bound where it is beyond.
fn within(least: u64, number: u64, most: u64) -> u64
    ensures { result ≡ spec.within least number most }
{
    number.max(least).min(most)
}

// The most bytes of those of a kind.
fn largest(found: &[Found], kind: Kind) -> u64
    ensures { result ≡ spec.largest kind found.now }
{
    let mut most = 0u64;
    for one in found {
        most = most.max(size_of(one, kind));
    }
    most
}

// The most subdirectories of a directory.
fn most_subdirectories(alloc: Global, found: &[Found]) -> Result<u64, AllocError>
    ensures { IfOk result (λ n. n ≡ min (spec.most_subdirectories found.now) (2 ^ 64 - 1)) }
{
    match found.split_first() {
        Some((_, others)) => most_alike(alloc, others),
        None => Ok(0),
    }
}

// The most directories of those that stand in one directory.
fn most_alike(alloc: Global, others: &[Found]) -> Result<u64, AllocError>
    ensures { IfOk result (λ n. n ≡ min (most_equal (parents [] others.now)) (2 ^ 64 - 1)) }
{
    let mut tally = Tally::new(alloc);
    for one in others {
        if one.kind == Kind::Directory {
            tally.add(one.parent as u128)?;
        }
    }
    Ok(tally.most)
}

// The most names of a file among those that were found, of those files alone that have more than so
// many on disk.
fn most_names(alloc: Global, found: &[Found], least: u64) -> Result<u64, AllocError>
    ensures { IfOk result (λ n. n ≡ min (spec.most_names least found.now) (2 ^ 64 - 1)) }
{
    let mut tally = Tally::new(alloc);
    for one in found {
        if has_more(one, least) {
            tally.add(number_of(one))?;
        }
    }
    Ok(tally.most)
}

// Whether it is a file with more names than so many, and no directory.
fn has_more(one: &Found, least: u64) -> bool
    ensures { result ≡ spec.has_more least one.now }
{
    one.kind != Kind::Directory && one.names > least
}
