//! The fields of a `limits` line.
ghost use Rattle.std.specs.Prelude.{◌≡◌, ◌≤◌, IfOk};
ghost use Rattle.nfs_inodes.specs.Limits.{AreLimits};
ghost use Rattle.nfs_text.specs.Words.{words_left};
ghost use Rattle.nfs_load.specs.LimitFields as spec;
ghost use Rattle.nfs_load.specs.LimitFields.{limit_in, limits_in};

use crate::cause::Cause;
use crate::field::read_number;
use nfs_inodes::limits::{Limits, MAX_FILE_BYTES, MAX_FILES, MAX_LINKS, MAX_PATH_BYTES};
use nfs_text::chunks::cut;
use nfs_text::words::Words;

/// Limits with those that the fields give, in any order: `file-size=N`, `links=N`, `link-path=N` and
/// `files=N`. The first cause from left to right: `BadLimit` where a field is none of these, or another
/// one has set its limit, and `BadNumber`.
pub fn read_limits(fields: Words<'_>, old: Limits) -> Result<Limits, Cause>
    requires { AreLimits old }
    ensures read { result ≡ limits_in old (words_left fields.entry) }
    ensures bounds { IfOk result (λ new. AreLimits new) }
{
    let mut limits = old;
    for field in fields {
        limits = read_limit(field, limits)?;
    }
    Ok(limits)
}

// Limits with the one that a field gives.
fn read_limit(field: &[u8], old: Limits) -> Result<Limits, Cause>
    requires { AreLimits old }
    ensures read { result ≡ limit_in old field.now }
    ensures bounds { IfOk result (λ new. AreLimits new) }
{
    match cut(field, b'=') {
        (name, Some(text)) => with_limit(name, text, old),
        (_, None) => Err(Cause::BadLimit),
    }
}

fn with_limit(name: &[u8], text: &[u8], old: Limits) -> Result<Limits, Cause>
    requires { AreLimits old }
    ensures read { result ≡ spec.with_limit old name.now text.now }
    ensures bounds { IfOk result (λ new. AreLimits new) }
{
    let default = Limits::standard();
    if name == b"file-size".as_slice() {
        let most = MAX_FILE_BYTES as u64;
        let n = limit_number(
            default.file_size as u64,
            old.file_size as u64,
            0,
            most,
            text,
        )?;
        return Ok(Limits {
            file_size: n as usize,
            ..old
        });
    }
    if name == b"links".as_slice() {
        let most = u64::from(MAX_LINKS);
        let n = limit_number(
            u64::from(default.links),
            u64::from(old.links),
            2,
            most,
            text,
        )?;
        return Ok(Limits {
            links: n as u32,
            ..old
        });
    }
    if name == b"link-path".as_slice() {
        let most = MAX_PATH_BYTES as u64;
        let n = limit_number(
            default.link_path as u64,
            old.link_path as u64,
            0,
            most,
            text,
        )?;
        return Ok(Limits {
            link_path: n as usize,
            ..old
        });
    }
    if name == b"files".as_slice() {
        let n = limit_number(default.files, old.files, 0, MAX_FILES, text)?;
        return Ok(Limits { files: n, ..old });
    }
    Err(Cause::BadLimit)
}

// The number of a limit that still has its default.
fn limit_number(default: u64, old: u64, least: u64, most: u64, text: &[u8]) -> Result<u64, Cause>
    ensures read { result ≡ spec.limit_number default old least most text.now }
    ensures bounds { IfOk result (λ n. (least ≤ n) × (n ≤ most)) }
{
    if old != default {
        return Err(Cause::BadLimit);
    }
    read_number(text, least, most)
}
