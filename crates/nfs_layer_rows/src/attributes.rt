//! File attributes, read and written.

use crate::attribute_sizes::{
    size_fattr, size_moment, size_post_op_attr, size_pre_attr, size_pre_op_attr, size_sattr,
    size_time_setting, size_wcc,
};
use nfs_attrs::fattr::{read_fattr, read_post_op_attr, write_fattr, write_post_op_attr};
use nfs_attrs::file_type::{number_of, read_file_type};
use nfs_attrs::moment::{read_moment, write_moment};
use nfs_attrs::pre_attr::{read_pre_attr, read_pre_op_attr, write_pre_attr, write_pre_op_attr};
use nfs_attrs::sattr::{read_sattr, write_sattr};
use nfs_attrs::time_setting::{read_time_setting, write_time_setting};
use nfs_attrs::wcc::{read_wcc, write_wcc};
use nfs_xdr::input::Input;
use nfs_xdr::output::Output;
use rows::answers::{debug_text, digits, left, text, with};
use rows::words::{bytes, size};
use std::alloc::Global;
use std::str::SplitWhitespace;

/// `attr read KIND BYTES`, `attr cuts KIND BYTES` and `attr write ROOM KIND BYTES`.
pub(crate) fn answer(alloc: Global, words: &mut SplitWhitespace<'_>) -> Option<String> {
    match words.next()? {
        "read" => {
            let kind = words.next()?;
            let text = bytes(alloc, words)?;
            read(alloc, kind, text.as_slice())
        }
        "cuts" => cuts(alloc, words),
        "write" => write(alloc, words),
        _ => None,
    }
}

// The item of a kind at the front of the bytes or its fault, and what is left.
fn read(alloc: Global, kind: &str, text: &[u8]) -> Option<String> {
    let mut input = Input::new(text);
    let item = read_item(alloc, kind, &mut input)?;
    left(alloc, item, input.rest())
}

fn read_item(alloc: Global, kind: &str, input: &mut Input<'_>) -> Option<String> {
    match kind {
        "ftype3" => debug_text(alloc, read_file_type(input)),
        "nfstime3" => debug_text(alloc, read_moment(input)),
        "fattr3" => debug_text(alloc, read_fattr(input)),
        "post_op_attr" => debug_text(alloc, read_post_op_attr(input)),
        "sattr3" => debug_text(alloc, read_sattr(input)),
        "set_time" => debug_text(alloc, read_time_setting(input)),
        "wcc_attr" => debug_text(alloc, read_pre_attr(input)),
        "pre_op_attr" => debug_text(alloc, read_pre_op_attr(input)),
        "wcc_data" => debug_text(alloc, read_wcc(input)),
        _ => None,
    }
}

// For how many numbers of bytes the first ones are too short, and all of them are left.
fn cuts(alloc: Global, words: &mut SplitWhitespace<'_>) -> Option<String> {
    let kind = words.next()?;
    let whole = bytes(alloc, words)?;
    let mut short = 0u32;
    for len in 0..whole.len() {
        let front = &whole[..len];
        let want = left(alloc, text(alloc, "Err(Short)")?, front)?;
        if read(alloc, kind, front)? == want {
            short = short.saturating_add(1);
        }
    }
    debug_text(alloc, short)
}

// The item of a kind that the bytes encode, written; its size, and the room that is left.
fn write(alloc: Global, words: &mut SplitWhitespace<'_>) -> Option<String> {
    let mut out = Output::new(alloc, size(words)?).ok()?;
    let kind = words.next()?;
    let encoded = bytes(alloc, words)?;
    let mut input = Input::new(encoded.as_slice());
    let size = write_item(kind, &mut input, &mut out)?;
    let written = digits(alloc, out.bytes())?;
    let sized = with(alloc, written, "size", size)?;
    with(alloc, sized, "room", out.room())
}

fn write_item(kind: &str, input: &mut Input<'_>, out: &mut Output) -> Option<usize> {
    match kind {
        "ftype3" => write_type_of(input, out),
        "nfstime3" => write_moment_of(input, out),
        "fattr3" => write_fattr_of(input, out),
        "post_op_attr" => write_post_op_attr_of(input, out),
        "sattr3" => write_sattr_of(input, out),
        "set_time" => write_time_setting_of(input, out),
        "wcc_attr" => write_pre_attr_of(input, out),
        "pre_op_attr" => write_pre_op_attr_of(input, out),
        "wcc_data" => write_wcc_of(input, out),
        _ => None,
    }
}

fn write_type_of(input: &mut Input<'_>, out: &mut Output) -> Option<usize> {
    let kind = read_file_type(input).ok()?;
    if out.room() < 4 {
        return None;
    }
    out.u32(number_of(kind));
    Some(4)
}

fn write_moment_of(input: &mut Input<'_>, out: &mut Output) -> Option<usize> {
    let moment = read_moment(input).ok()?;
    if out.room() < size_moment() {
        return None;
    }
    write_moment(out, moment);
    Some(size_moment())
}

fn write_fattr_of(input: &mut Input<'_>, out: &mut Output) -> Option<usize> {
    let attributes = read_fattr(input).ok()?;
    if out.room() < size_fattr() {
        return None;
    }
    write_fattr(out, &attributes);
    Some(size_fattr())
}

fn write_post_op_attr_of(input: &mut Input<'_>, out: &mut Output) -> Option<usize> {
    let attributes = read_post_op_attr(input).ok()?;
    let size = size_post_op_attr(attributes);
    if out.room() < size {
        return None;
    }
    write_post_op_attr(out, attributes.as_ref());
    Some(size)
}

fn write_sattr_of(input: &mut Input<'_>, out: &mut Output) -> Option<usize> {
    let settings = read_sattr(input).ok()?;
    let size = size_sattr(&settings);
    if out.room() < size {
        return None;
    }
    write_sattr(out, &settings);
    Some(size)
}

fn write_time_setting_of(input: &mut Input<'_>, out: &mut Output) -> Option<usize> {
    let setting = read_time_setting(input).ok()?;
    let size = size_time_setting(setting);
    if out.room() < size {
        return None;
    }
    write_time_setting(out, setting);
    Some(size)
}

fn write_pre_attr_of(input: &mut Input<'_>, out: &mut Output) -> Option<usize> {
    let attributes = read_pre_attr(input).ok()?;
    if out.room() < size_pre_attr() {
        return None;
    }
    write_pre_attr(out, &attributes);
    Some(size_pre_attr())
}

fn write_pre_op_attr_of(input: &mut Input<'_>, out: &mut Output) -> Option<usize> {
    let attributes = read_pre_op_attr(input).ok()?;
    let size = size_pre_op_attr(attributes);
    if out.room() < size {
        return None;
    }
    write_pre_op_attr(out, attributes);
    Some(size)
}

fn write_wcc_of(input: &mut Input<'_>, out: &mut Output) -> Option<usize> {
    let wcc = read_wcc(input).ok()?;
    let size = size_wcc(&wcc);
    if out.room() < size {
        return None;
    }
    write_wcc(out, &wcc);
    Some(size)
}
