//! Contents in one vector, which holds every byte.
ghost use Rattle.std.specs.Prelude.{◌≡◌, ◌+◌, ◌<◌, ◌≤◌, ◌++◌, [], OnOk, OnErr, length, take, drop};
ghost use Rattle.nfs_content.specs.Bytes.{put_bytes};
ghost use Rattle.nfs_content.specs.Limits.{max_content};

use nfs_content::content::Content;
use std::alloc::{AllocError, Global};
use std::marker::Model;

/// Bytes in one vector.
#[derive(Drop)]
pub struct Flat {
    bytes: Vec<u8>,
}

impl Model for Flat {
    ghost use Rattle.std.specs.Prelude.{ℕ, List};

    ghost Value = { List ℕ };

    ghost view = { λ f. f.bytes.items };
}

impl Flat {
    /// No bytes.
    pub fn new(alloc: Global) -> Flat
        ensures { result ≡ [] }
    {
        Flat {
            bytes: Vec::new(alloc),
        }
    }
}

impl Content for Flat {
    ghost bytes = { λ f. f };

    fn len(&self) -> usize {
        self.bytes.len()
    }

    fn run_at(&self, offset: usize) -> &[u8] {
        if offset <= self.bytes.len() {
            &self.bytes[offset..]
        } else {
            &[]
        }
    }

    fn put_at(&mut self, offset: usize, new: &[u8]) -> Result<(), AllocError> {
        if new.is_empty() {
            return Ok(());
        }
        if offset <= self.bytes.len() {
            put_inside(&mut self.bytes, offset, new)
        } else {
            put_beyond(&mut self.bytes, offset, new)
        }
    }

    fn set_len(&mut self, len: usize) -> Result<(), AllocError> {
        self.bytes.resize(len, 0)
    }
}

// Bytes that begin inside the content or at its end: it grows by those that don't lie inside.
fn put_inside(content: &mut Vec<u8>, offset: usize, bytes: &[u8]) -> Result<(), AllocError>
    requires { offset ≤ length content.old.items }
    ensures ok { OnOk result (content.new.items ≡ put_bytes content.old.items offset bytes.now) }
    ensures err { OnErr result (content.new.items ≡ content.old.items) }
{
    let inside = bytes.len().min(content.len() - offset);
    content.extend_from_slice(&bytes[inside..])?;
    overwrite(content, offset, &bytes[..inside]);
    Ok(())
}

// Bytes that begin beyond the end.
fn put_beyond(content: &mut Vec<u8>, offset: usize, bytes: &[u8]) -> Result<(), AllocError>
    requires place { length content.old.items < offset }
    requires size { offset + length bytes.now ≤ max_content }
    ensures ok { OnOk result (content.new.items ≡ put_bytes content.old.items offset bytes.now) }
    ensures err { OnErr result (content.new.items ≡ content.old.items) }
{
    content.resize(offset + bytes.len(), 0)?;
    overwrite(content, offset, bytes);
    Ok(())
}

fn overwrite(content: &mut Vec<u8>, offset: usize, bytes: &[u8])
    requires { offset + length bytes.now ≤ length content.old.items }
    ensures { content.new.items ≡ take offset content.old.items ++ bytes.now ++ drop (offset + length bytes.now) content.old.items }
{
    let place = &mut content[offset..offset + bytes.len()];
    place.copy_from_slice(bytes);
}
