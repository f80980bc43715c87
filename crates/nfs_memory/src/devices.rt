//! Devices that take much, and devices that fail.
use crate::described::loaded;
use nfs_inodes::tree::Tree;
use nfs_load::listing::{WriteFault, listing};
use nfs_xdr::device::{ByteIn, ByteOut, Device};
use rows::stutter::Stutter;
use std::alloc::{AllocError, Global};
use std::io::{self, ErrorKind, Read, Write};
use std::test::Fail;

// How many of so many bytes a device over a list takes by one write, and how many stand there.
fn taken(alloc: Global, len: usize) -> Result<(usize, usize), AllocError> {
    let mut bytes = Vec::new(alloc);
    bytes.resize(len, b'a')?;
    let mut device = Device::new(Vec::new(alloc));
    let taken = device.write(bytes.as_slice()).unwrap_or(0);
    Ok((taken, device.into_inner().len()))
}

#[test]
fn a_write_is_taken_whole(rt: HostRuntime) -> Result<(), Fail> {
    let taken = taken(rt.alloc(), 100_000)?;
    assert!(rt; taken == (100_000, 100_000));
    Ok(())
}

// A device that is broken, and counts its calls.
#[derive(Drop)]
struct Broken {
    calls: u32,
}

impl Write for Broken {
    fn write(&mut self, _bytes: &[u8]) -> io::Result<usize> {
        self.calls = self.calls.saturating_add(1);
        Ok(0)
    }

    fn flush(&mut self) -> io::Result<()> {
        Ok(())
    }
}

impl Read for Broken {
    fn read(&mut self, _buffer: &mut [u8]) -> io::Result<usize> {
        self.calls = self.calls.saturating_add(1);
        Err(io::Error::from(ErrorKind::Other))
    }
}

// How often a broken device is called by two writes and two reads, all of which fail.
fn calls() -> Option<(u32, u32)> {
    let mut out = Device::new(Broken { calls: 0 });
    out.write(b"x").err()?;
    out.write(b"x").err()?;
    let mut input = Device::new(Broken { calls: 0 });
    let mut buffer = [0u8; 8];
    input.read(&mut buffer).err()?;
    input.read(&mut buffer).err()?;
    Some((out.into_inner().calls, input.into_inner().calls))
}

#[test]
fn a_device_that_failed_is_not_called_again(rt: HostRuntime) {
    assert!(rt; calls() == Some((1, 1)));
}

// A listing to a device that takes 7 bytes a call and fails at call `last + 1`, and what it took.
fn listed(alloc: Global, tree: &Tree, last: u32) -> (Result<(), WriteFault>, Vec<u8>) {
    let inner = Device::new(Vec::new(alloc));
    let mut out = Stutter::new(inner, 7, u64::from(last) + 1);
    let done = listing(tree, &mut out);
    (done, out.into_inner().into_inner())
}

// How often a listing failed, each time with its first bytes written, until it was written whole.
fn broken_listings(alloc: Global) -> Result<Option<u32>, AllocError> {
    let loaded = loaded(alloc)?;
    let (_, whole) = listed(alloc, &loaded.tree, u32::MAX);
    for last in 0..1_000 {
        let (done, part) = listed(alloc, &loaded.tree, last);
        if !whole.as_slice().starts_with(part.as_slice()) {
            return Ok(None);
        }
        if done.is_ok() {
            return Ok(if part.len() == whole.len() {
                Some(last)
            } else {
                None
            });
        }
    }
    Ok(None)
}

#[test]
fn a_listing_to_a_device_that_fails_is_cut(rt: HostRuntime) -> Result<(), Fail> {
    let broken = broken_listings(rt.alloc())?;
    assert!(rt; broken.is_some_and(|count| count > 0));
    Ok(())
}
