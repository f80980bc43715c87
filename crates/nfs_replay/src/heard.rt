//! The calls that have come on connections, so that their replies can be printed in words.

use crate::captured::split_record;
use std::alloc::{AllocError, Global};

// What has come on a connection.
#[derive(Drop)]
struct Stream {
    conn: u32,
    bytes: Vec<u8>,
}

/// What has come on each connection.
#[derive(Drop)]
pub(crate) struct Heard {
    alloc: Global,
    streams: Vec<Stream>,
}

impl Heard {
    /// Nothing has come.
    pub(crate) fn new(alloc: Global) -> Heard {
        Heard {
            alloc,
            streams: Vec::new(alloc),
        }
    }

    /// A connection has ended; what comes on another one of its number begins anew.
    pub(crate) fn forget(&mut self, conn: u32) {
        for stream in self.streams.iter_mut() {
            if stream.conn == conn {
                stream.bytes.clear();
            }
        }
    }

    /// A chunk comes on a connection. Refused without memory.
    pub(crate) fn add(&mut self, conn: u32, chunk: &[u8]) -> Result<(), AllocError> {
        for stream in self.streams.iter_mut() {
            if stream.conn == conn {
                return stream.bytes.extend_from_slice(chunk);
            }
        }
        let bytes = chunk.to_vec(self.alloc)?;
        self.streams.push(Stream { conn, bytes })?;
        Ok(())
    }

    /// The last call of a number on a connection, without its record mark, where it came as one fragment.
    pub(crate) fn call(&self, conn: u32, xid: &[u8]) -> &[u8] {
        for stream in &self.streams {
            if stream.conn == conn {
                return call_of(stream.bytes.as_slice(), xid);
            }
        }
        &[]
    }
}

// The last record that begins by a number, without its mark; where there is none, no bytes.
fn call_of<'a>(records: &'a [u8], xid: &[u8]) -> &'a [u8] {
    let mut found: &[u8] = &[];
    let mut rest = records;
    while !rest.is_empty() {
        let (record, others) = split_record(rest);
        let call = record.get(4..).unwrap_or(&[]);
        if call.starts_with(xid) {
            found = call;
        }
        rest = others;
    }
    found
}
