//! Calls on a connection.

use crate::record::{bytes, moment, record_of};
use crate::reply_cache::Kept;
use nfs_attrs::moment::Moment;
use nfs_exports::addr::Addr;
use nfs_load::description::load;
use nfs_server::server::Server;
use nfs_server::sessions::Sessions;
use nfs_xdr::device::Device;
use rows::answers::{debug_text, digits, text, then};
use rows::stutter::Stutter;
use rows::words::{address, number, size, word};
use std::alloc::Global;
use std::str::SplitWhitespace;

/// A server of the example, with its connections.
#[derive(Drop)]
pub(crate) struct Connections<'a> {
    alloc: Global,
    example: &'a [u8],
    sessions: Sessions,
}

// Bytes on a connection.
#[derive(Drop)]
struct Stream {
    conn: u32,
    moment: Moment,
    bytes: Vec<u8>,
}

fn sessions(alloc: Global, example: &[u8]) -> Option<Sessions> {
    let server = Server::new(alloc, load(alloc, example).ok()?, 128).ok()?;
    Sessions::new(alloc, server).ok()
}

impl<'a> Connections<'a> {
    /// A server without a connection.
    pub(crate) fn new(alloc: Global, example: &'a [u8]) -> Option<Connections<'a>> {
        Some(Connections {
            alloc,
            example,
            sessions: sessions(alloc, example)?,
        })
    }

    /// The answer to a question about connections.
    pub(crate) fn answer(&mut self, verb: &str, words: &mut SplitWhitespace<'_>) -> Option<String> {
        match verb {
            "open" => self.open(),
            "attach" => self.attach(words),
            "detach" => self.detach(words),
            "feed" => self.feed(words),
            "pieces" => self.chunks(words),
            "cuts" => self.cuts(words),
            "stutter" => self.stutter(words),
            "audit" => self.audit(words),
            "beside" => self.beside(words),
            _ => None,
        }
    }

    // `open`: a new server.
    fn open(&mut self) -> Option<String> {
        self.sessions = sessions(self.alloc, self.example)?;
        text(self.alloc, "done")
    }

    // `attach CONNECTION ADDRESS`: whether it is there.
    fn attach(&mut self, words: &mut SplitWhitespace<'_>) -> Option<String> {
        let conn = word(words)?;
        let addr = Addr(address(words)?);
        let attached = self.sessions.attach(conn, addr);
        debug_text(self.alloc, attached)
    }

    // `detach CONNECTION`: whether it was there.
    fn detach(&mut self, words: &mut SplitWhitespace<'_>) -> Option<String> {
        let detached = self.sessions.detach(word(words)?);
        debug_text(self.alloc, detached)
    }

    // `CONNECTION SECONDS BYTES`.
    fn stream(&self, words: &mut SplitWhitespace<'_>) -> Option<Stream> {
        let conn = word(words)?;
        let moment = moment(words)?;
        let bytes = bytes(self.alloc, self.sessions.server().tree(), words)?;
        Some(Stream {
            conn,
            moment,
            bytes,
        })
    }

    // How many records a chunk ends, or the fault, and the replies as they are written.
    fn fed(&mut self, conn: u32, moment: Moment, chunk: &[u8]) -> Option<String> {
        let mut out = Device::new(Vec::new(self.alloc));
        let mut audit = Device::new(Vec::new(self.alloc));
        let fed = self
            .sessions
            .feed(conn, moment, chunk, &mut out, &mut audit);
        let replies = digits(self.alloc, out.into_inner().as_slice())?;
        then(debug_text(self.alloc, fed)?, replies.as_str())
    }

    // `feed CONNECTION SECONDS BYTES`.
    fn feed(&mut self, words: &mut SplitWhitespace<'_>) -> Option<String> {
        let stream = self.stream(words)?;
        self.fed(stream.conn, stream.moment, stream.bytes.as_slice())
    }

    // `pieces BYTES_A_PIECE CONNECTION SECONDS BYTES`: what the last chunk brings; none before it
    // may bring anything.
    fn chunks(&mut self, words: &mut SplitWhitespace<'_>) -> Option<String> {
        let size = size(words)?.max(1);
        let stream = self.stream(words)?;
        let mut last = text(self.alloc, "Ok(0) -")?;
        for chunk in stream.bytes.as_slice().chunks(size) {
            if last.as_str() != "Ok(0) -" {
                return None;
            }
            last = self.fed(stream.conn, stream.moment, chunk)?;
        }
        Some(last)
    }

    // `cuts CONNECTION SECONDS BYTES`: what the bytes in two chunks bring, wherever they are cut;
    // the first chunk may bring nothing.
    fn cuts(&mut self, words: &mut SplitWhitespace<'_>) -> Option<String> {
        let stream = self.stream(words)?;
        let mut all = None;
        for cut in 0..stream.bytes.len() {
            let (front, back) = stream.bytes.as_slice().split_at(cut);
            let before = self.fed(stream.conn, stream.moment, front)?;
            let after = self.fed(stream.conn, stream.moment, back)?;
            if before.as_str() != "Ok(0) -" || all.as_ref().is_some_and(|text| *text != after) {
                return None;
            }
            all = Some(after);
        }
        all
    }

    // `stutter STEP K CONNECTION SECONDS BYTES`: as `feed`, with replies written to a device that
    // takes at most STEP bytes a call, and fails at its K-th call.
    fn stutter(&mut self, words: &mut SplitWhitespace<'_>) -> Option<String> {
        let step = size(words)?.max(1);
        let k = number(words)?.max(1);
        let stream = self.stream(words)?;
        let mut out = Stutter::new(Device::new(Vec::new(self.alloc)), step, k);
        let mut audit = Device::new(Vec::new(self.alloc));
        let bytes = stream.bytes.as_slice();
        let fed = self
            .sessions
            .feed(stream.conn, stream.moment, bytes, &mut out, &mut audit);
        let written = digits(self.alloc, out.into_inner().into_inner().as_slice())?;
        then(debug_text(self.alloc, fed)?, written.as_str())
    }

    // `audit STEP K CONNECTION SECONDS BYTES`: as `feed`, with audit lines written to such a device:
    // the digits of the lines after those of the replies.
    fn audit(&mut self, words: &mut SplitWhitespace<'_>) -> Option<String> {
        let step = size(words)?.max(1);
        let k = number(words)?.max(1);
        let stream = self.stream(words)?;
        let mut out = Device::new(Vec::new(self.alloc));
        let mut audit = Stutter::new(Device::new(Vec::new(self.alloc)), step, k);
        let bytes = stream.bytes.as_slice();
        let fed = self
            .sessions
            .feed(stream.conn, stream.moment, bytes, &mut out, &mut audit);
        let written = digits(self.alloc, out.into_inner().as_slice())?;
        let lines = digits(self.alloc, audit.into_inner().into_inner().as_slice())?;
        let all = then(debug_text(self.alloc, fed)?, written.as_str())?;
        then(all, lines.as_str())
    }

    // `beside ADDRESS SECONDS BYTES`: a whole record that comes beside the connection.
    fn beside(&mut self, words: &mut SplitWhitespace<'_>) -> Option<String> {
        let record = record_of(self.alloc, self.sessions.server().tree(), words)?;
        let mut kept = Kept::new(self.alloc, 0);
        let done = self.sessions.run(&[record.event()], &mut kept);
        then(debug_text(self.alloc, done)?, kept.text())
    }
}
