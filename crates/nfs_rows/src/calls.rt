//! Calls, as whole records.

use crate::description::{counted, push_counting, push_line, retransmitted};
use crate::record::{Record, bytes, record_of};
use crate::reply_cache::Kept;
use crate::stream;
use nfs_exports::addr::Addr;
use nfs_handles::number::Number;
use nfs_inodes::tree::Tree;
use nfs_load::description::load;
use nfs_server::event::{Event, Handled};
use nfs_server::reply_buf::ReplyBuf;
use nfs_server::server::Server;
use rows::answers::{debug_text, digits, text, then, with};
use rows::words::{address, size, word};
use std::alloc::Global;
use std::str::SplitWhitespace;

// What stands before the status: the reply's head is that of a call that is accepted and done.
const DONE: [u8; 20] = [0, 0, 0, 1, 0, 0, 0, 0, 0, 0, 0, 0, 0, 0, 0, 0, 0, 0, 0, 0];

// More bytes than the replies of a stream that breaks off.
const MAX_BROKEN: u64 = 1_000;

// How many bytes stand before those that a READ brings.
const BEFORE_DATA: usize = 128;

/// A server that is asked, and the lines of the description that the next one serves.
#[derive(Drop)]
pub(crate) struct Calls<'a> {
    alloc: Global,
    example: &'a [u8],
    lines: Vec<u8>,
    server: Server,
    reply: ReplyBuf,
}

fn server(alloc: Global, description: &[u8], cache: usize) -> Option<Server> {
    let loaded = load(alloc, description).ok()?;
    Server::new(alloc, loaded, cache.clamp(1, 1024)).ok()
}

impl<'a> Calls<'a> {
    /// A server of the example.
    pub(crate) fn new(alloc: Global, example: &'a [u8]) -> Option<Calls<'a>> {
        Some(Calls {
            alloc,
            example,
            lines: Vec::new(alloc),
            server: server(alloc, example, 128)?,
            reply: ReplyBuf::new(alloc).ok()?,
        })
    }

    /// The answer to a question about calls.
    pub(crate) fn answer(&mut self, verb: &str, words: &mut SplitWhitespace<'_>) -> Option<String> {
        match verb {
            "call" => self.call(words),
            "status" => self.status(words),
            "long" => self.long(words),
            "uniform" => self.uniform(words),
            "stream" => self.stream(words),
            "broken" => self.broken(words),
            "sealed" => self.framed(words),
            "clear" => self.clear(),
            "run" => self.run(words),
            "kept" => self.kept(),
            "line" => self.line(words),
            "counting" => self.counting(words),
            "serve" => self.serve(words),
            _ => None,
        }
    }

    // The next words as a record.
    fn record(&self, words: &mut SplitWhitespace<'_>) -> Option<Record> {
        record_of(self.alloc, self.server.tree(), words)
    }

    // Whether the record of the next words has a reply.
    fn handle(&mut self, words: &mut SplitWhitespace<'_>) -> Option<Handled> {
        let record = self.record(words)?;
        Some(self.server.handle(record.event(), &mut self.reply))
    }

    // `call ADDRESS SECONDS BYTES`: the reply.
    fn call(&mut self, words: &mut SplitWhitespace<'_>) -> Option<String> {
        let handled = self.handle(words)?;
        let reply = digits(self.alloc, self.reply.bytes())?;
        if handled == Handled::Answered {
            return Some(reply);
        }
        then(text(self.alloc, "no reply")?, reply.as_str())
    }

    // `status ADDRESS SECONDS BYTES`: the first word of the result of a call that is done.
    fn status(&mut self, words: &mut SplitWhitespace<'_>) -> Option<String> {
        self.handle(words)?;
        let head = self.reply.bytes().get(4..24)?;
        let status = self.reply.bytes().get(24..28)?;
        if head != DONE.as_slice() {
            return None;
        }
        let status = u32::from_be_bytes([status[0], status[1], status[2], status[3]]);
        debug_text(self.alloc, status)
    }

    // `long ADDRESS SECONDS BYTES`: the reply to a READ of a made file, its data as the first
    // byte and how many count on from it.
    fn long(&mut self, words: &mut SplitWhitespace<'_>) -> Option<String> {
        self.handle(words)?;
        let count = counted(self.reply.bytes().get(BEFORE_DATA..)?);
        self.data_as("counts", count)
    }

    // `uniform ADDRESS SECONDS BYTES`: the reply to a READ, its data as the first byte and how many
    // times it comes.
    fn uniform(&mut self, words: &mut SplitWhitespace<'_>) -> Option<String> {
        self.handle(words)?;
        let count = retransmitted(self.reply.bytes().get(BEFORE_DATA..)?);
        self.data_as("repeats", count)
    }

    // The reply to a READ, so many of its data as the first one and their number.
    fn data_as(&self, word: &str, count: usize) -> Option<String> {
        let reply = self.reply.bytes();
        let head = digits(self.alloc, reply.get(..BEFORE_DATA)?)?;
        let data = reply.get(BEFORE_DATA..)?;
        let first = data.first()?;
        let rest = digits(self.alloc, data.get(count..)?)?;
        then(
            with(self.alloc, head, word, (*first, count))?,
            rest.as_str(),
        )
    }

    // `stream ADDRESS BYTES`: what a stream of these bytes comes to that is served to its end, and the
    // replies as they are written.
    fn stream(&mut self, words: &mut SplitWhitespace<'_>) -> Option<String> {
        let addr = Addr(address(words)?);
        let bytes = bytes(self.alloc, self.server.tree(), words)?;
        stream::serve(self.alloc, &mut self.server, addr, bytes.as_slice())
    }

    // `broken ADDRESS BYTES`: at how many bytes, one after another and each on a new server, a stream of
    // these bytes broke off whose replies could not be written, and the replies that the same stream then
    // had, each of which began with what came out before.
    fn broken(&mut self, words: &mut SplitWhitespace<'_>) -> Option<String> {
        let addr = Addr(address(words)?);
        let bytes = bytes(self.alloc, self.server.tree(), words)?;
        for k in 1..MAX_BROKEN {
            self.server = server(self.alloc, self.example, 128)?;
            let first = stream::written(self.alloc, &mut self.server, addr, bytes.as_slice(), k);
            let again = stream::written(
                self.alloc,
                &mut self.server,
                addr,
                bytes.as_slice(),
                u64::MAX,
            );
            if !again.starts_with(first.as_slice()) {
                return None;
            }
            if first.len() == again.len() {
                let replies = digits(self.alloc, again.as_slice())?;
                return then(debug_text(self.alloc, k - 1)?, replies.as_str());
            }
        }
        None
    }

    // `framed ADDRESS SECONDS BYTES`: the reply with its record mark.
    fn framed(&mut self, words: &mut SplitWhitespace<'_>) -> Option<String> {
        self.handle(words)?;
        digits(self.alloc, self.reply.framed())
    }

    // `clear`: the reply, once it is taken out.
    fn clear(&mut self) -> Option<String> {
        self.reply.clear();
        digits(self.alloc, self.reply.bytes())
    }

    // `run LAST COUNT RECORD / ..`: how many of so many records were done, and their replies; the
    // take of the outcome of the number LAST ends the run.
    fn run(&mut self, words: &mut SplitWhitespace<'_>) -> Option<String> {
        let mut kept = Kept::new(self.alloc, word(words)?);
        let mut records = Vec::new(self.alloc);
        for _ in 0..size(words)? {
            records.push(self.record(words)?).ok()?;
        }
        let events = events_of(self.alloc, records.as_slice())?;
        let done = self
            .server
            .run(events.as_slice(), &mut self.reply, &mut kept);
        then(debug_text(self.alloc, done)?, kept.text())
    }

    // `kept`: whether the tree is that of the example.
    fn kept(&self) -> Option<String> {
        let example = load(self.alloc, self.example).ok()?;
        debug_text(self.alloc, is_same(self.server.tree(), &example.tree))
    }

    // `line WORD..`: a line of the next description.
    fn line(&mut self, words: &mut SplitWhitespace<'_>) -> Option<String> {
        push_line(&mut self.lines, words)?;
        text(self.alloc, "done")
    }

    // `counting PATH MODE UID GID SIZE`: the line of a file of so many bytes, which count.
    fn counting(&mut self, words: &mut SplitWhitespace<'_>) -> Option<String> {
        push_counting(self.alloc, &mut self.lines, words)?;
        text(self.alloc, "done")
    }

    // `serve REPLIES`: a new server of the description, or of the example where there is none,
    // which keeps so many replies; the reply that stands in its room.
    fn serve(&mut self, words: &mut SplitWhitespace<'_>) -> Option<String> {
        let cache = size(words)?;
        self.server = if self.lines.is_empty() {
            server(self.alloc, self.example, cache)?
        } else {
            server(self.alloc, self.lines.as_slice(), cache)?
        };
        self.lines.clear();
        self.reply = ReplyBuf::new(self.alloc).ok()?;
        digits(self.alloc, self.reply.bytes())
    }
}

fn events_of(alloc: Global, records: &[Record]) -> Option<Vec<Event<'_>>> {
    let mut events = Vec::new(alloc);
    for record in records {
        events.push(record.event()).ok()?;
    }
    Some(events)
}

// Whether two trees have the same numbers, attributes, handles and totals.
fn is_same(tree: &Tree, other: &Tree) -> bool {
    for number in 0..10u64 {
        if tree.attributes(Number::new(number)) != other.attributes(Number::new(number)) {
            return false;
        }
        if tree.handle_of(number) != other.handle_of(number) {
            return false;
        }
    }
    for place in 0..3usize {
        if tree.totals(place) != other.totals(place) {
            return false;
        }
    }
    tree.next_number() == other.next_number()
}
