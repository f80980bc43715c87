//! A connection to a server, on which records are sent and files looked for as a client does.
ghost use Rattle.std.specs.Prelude.{◌≤◌, IfOk, length};

use crate::results::{handle_in, volumes_in};
use nfs_args::procedure::MountProcedure;
use nfs_client::caller::{Caller, DirName, MAX_HANDLE_BYTES, MAX_WORD_BYTES};
use nfs_client::fault::{CallFault, Part};
use nfs_client::name_request::NameRequest;
use nfs_client::resolved_path::rest_of;
use nfs_rpc::auth_sys::Cred;
use nfs_text::chunks::Chunks;
use nfs_xdr::output::Output;
use std::alloc::{AllocError, Global};
use std::io::{self, ErrorKind, Read, Write};

// The bit of a record mark that says that a fragment is the last one (RFC 5531, section 11).
const LAST: u32 = 0x8000_0000;

// The most bytes of a record that is sent, and of a reply.
const MOST_SENT: usize = 0x7fff_ffff;

const MOST_REPLY: usize = 16 << 20;

// The most fragments of a reply.
const MOST_FRAGMENTS: usize = 1_024;

// The number of the first call by which a file is looked for. Those of a script's lines are smaller.
const FIRST_XID: u32 = 0xc000_0000;

/// A call, and the reply to it, if one came.
#[derive(Drop)]
pub(crate) struct Exchange {
    /// The call's record, without a mark.
    pub(crate) call: Vec<u8>,
    /// The reply's.
    pub(crate) reply: Option<Vec<u8>>,
}

/// What looking for something led to.
#[derive(Drop)]
pub(crate) enum Sought<T> {
    /// It is this.
    Found(T),
    /// A call on the way failed.
    Failed(Exchange),
}

/// Why something isn't looked for to the end.
#[derive(Drop)]
pub(crate) enum SeekFault {
    /// What is asked for can't be written.
    Call(CallFault),
    /// The network fails.
    Network(io::Error),
}

impl From<CallFault> for SeekFault {
    fn from(fault: CallFault) -> SeekFault {
        SeekFault::Call(fault)
    }
}

impl From<io::Error> for SeekFault {
    fn from(error: io::Error) -> SeekFault {
        SeekFault::Network(error)
    }
}

impl From<AllocError> for SeekFault {
    fn from(_error: AllocError) -> SeekFault {
        SeekFault::Call(CallFault::Memory)
    }
}

// The root of a volume that was mounted.
#[derive(Drop)]
struct Root {
    volume: Vec<u8>,
    handle: Vec<u8>,
}

/// A name in a directory whose handle is known.
#[derive(Drop)]
pub(crate) struct Place<'a> {
    /// The directory's handle.
    pub(crate) dir: Vec<u8>,
    /// The name.
    pub(crate) name: &'a [u8],
}

impl Place<'_> {
    /// The same, lent. `NoFile` and `TooLong` where a call can't be on it.
    pub(crate) fn lent(&self, part: Part) -> Result<DirName<'_>, CallFault>
        ensures dir { IfOk result (λ place. length place.dir.now ≤ 64) }
        ensures name { IfOk result (λ place. length place.name.now ≤ 262144) }
    {
        if self.name.len() > MAX_WORD_BYTES {
            return Err(CallFault::TooLong(part));
        }
        Ok(DirName {
            dir: short_handle(self.dir.as_slice()),
            name: self.name,
        })
    }
}

/// A connection to a server. A server that says nothing for long is not waited for.
#[derive(Drop)]
pub(crate) struct Connection<S: Drop> {
    alloc: Global,
    stream: S,
    next_xid: u32,
    // How many calls weren't answered in time. Their replies may still come.
    unanswered: u32,
    // The volumes that the server exports, once they were asked for.
    volumes: Option<Vec<Vec<u8>>>,
    roots: Vec<Root>,
}

impl<S: Read + Write + Drop> Connection<S> {
    /// A connection on which nothing was sent.
    pub(crate) fn new(alloc: Global, stream: S) -> Connection<S> {
        Connection {
            alloc,
            stream,
            next_xid: FIRST_XID,
            unanswered: 0,
            volumes: None,
            roots: Vec::new(alloc),
        }
    }

    /// Sends a record, and waits for the reply. The error of the network.
    pub(crate) fn exchange(&mut self, call: Vec<u8>) -> io::Result<Exchange> {
        send(&mut self.stream, call.as_slice())?;
        let reply = self.reply_to(call.as_slice())?;
        if reply.is_none() {
            self.unanswered = self.unanswered.saturating_add(1);
        }
        Ok(Exchange { call, reply })
    }

    // The reply to a call, after late ones to earlier calls.
    fn reply_to(&mut self, call: &[u8]) -> io::Result<Option<Vec<u8>>> {
        for _ in 0..self.unanswered {
            match receive(self.alloc, &mut self.stream)? {
                Some(reply) if reply.get(..4) != call.get(..4) => {
                    self.unanswered = self.unanswered.saturating_sub(1);
                }
                reply => return Ok(reply),
            }
        }
        receive(self.alloc, &mut self.stream)
    }

    /// The handle of the file that a path names.
    pub(crate) fn file(
        &mut self,
        cred: &Cred,
        path: &[u8],
        part: Part,
    ) -> Result<Sought<Vec<u8>>, SeekFault> {
        let place = match self.place(cred, path, part)? {
            Sought::Found(place) => place,
            Sought::Failed(exchange) => return Ok(Sought::Failed(exchange)),
        };
        self.lookup(cred, place, part)
    }

    /// The directory that a path ends in, by its handle, and the name that it ends with; `.` where it is that of a volume.
    pub(crate) fn place<'a>(
        &mut self,
        cred: &Cred,
        path: &'a [u8],
        part: Part,
    ) -> Result<Sought<Place<'a>>, SeekFault> {
        self.ask_for_volumes(cred)?;
        let volumes = self.volumes.as_ref();
        let Some((volume, rest)) = volumes.and_then(|all| nearest(all.as_slice(), path)) else {
            return Err(SeekFault::Call(CallFault::NoFile(part)));
        };
        let mut name = Vec::new(self.alloc);
        name.extend_from_slice(volume)?;
        match self.root(cred, name)? {
            Sought::Found(root) => self.walk(cred, root, rest, part),
            Sought::Failed(exchange) => Ok(Sought::Failed(exchange)),
        }
    }

    // Goes from directory to directory, up to the last name.
    fn walk<'a>(
        &mut self,
        cred: &Cred,
        root: Vec<u8>,
        rest: &'a [u8],
        part: Part,
    ) -> Result<Sought<Place<'a>>, SeekFault> {
        let mut place = Place {
            dir: root,
            name: b".",
        };
        let mut names = Chunks::new(rest, b'/');
        while let Some(name) = names.next() {
            if name.is_empty() {
                continue;
            }
            let dir = match self.lookup(cred, place, part)? {
                Sought::Found(dir) => dir,
                Sought::Failed(exchange) => return Ok(Sought::Failed(exchange)),
            };
            place = Place { dir, name };
        }
        Ok(Sought::Found(place))
    }

    // The handle of what has a name in a directory.
    fn lookup(
        &mut self,
        cred: &Cred,
        place: Place<'_>,
        part: Part,
    ) -> Result<Sought<Vec<u8>>, SeekFault> {
        if place.name == b".".as_slice() {
            return Ok(Sought::Found(place.dir));
        }
        let call = self
            .caller(cred)
            .name(place.lent(part)?, NameRequest::Lookup)?;
        self.handle_by(call)
    }

    // The handle of a volume's root, by the first MNT of it.
    fn root(&mut self, cred: &Cred, volume: Vec<u8>) -> Result<Sought<Vec<u8>>, SeekFault> {
        for root in &self.roots {
            if root.volume.as_slice() == volume.as_slice() {
                return Ok(Sought::Found(copy_of(self.alloc, root.handle.as_slice())?));
            }
        }
        let call = self
            .caller(cred)
            .volume(MountProcedure::Mount, volume.as_slice())?;
        let found = self.handle_by(call)?;
        if let Sought::Found(handle) = &found {
            let handle = copy_of(self.alloc, handle.as_slice())?;
            self.roots
                .push(Root { volume, handle })
                .map_err(AllocError::from)?;
        }
        Ok(found)
    }

    // Asks which volumes there are, once.
    fn ask_for_volumes(&mut self, cred: &Cred) -> Result<(), SeekFault> {
        if self.volumes.is_some() {
            return Ok(());
        }
        let call = copy_of(self.alloc, self.caller(cred).exports()?.bytes())?;
        let exchange = self.exchange(call)?;
        let reply = exchange
            .reply
            .as_ref()
            .map_or(b"".as_slice(), |reply| reply.as_slice());
        self.volumes = Some(volumes_in(self.alloc, reply)?);
        Ok(())
    }

    // The handle that the reply to a call has.
    fn handle_by(&mut self, call: Output) -> Result<Sought<Vec<u8>>, SeekFault> {
        let call = copy_of(self.alloc, call.bytes())?;
        let exchange = self.exchange(call)?;
        let handle = match &exchange.reply {
            Some(reply) => handle_in(reply.as_slice()),
            None => None,
        };
        match handle {
            Some(handle) => Ok(Sought::Found(copy_of(self.alloc, handle)?)),
            None => Ok(Sought::Failed(exchange)),
        }
    }

    // Who looks for a file, with the next number.
    fn caller<'c>(&mut self, cred: &'c Cred) -> Caller<'c> {
        let xid = self.next_xid;
        self.next_xid = xid.checked_add(1).unwrap_or(FIRST_XID);
        Caller {
            alloc: self.alloc,
            xid,
            cred,
        }
    }
}

/// The bytes of a handle, as many as one may have.
pub(crate) fn short_handle(handle: &[u8]) -> &[u8]
    ensures { length result.now ≤ 64 }
{
    &handle[..handle.len().min(MAX_HANDLE_BYTES)]
}

// The volume with the longest path that a path goes on from, and what stands after it.
fn nearest<'v, 'a>(volumes: &'v [Vec<u8>], path: &'a [u8]) -> Option<(&'v [u8], &'a [u8])> {
    let mut found: Option<(&[u8], &[u8])> = None;
    for volume in volumes {
        if let Some(rest) = rest_of(volume.as_slice(), path)
            && found.is_none_or(|(_, left)| rest.len() < left.len())
        {
            found = Some((volume.as_slice(), rest));
        }
    }
    found
}

fn copy_of(alloc: Global, bytes: &[u8]) -> Result<Vec<u8>, AllocError> {
    let mut copy = Vec::new(alloc);
    copy.extend_from_slice(bytes)?;
    Ok(copy)
}

// Sends a record as one fragment.
fn send<S: Write>(stream: &mut S, record: &[u8]) -> io::Result<()> {
    if record.len() > MOST_SENT {
        return Err(io::Error::new(
            ErrorKind::InvalidInput,
            "a record has at most 2147483647 bytes",
        ));
    }
    let mark = LAST | record.len() as u32;
    stream.write_all(&mark.to_be_bytes())?;
    stream.write_all(record)
}

// The next reply. `None` where none comes for long.
fn receive<S: Read>(alloc: Global, stream: &mut S) -> io::Result<Option<Vec<u8>>> {
    let mut reply = Vec::new(alloc);
    for _ in 0..MOST_FRAGMENTS {
        let mut mark = [0; 4];
        match stream.read_exact(&mut mark) {
            Ok(()) => {}
            Err(error) if reply.is_empty() && is_silence(error.kind()) => return Ok(None),
            Err(error) => return Err(error),
        }
        let mark = u32::from_be_bytes(mark);
        receive_fragment(stream, &mut reply, (mark & !LAST) as usize)?;
        if mark & LAST != 0 {
            return Ok(Some(reply));
        }
    }
    Err(too_long())
}

// Whether a read ended since nothing came.
fn is_silence(kind: ErrorKind) -> bool {
    matches!(kind, ErrorKind::WouldBlock | ErrorKind::TimedOut)
}

// Adds a fragment of so many bytes.
fn receive_fragment<S: Read>(stream: &mut S, reply: &mut Vec<u8>, len: usize) -> io::Result<()> {
    let before = reply.len();
    if len > MOST_REPLY.saturating_sub(before) {
        return Err(too_long());
    }
    reply.resize(before.saturating_add(len), 0)?;
    match reply.as_mut_slice().get_mut(before..) {
        Some(fragment) => stream.read_exact(fragment),
        None => Ok(()),
    }
}

fn too_long() -> io::Error {
    io::Error::new(ErrorKind::InvalidData, "a reply has more than 16 MiB")
}
