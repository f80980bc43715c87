//! Files that lines are written to without waiting for who reads them.
ghost use Rattle.std.specs.Prelude.{◌≤◌, None, IfOk, length};

use mio::unix::SourceFd;
use mio::{Events, Interest, Poll, Token};
use nfs_lines::line_out::LineOut;
use nfs_xdr::device::DeviceFault;
use std::alloc::Global;
use std::io::{self, ErrorKind, Write};
use std::net::Net;
use std::os::fd::RawFd;
use std::time::Duration;

/// The descriptor of standard output.
pub const STANDARD_OUTPUT: RawFd = 1;

// So many bytes a pipe or a terminal takes at once where it is ready for some: a page.
const AT_ONCE: usize = 4_096;

const FILE: Token = Token(0);

/// A file, a pipe or a terminal, of whose bytes nothing is known. A pipe and a terminal are written to
/// only where the system says that they are ready.
#[derive(Drop)]
pub struct LineFile<W> {
    writer: W,
    fd: RawFd,
    // None of what is always ready.
    poll: Option<Poll>,
    events: Events,
    // How many bytes it takes before it has to be asked again.
    ready: usize,
}

impl<W: Write + Drop> LineFile<W> {
    /// What this writer writes to, by its descriptor.
    pub fn new<R: Net>(rt: &R, alloc: Global, writer: W, fd: RawFd) -> io::Result<LineFile<W>> {
        let poll = Poll::new(rt)?;
        // The system polls no regular file, which is always ready.
        let is_polled = poll
            .registry()
            .register(&mut SourceFd(&fd), FILE, Interest::WRITABLE)
            .is_ok();
        Ok(LineFile {
            writer,
            fd,
            poll: if is_polled { Some(poll) } else { None },
            events: Events::with_capacity(alloc, 1)?,
            ready: 0,
        })
    }

    // How many bytes are taken without waiting.
    fn room(&mut self) -> usize {
        let Some(poll) = &mut self.poll else {
            return usize::MAX;
        };
        if self.ready > 0 {
            return self.ready;
        }
        let mut source = SourceFd(&self.fd);
        // Registered again, its readiness is reported even where that was reported before.
        let asked = poll
            .registry()
            .reregister(&mut source, FILE, Interest::WRITABLE);
        if asked.is_ok()
            && poll.poll(&mut self.events, Some(Duration::ZERO)).is_ok()
            && self.events.iter().next().is_some()
        {
            self.ready = AT_ONCE;
        }
        self.ready
    }

    // Writes some first bytes, as many as are taken at once without waiting.
    fn write_some(&mut self, bytes: &[u8]) -> Result<usize, DeviceFault>
        ensures { IfOk result (λ n. n ≤ length bytes.now) }
    {
        let most = self.room().min(bytes.len());
        if most == 0 {
            return Ok(0);
        }
        match self.writer.write(&bytes[..most]) {
            Ok(n) => {
                self.ready = self.ready.saturating_sub(n);
                Ok(n)
            }
            Err(error) => match error.kind() {
                ErrorKind::WouldBlock | ErrorKind::Interrupted => Ok(0),
                _ => Err(DeviceFault),
            },
        }
    }
}

impl<W: Write + Drop> LineOut for LineFile<W> {
    ghost taken = { λ f. None };

    fn send(&mut self, bytes: &[u8]) -> Result<usize, DeviceFault> {
        let mut sent = 0;
        while sent < bytes.len() {
            match self.write_some(&bytes[sent..]) {
                Ok(0) => break,
                Ok(n) => sent += n,
                Err(_) if sent > 0 => break,
                Err(fault) => return Err(fault),
            }
        }
        Ok(sent)
    }
}
