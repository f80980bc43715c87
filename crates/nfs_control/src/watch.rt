//! The description of a service, whose exports are read again when its file changes.
ghost use Rattle.nfs_loop.specs.Attending.{MayReload};

use crate::reloading::reload;
use log::{Log, info, warn};
use nfs_server::server::Server;
use std::alloc::Global;
use std::fs;
use std::os::unix::fs::MetadataExt;
use std::rt::Files;

/// How a file stands: when it was written last, its size, and which file it is.
#[derive(Clone, Copy, Debug, PartialEq, Eq)]
struct Version {
    seconds: i64,
    nanos: i64,
    size: u64,
    number: u64,
}

/// A description that is watched.
#[derive(Drop)]
pub struct Watch<'a, R> {
    rt: &'a R,
    alloc: Global,
    name: &'a str,
    // What was read last.
    seen: Option<Version>,
}

impl<'a, R: Files + Input> Watch<'a, R> {
    /// The description of this name, as it stands now.
    pub fn new(rt: &'a R, alloc: Global, name: &'a str) -> Watch<'a, R> {
        Watch {
            rt,
            alloc,
            name,
            seen: version_of(rt, name),
        }
    }

    /// Reads the exports again where the file has changed, and logs that. Where they can't be taken, that is a warning,
    /// and they are as before. A file that is gone is waited for.
    pub fn attend<Q: Log>(&mut self, log: &Q, server: &mut Server)
        ensures { MayReload server.old server.new }
    {
        let version = version_of(self.rt, self.name);
        if version.is_none() || version == self.seen {
            return;
        }
        self.seen = version;
        match reload(self.rt, self.alloc, Some(self.name), server) {
            Ok(answer) => match answer.strip_prefix("error: ") {
                Some(fault) => warn!(log; "the exports are as before: {}", fault.trim_end()),
                None => info!(log; "{}", answer.trim_end()),
            },
            Err(_) => warn!(log; "the exports are as before: out of memory"),
        }
    }
}

// How the file of a name stands; `None` where that can't be read.
fn version_of<R: Files>(rt: &R, name: &str) -> Option<Version> {
    let metadata = fs::metadata(rt, name).ok()?;
    Some(Version {
        seconds: metadata.mtime(),
        nanos: metadata.mtime_nsec(),
        size: metadata.len(),
        number: metadata.ino(),
    })
}
