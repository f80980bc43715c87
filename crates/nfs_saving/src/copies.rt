//! Where and when the tree of a server is saved.
ghost use Rattle.std.specs.Prelude.{◌≡◌, ◌⊎◌, IsErr, None, OnErr, OnOk, Some, option_map, string_bytes};
ghost use Rattle.nfs_saving.specs.Saving.{IsDigest};

use crate::key::{KEY_BYTES, given_key};
use crate::saved_file::try_place;
use crate::saving::{Saved, save, save_changed};
use log::{Log, info, warn};
use nfs_server::server::Server;
use nfs_source::diagnostic::Diagnostic;
use nfs_source::fault::Fault;
use std::alloc::Global;
use std::io;
use std::random::RandomSource;
use std::rt::Files;
use std::time::{Clock, Duration, Instant};

// A saving that takes longer is warned of, since no client is answered meanwhile.
const LONG_MILLIS: u128 = 1_000;

/// Where the tree is saved, if it is to be.
#[derive(Clone, Copy)]
pub struct Copies<'a> {
    name: Option<&'a str>,
    // Without it a new one each time.
    key: Option<[u8; KEY_BYTES]>,
}

impl<'a> Copies<'a> {
    /// As the words say: the file, and the key in hexadecimal digits. The fault of `try_place`, so that
    /// nothing is served or run first.
    pub fn of<R: Files>(
        rt: &R,
        alloc: Global,
        name: Option<&'a str>,
        key: Option<&str>,
    ) -> Result<Copies<'a>, Diagnostic> {
        if let Some(name) = name {
            if let Err(fault) = try_place(rt, alloc, name) {
                return Err(Diagnostic::of_saving(alloc, fault));
            }
        }
        Ok(Copies {
            name,
            key: key.and_then(given_key),
        })
    }

    /// Saves the tree at the end of a service that had begun, also where a fault ended it. The fault of the
    /// service, or else that of `save`; where there are both, that of `save` is reported first.
    pub fn save_last<R: Files + RandomSource + Eprint>(
        &self,
        rt: &R,
        alloc: Global,
        server: &Server,
        served: Result<(), Fault>,
    ) -> Result<(), Diagnostic>
        ensures { IsErr served → IsErr result }
    {
        let saved = self.save_now(rt, alloc, server);
        match (served, saved) {
            (Ok(()), saved) => saved,
            (Err(fault), Ok(())) => Err(fault.into()),
            (Err(fault), Err(unsaved)) => {
                unsaved.report(rt);
                Err(fault.into())
            }
        }
    }

    // Saves the tree, if it is to be.
    fn save_now<R: Files + RandomSource>(
        &self,
        rt: &R,
        alloc: Global,
        server: &Server,
    ) -> Result<(), Diagnostic> {
        let Some(name) = self.name else {
            return Ok(());
        };
        match save(rt, alloc, name, server, self.key) {
            Ok(()) => Ok(()),
            Err(fault) => Err(Diagnostic::of_saving(alloc, fault)),
        }
    }

    /// What saves the tree while it is served.
    pub fn saver<'b, R>(&'b self, rt: &'b R, alloc: Global) -> CopySaver<'b, R> {
        CopySaver {
            rt,
            alloc,
            name: self.name,
            key: self.key,
            saved: None,
            last_name: None,
        }
    }
}

/// What saves the tree while it is served.
#[derive(Drop)]
pub struct CopySaver<'a, R> {
    rt: &'a R,
    alloc: Global,
    name: Option<&'a str>,
    key: Option<[u8; KEY_BYTES]>,
    // The digest of what was saved last.
    saved: Option<[u8; 32]>,
    // Where the tree is saved when the service ends, beside the file of that name.
    last_name: Option<String>,
}

impl<R: Files + RandomSource + Clock + Log> CopySaver<'_, R> {
    /// Saves the tree, and logs how long it took. A fault is a warning. A tree that is as it was saved last is
    /// not saved again.
    pub fn save(&mut self, server: &Server)
        ensures { (self.new.saved ≡ self.old.saved) ⊎ IsDigest self.old.key server.now self.new.saved }
    {
        let Some(name) = self.name else {
            return;
        };
        let began = Instant::now(self.rt);
        let done = save_changed(self.rt, self.alloc, name, server, self.key, &mut self.saved);
        log_saved(self.rt, name, began, done);
    }
}

impl<'a, R: Files + RandomSource> CopySaver<'a, R> {
    /// The file where the tree is saved, if it is to be.
    pub fn name(&self) -> Option<&'a str>
        ensures { result ≡ self.now.name }
    {
        self.name
    }

    /// Saves the tree to the file of this name, whether it has changed or not. Since that may be the file where it is
    /// saved, the next saving writes it in any case. The faults of `try_place` and of `save`.
    pub fn save_as(&mut self, server: &Server, name: &str) -> Result<(), Fault>
        ensures { self.new ≡ record self.old { saved = None } }
    {
        self.saved = None;
        try_place(self.rt, self.alloc, name)?;
        save(self.rt, self.alloc, name, server, self.key)
    }

    /// The file to which `save_last` saves the tree, if one was named.
    pub fn last_name(&self) -> Option<&str>
        ensures { option_map (λ name. name.now) result ≡ option_map string_bytes self.now.last_name }
    {
        match &self.last_name {
            Some(name) => Some(name.as_str()),
            None => None,
        }
    }

    /// Names the file to which `save_last` saves the tree. The faults of `try_place`, with which none is named; `Memory`.
    pub fn set_last_name(&mut self, name: &str) -> Result<(), Fault>
        ensures ok { OnOk result (option_map string_bytes self.new.last_name ≡ Some name.now) }
        ensures err { OnErr result (self.new ≡ self.old) }
    {
        try_place(self.rt, self.alloc, name)?;
        self.last_name = Some(name.to_string(self.alloc)?);
        Ok(())
    }

    /// Saves the tree for the end of a service: where it is saved, and to the file that was named for the end, if there
    /// are such. The faults of `save`, with which no file is named for the end any more.
    pub fn save_to_end(&mut self, server: &Server) -> Result<(), Fault>
        ensures ok { OnOk result (self.new ≡ self.old) }
        ensures err { OnErr result (self.new ≡ record self.old { last_name = None }) }
    {
        let saved = self.save_all(server);
        if saved.is_err() {
            self.last_name = None;
        }
        saved
    }

    // The same, which names nothing.
    fn save_all(&self, server: &Server) -> Result<(), Fault> {
        if let Some(name) = self.name {
            save(self.rt, self.alloc, name, server, self.key)?;
        }
        self.save_last(server)
    }

    /// Saves the tree to the file that was named for the end, if one was. The faults of `save`.
    pub fn save_last(&self, server: &Server) -> Result<(), Fault> {
        match &self.last_name {
            Some(name) => save(self.rt, self.alloc, name.as_str(), server, self.key),
            None => Ok(()),
        }
    }
}

// Logs what is saved, and how long it took, or why it isn't.
fn log_saved<R: Clock + Log>(
    rt: &R,
    name: &str,
    began: io::Result<Instant>,
    done: Result<Saved, Fault>,
) {
    match done {
        Ok(Saved::Written) => log_time(rt, name, began),
        Ok(Saved::Unchanged) => {}
        Err(fault) => warn!(rt; "{fault}"),
    }
}

// Logs how long a saving took; nothing where the clock fails.
fn log_time<R: Clock + Log>(rt: &R, name: &str, began: io::Result<Instant>) {
    let Ok(took) = elapsed(rt, began) else {
        return;
    };
    let millis = took.as_millis();
    if millis > LONG_MILLIS {
        warn!(rt; "{name}: saved in {millis} ms, during which no client was served");
    } else {
        info!(rt; "{name}: saved in {millis} ms");
    }
}

fn elapsed<R: Clock>(rt: &R, began: io::Result<Instant>) -> io::Result<Duration> {
    began?.elapsed(rt)
}
