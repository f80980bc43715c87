//! Answers to what a service is asked.
ghost use Rattle.nfs_loop.specs.Attending.{MayReload};

use crate::clients::clients_text;
use crate::denied::denied_text;
use crate::figures::Figures;
use crate::metrics::metrics_of;
use crate::mounts::mounts_text;
use crate::reloading::reload;
use crate::resident::resident_bytes;
use crate::socket::About;
use crate::status::status_text;
use crate::unsaved::reason;
use crate::visit::MOST_ANSWER_BYTES;
use crate::words::{Word, WordFault};
use nfs_loop::view::ServiceView;
use nfs_named::named::is_same_file;
use nfs_saving::copies::CopySaver;
use nfs_server::server::Server;
use nfs_xdr::link::Link;
use std::alloc::{AllocError, Global};
use std::random::RandomSource;
use std::rt::Files;

// Why a tree is not saved to a file.
const OF_JOURNAL: &str =
    "error: that would replace the description that the journal belongs to: save to another file\n";

/// What answers.
#[derive(Drop)]
pub(crate) struct Answering<'r, 'v, 'w, 'c, 'b, 'x, 'y, L: Drop, R, Q> {
    /// What reads files.
    pub(crate) rt: &'r R,
    pub(crate) alloc: Global,
    /// How the service is seen.
    pub(crate) view: &'v ServiceView<'w, L>,
    /// What saves the tree.
    pub(crate) copies: &'c mut CopySaver<'b, Q>,
    /// What is known of the service.
    pub(crate) about: &'x About<'y>,
}

/// Lines that are answered.
#[derive(Drop)]
pub(crate) struct Answer {
    /// The lines.
    pub(crate) text: Vec<u8>,
    /// Whether the service is to end.
    pub(crate) stops: bool,
}

impl<L: Link + Drop, R: Files + Input, Q: Files + RandomSource> Answering<
    '_,
    '_,
    '_,
    '_,
    '_,
    '_,
    '_,
    L,
    R,
    Q,
> {
    /// The answer to a line, once what it asks for is done. Of the server nothing changes but its exports.
    /// `AllocError` where there is no memory for it.
    pub(crate) fn answer(&mut self, server: &mut Server, line: &[u8]) -> Result<Answer, AllocError>
        ensures { MayReload server.old server.new }
    {
        let Ok(line) = str::from_utf8(line) else {
            return self.fault(WordFault::NoText);
        };
        match Word::read(line) {
            Ok(Word::Stop(name)) => self.stop(name),
            Ok(word) => {
                let text = self.text_of(server, word)?;
                going_on(self.bounded(text)?)
            }
            Err(WordFault::NoSuchWord) => {
                let fault = WordFault::NoSuchWord;
                going_on(format!(in self.alloc;
                    "error: no such word: {line}; {fault}\n"
                )?.into_bytes())
            }
            Err(fault) => self.fault(fault),
        }
    }

    /// The answer to a line that asks for nothing.
    pub(crate) fn fault(&self, fault: WordFault) -> Result<Answer, AllocError> {
        going_on(format!(in self.alloc; "error: {fault}\n")?.into_bytes())
    }

    // What is answered to a word after which the service goes on.
    fn text_of(&mut self, server: &mut Server, word: Word<'_>) -> Result<Vec<u8>, AllocError>
        ensures { MayReload server.old server.new }
    {
        let alloc = self.alloc;
        match word {
            Word::Status => self.status(server),
            Word::Clients => clients_text(alloc, self.view),
            Word::Mounts => mounts_text(alloc, server),
            Word::Denied(most) => { denied_text(alloc, server.tree(), self.view.denials, most) }
            Word::Metrics => metrics_of(self.rt, alloc, server, self.view),
            Word::Reload => { Ok(self.reload(server)?.into_bytes()) }
            Word::Save(name) => Ok(self.save(server, name)?.into_bytes()),
            Word::Stop(_) => Ok(Vec::new(alloc)),
        }
    }

    // Puts the exports of the description in force, unless a journal belongs to those that are.
    fn reload(&self, server: &mut Server) -> Result<String, AllocError>
        ensures { MayReload server.old server.new }
    {
        if self.about.has_journal {
            return "error: a service with a journal keeps its exports; start it again to put others in force\n".to_string(
                self.alloc,
            );
        }
        reload(self.rt, self.alloc, self.about.description, server)
    }

    // The end of the service, once its tree will be saved to this file, if one is named. One may be named once.
    fn stop(&mut self, name: Option<&str>) -> Result<Answer, AllocError> {
        if let Some(name) = name
            && let Some(refusal) = self.refusal_to_save_last(name)?
        {
            return going_on(refusal.into_bytes());
        }
        Ok(Answer {
            text: "stopping\n".to_string(self.alloc)?.into_bytes(),
            stops: true,
        })
    }

    // Has the tree saved to this file at the end, or says why it can't be.
    fn refusal_to_save_last(&mut self, name: &str) -> Result<Option<String>, AllocError> {
        if self.is_of_journal(name) {
            return Ok(Some(OF_JOURNAL.to_string(self.alloc)?));
        }
        if let Some(earlier) = self.copies.last_name() {
            return Ok(Some(format!(in self.alloc;
                "error: the service is stopping already, and saves its tree to {earlier}\n"
            )?));
        }
        match self.copies.set_last_name(name) {
            Ok(()) => Ok(None),
            Err(fault) => Ok(Some(reason(self.alloc, &fault, "")?)),
        }
    }

    // An answer, unless it is too long.
    fn bounded(&self, text: Vec<u8>) -> Result<Vec<u8>, AllocError> {
        if text.len() <= MOST_ANSWER_BYTES {
            return Ok(text);
        }
        let most = MOST_ANSWER_BYTES;
        Ok(format!(in self.alloc; "error: the answer has more than {most} bytes\n")?.into_bytes())
    }

    // How the service stands.
    fn status(&self, server: &Server) -> Result<Vec<u8>, AllocError> {
        let figures = Figures::of(server, self.view, resident_bytes(self.rt));
        let first = self.about.first_lines.as_bytes();
        status_text(self.alloc, first, &figures, server.tree())
    }

    // Saves the tree: to this file, or where the service saves it.
    fn save(&mut self, server: &Server, name: Option<&str>) -> Result<String, AllocError> {
        let Some(name) = name.or(self.copies.name()) else {
            return "error: name a file, since the service has no --save\n".to_string(self.alloc);
        };
        if self.is_of_journal(name) {
            return OF_JOURNAL.to_string(self.alloc);
        }
        match self.copies.save_as(server, name) {
            Ok(()) => format!(in self.alloc; "saved {name}\n"),
            Err(fault) => reason(self.alloc, &fault, ""),
        }
    }

    // Whether this is the file of the description to which the journal of the service belongs.
    fn is_of_journal(&self, name: &str) -> bool {
        match self.about.description {
            Some(description) => {
                self.about.has_journal && is_same_file(self.rt, name, description)
            }
            None => false,
        }
    }
}

// An answer after which the service goes on.
fn going_on(text: Vec<u8>) -> Result<Answer, AllocError> {
    Ok(Answer { text, stops: false })
}
