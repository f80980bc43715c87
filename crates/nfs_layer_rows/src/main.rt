//! Answers rows about what lies below records: items, credentials, framing, attributes, arguments,
//! results, contents, handles, the tree of files, which is at first that of the description `e.tree`, and the
//! rules of procedures.
#![tactic(auto)]

mod arguments;
mod attribute_sizes;
mod attributes;
mod contents;
mod counts;
mod credentials;
mod framing;
mod handles;
mod items;
mod results;
mod tree;
mod verdicts;
mod views;
mod walk;

use crate::contents::Contents;
use crate::framing::Framing;
use crate::handles::Numbered;
use crate::items::Written;
use crate::tree::Served;
use crate::verdicts::Exported;
use rows::sheet::{self, Answers};
use std::alloc::Global;
use std::process::ExitCode;
use std::rt::{Env, Files};
use std::str::SplitWhitespace;
use std::{fs, io};

#[derive(Drop)]
struct Asked<'a> {
    alloc: Global,
    written: Written,
    framing: Framing,
    contents: Contents,
    numbered: Numbered,
    served: Served<'a>,
    exported: Exported,
}

impl<'a> Asked<'a> {
    fn new(alloc: Global, example: &'a [u8]) -> Option<Asked<'a>> {
        Some(Asked {
            alloc,
            written: Written::new(alloc).ok()?,
            framing: Framing::new(alloc),
            contents: Contents::new(alloc),
            numbered: Numbered::new(alloc),
            served: Served::new(alloc, example)?,
            exported: Exported::new(alloc, example)?,
        })
    }
}

impl<'a> Answers for Asked<'a> {
    fn answer(&mut self, verb: &str, words: &mut SplitWhitespace<'_>) -> Option<String> {
        match verb {
            "item" => items::item(self.alloc, words),
            "write" => self.written.answer(words),
            "device" => items::device(self.alloc, words),
            "reader" => items::reader(self.alloc, words),
            "cred" => credentials::answer(self.alloc, words),
            "frame" => self.framing.answer(words),
            "args" => arguments::answer(self.alloc, words),
            "result" => results::answer(self.alloc, words),
            "attr" => attributes::answer(self.alloc, words),
            "content" => self.contents.answer(words),
            "files" => self.numbered.answer(words),
            "tree" => self.served.answer(words),
            "view" => views::answer(self.alloc, self.served.tree(), words),
            "verdict" => self.exported.answer(words),
            "walk" => walk::answer(self.alloc, words),
            _ => None,
        }
    }
}

fn main(rt: HostRuntime) -> ExitCode {
    match ask(&rt) {
        Ok(code) => code,
        Err(error) => {
            let _ = eprintln!(rt; "{error}");
            ExitCode::from(2)
        }
    }
}

fn ask<R: Env + Files + Print + AllocGlobal>(rt: &R) -> io::Result<ExitCode> {
    let example = fs::read(rt, "e.tree")?;
    match Asked::new(rt.alloc(), example.as_slice()) {
        Some(mut asked) => sheet::run(rt, &mut asked),
        None => Err(io::Error::from(io::ErrorKind::InvalidData)),
    }
}
