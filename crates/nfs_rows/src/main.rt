//! Answers rows about records and connections: the calls of a server of the description `e.tree`, or
//! of one that the rows write.
#![tactic(auto)]

mod calls;
mod connections;
mod description;
mod heads;
mod record;
mod reply_cache;
mod stream;

use crate::calls::Calls;
use crate::connections::Connections;
use rows::sheet::{self, Answers};
use std::alloc::Global;
use std::process::ExitCode;
use std::rt::{Env, Files};
use std::str::SplitWhitespace;
use std::{fs, io};

#[derive(Drop)]
struct Asked<'a> {
    alloc: Global,
    calls: Calls<'a>,
    connections: Connections<'a>,
}

impl<'a> Asked<'a> {
    fn new(alloc: Global, example: &'a [u8]) -> Option<Asked<'a>> {
        Some(Asked {
            alloc,
            calls: Calls::new(alloc, example)?,
            connections: Connections::new(alloc, example)?,
        })
    }
}

impl<'a> Answers for Asked<'a> {
    fn answer(&mut self, verb: &str, words: &mut SplitWhitespace<'_>) -> Option<String> {
        match verb {
            "head" => heads::head(self.alloc, words),
            "heads" => heads::heads(self.alloc, words),
            "open"
            | "attach"
            | "detach"
            | "feed"
            | "pieces"
            | "cuts"
            | "stutter"
            | "audit"
            | "beside" => self.connections.answer(verb, words),
            _ => self.calls.answer(verb, words),
        }
    }
}

fn main(rt: HostRuntime) -> ExitCode {
    match ask(&rt) {
        Ok(code) => code,
        Err(error) => {
            let _ = eprintln!(rt; "{error}");
            ExitCode::from(2)
        }
    }
}

fn ask<R: Env + Files + Print + AllocGlobal>(rt: &R) -> io::Result<ExitCode> {
    let example = fs::read(rt, "e.tree")?;
    match Asked::new(rt.alloc(), example.as_slice()) {
        Some(mut asked) => sheet::run(rt, &mut asked),
        None => Err(io::Error::from(io::ErrorKind::InvalidData)),
    }
}
