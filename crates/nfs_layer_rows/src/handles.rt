//! Numbered files and their handles.

use nfs_handles::files::Files;
use nfs_handles::number::Number;
use rows::answers::{debug_text, digits, text};
use rows::words::{bytes, number};
use std::alloc::Global;
use std::str::SplitWhitespace;

const KEY: [u8; 8] = [1, 2, 3, 4, 5, 6, 7, 8];

/// Numbers kept as files.
#[derive(Drop)]
pub(crate) struct Numbered {
    alloc: Global,
    files: Files<u64>,
}

impl Numbered {
    /// No files.
    pub(crate) fn new(alloc: Global) -> Numbered {
        Numbered {
            alloc,
            files: Files::new(alloc, KEY, 1),
        }
    }

    /// `files new FIRST`, `files next`, `files key`, `files put VALUE`, `files get NUMBER`, `files
    /// halve NUMBER`, `files take NUMBER`, `files handle NUMBER`, `files read BYTES` and `files
    /// find BYTES`.
    pub(crate) fn answer(&mut self, words: &mut SplitWhitespace<'_>) -> Option<String> {
        match words.next()? {
            "new" => self.begin(words),
            "next" => self.next(),
            "key" => digits(self.alloc, &self.files.key()),
            "put" => self.put(words),
            "get" => self.get(words),
            "halve" => self.halve(words),
            "take" => self.take(words),
            "handle" => self.handle(words),
            "read" => self.read(words),
            "find" => self.find(words),
            _ => None,
        }
    }

    fn begin(&mut self, words: &mut SplitWhitespace<'_>) -> Option<String> {
        let first = number(words)?.max(1);
        self.files = Files::new(self.alloc, KEY, first);
        text(self.alloc, "done")
    }

    fn next(&self) -> Option<String> {
        let next = self.files.next();
        debug_text(self.alloc, next)
    }

    fn put(&mut self, words: &mut SplitWhitespace<'_>) -> Option<String> {
        let put = self.files.put(number(words)?);
        debug_text(self.alloc, put)
    }

    fn get(&self, words: &mut SplitWhitespace<'_>) -> Option<String> {
        let value = self.files.get(Number::new(number(words)?));
        debug_text(self.alloc, value)
    }

    fn halve(&mut self, words: &mut SplitWhitespace<'_>) -> Option<String> {
        match self.files.get_mut(Number::new(number(words)?)) {
            Some(value) => *value /= 2,
            None => return text(self.alloc, "None"),
        }
        text(self.alloc, "done")
    }

    fn take(&mut self, words: &mut SplitWhitespace<'_>) -> Option<String> {
        let value = self.files.take(Number::new(number(words)?));
        debug_text(self.alloc, value)
    }

    fn handle(&self, words: &mut SplitWhitespace<'_>) -> Option<String> {
        let number = Number::new(number(words)?);
        self.files.law();
        if self.files.get(number).is_none() {
            return text(self.alloc, "None");
        }
        digits(self.alloc, &self.files.handle(number))
    }

    fn read(&self, words: &mut SplitWhitespace<'_>) -> Option<String> {
        let handle = bytes(self.alloc, words)?;
        let reading = self.files.read(handle.as_slice());
        debug_text(self.alloc, reading)
    }

    fn find(&self, words: &mut SplitWhitespace<'_>) -> Option<String> {
        let handle = bytes(self.alloc, words)?;
        let found = self.files.find(handle.as_slice());
        debug_text(self.alloc, found)
    }
}
