//! The fields of a line, read from left to right.
ghost use Rattle.std.specs.Prelude.{◌≡◌, [], Ok};
ghost use Rattle.nfs_inodes.specs.Tree.{on_some};
ghost use Rattle.nfs_text.specs.Words.{words_left};
ghost use Rattle.nfs_load.specs.Fields.{by, content_in, key_in, mode_in, number_in, options_at, pattern_in, target_in, SaysBytes, OfNext, Takes, TakesIfRoom};
ghost use Rattle.nfs_load.specs.Moments.{moment_in};
ghost use Rattle.nfs_load.specs.Names.{form_in};
ghost use Rattle.nfs_load.specs.Paths.{path_in, path_or_root_in, volume_path_in};

use crate::cause::Cause;
use crate::field::{read_content, read_key, read_mode, read_number, read_target};
use crate::limits::MAX_ID;
use crate::moment::read_moment;
use crate::name_form::NameForm;
use crate::path::{Path, read_path, read_path_or_root, read_volume_path};
use crate::refusal::Refusal;
use crate::target::Target;
use nfs_attrs::moment::Moment;
use nfs_content::pages::Pages;
use nfs_exports::options::{Options, parse_options};
use nfs_exports::pattern::{Pattern, parse_pattern};
use nfs_inodes::tree::Tree;
use nfs_text::words::Words;
use std::alloc::Global;
use std::marker::Model;

/// The fields of a line that are to come. Contracts see a list of words.
#[derive(Drop)]
pub struct Fields<'a> {
    words: Words<'a>,
}

impl<'a> Model for Fields<'a> {
    ghost use Rattle.std.specs.Prelude.{ℕ, List};
    ghost use Rattle.nfs_text.specs.Words.{words_left};

    ghost Value = { List (List ℕ) };

    ghost view = { λ fields. words_left fields.words };
}

impl<'a> Fields<'a> {
    /// The fields that these words are.
    pub fn new(words: Words<'a>) -> Fields<'a>
        ensures { result ≡ words_left words.entry }
    {
        Fields { words }
    }

    // The next field. `FieldCount` where there is none.
    fn next(&mut self) -> Result<&'a [u8], Cause>
        ensures { Takes (λ text. text.now) self.new result (by (λ field. Ok field) self.old) }
    {
        match self.words.next() {
            Some(field) => Ok(field),
            None => Err(Cause::FieldCount),
        }
    }

    /// A server's key, of 16 hexadecimal digits. `BadKey` where the field is none.
    pub fn key(&mut self) -> Result<[u8; 8], Cause>
        ensures { Takes (λ key. key) self.new result (by key_in self.old) }
    {
        read_key(self.next()?)
    }

    /// A mode, of one to four octal digits. `BadNumber` where the field is none.
    pub fn mode(&mut self) -> Result<u32, Cause>
        ensures { Takes (λ mode. mode) self.new result (by mode_in self.old) }
    {
        read_mode(self.next()?)
    }

    /// A number from `min` to `max`, in decimal digits. `BadNumber` where the field is none.
    pub fn number(&mut self, min: u64, max: u64) -> Result<u64, Cause>
        ensures { Takes (λ number. number) self.new result (by (number_in min max) self.old) }
    {
        read_number(self.next()?, min, max)
    }

    /// A path. `BadPath` where the field is none.
    pub fn path(&mut self, names: NameForm) -> Result<Path<'a>, Cause>
        ensures { Takes (λ path. path) self.new result (by (path_in names) self.old) }
    {
        read_path(self.next()?, names)
    }

    /// A path, or `None` for the root. `BadPath` where the field is neither.
    pub fn path_or_root(&mut self, names: NameForm) -> Result<Option<Path<'a>>, Cause>
        ensures { Takes (λ path. on_some path [] (λ names. names)) self.new result (by (path_or_root_in names) self.old) }
    {
        read_path_or_root(self.next()?, names)
    }

    /// A time. `BadNumber` where the field is none.
    pub fn moment(&mut self) -> Result<Moment, Cause>
        ensures { Takes (λ moment. moment) self.new result (by moment_in self.old) }
    {
        read_moment(self.next()?)
    }

    /// A volume's path. `BadVolumePath` where the field is none.
    pub(crate) fn volume_path(&mut self) -> Result<&'a [u8], Cause>
        ensures { Takes (λ text. text.now) self.new result (by volume_path_in self.old) }
    {
        read_volume_path(self.next()?)
    }

    /// The number of a user or a group, in decimal digits. `BadNumber` where the field is none.
    pub fn id(&mut self) -> Result<u32, Cause>
        ensures { Takes (λ id. id) self.new result (by (number_in 0 4294967295) self.old) }
    {
        let id = self.number(0, MAX_ID)?;
        Ok(id as u32)
    }

    /// How many files a volume may have: at least one. `BadNumber` where that is more than the tree
    /// takes.
    pub fn files(&mut self, tree: &Tree) -> Result<u64, Cause>
        ensures { Takes (λ files. files) self.new result (by (number_in 1 tree.now.limits.files) self.old) }
    {
        self.number(1, tree.limits().files)
    }

    /// How names are written. `BadNames` where the field is not `percent`, or where that has been said.
    pub fn name_form(&mut self, old: NameForm) -> Result<NameForm, Cause>
        ensures { Takes (λ form. form) self.new result (by (form_in old) self.old) }
    {
        old.read(self.next()?)
    }

    /// What a symbolic link holds. `BadContent` where the field is none, or says more bytes than the tree
    /// takes of one.
    pub fn target(&mut self, names: NameForm, tree: &Tree) -> Result<Target<'a>, Cause>
        ensures { Takes (λ target. target) self.new result (by (target_in names tree.now.limits.link_path) self.old) }
    {
        read_target(self.next()?, names, tree)
    }

    /// A pattern of addresses. `BadPattern` where the field is none.
    pub fn pattern(&mut self) -> Result<Pattern, Cause>
        ensures { Takes (λ pattern. pattern) self.new result (by pattern_in self.old) }
    {
        match parse_pattern(self.next()?) {
            Ok(pattern) => Ok(pattern),
            Err(_) => Err(Cause::BadPattern),
        }
    }

    /// Options, or those that hold where nothing is said. `BadOptions` where the field is none.
    pub fn options(&mut self) -> Result<Options, Cause>
        ensures { Takes (λ options. options) self.new result (options_at self.old) }
    {
        let Some(field) = self.words.next() else {
            return Ok(Options::default_options());
        };
        match parse_options(field) {
            Ok(options) => Ok(options),
            Err(_) => Err(Cause::BadOptions),
        }
    }

    /// A file's bytes, two hexadecimal digits each, or `-` for none. `BadContent` where the field
    /// is neither, or says more bytes than the tree takes of a file.
    pub fn content(&mut self, alloc: Global, tree: &Tree) -> Result<Pages, Refusal>
        ensures { TakesIfRoom (λ content. content) (OfNext (SaysBytes tree.now.limits.file_size) self.old) self.new result
            (by (content_in tree.now.limits.file_size) self.old) }
    {
        read_content(alloc, self.next()?, tree)
    }
}
