//! Descriptions that are loaded line by line.
ghost use Rattle.std.specs.Prelude.{◌≡◌, ℕ, List, [], ◌∷◌, ◌++◌, Ok, IfOk, IfSome, OnOk, length, option_map, true};
ghost use Rattle.std.specs.Result.{result_map_both};
ghost use Rattle.nfs_inodes.specs.Law.{Law};
ghost use Rattle.nfs_text.specs.Words.{words_left};
ghost use Rattle.nfs_load.specs.Descriptions as spec;
ghost use Rattle.nfs_load.specs.Descriptions.{GoesOn, LineDone, begun, finished};
ghost use Rattle.nfs_load.specs.Fields.{Encodes};
ghost use Rattle.nfs_load.specs.Lines.{begins_file};
ghost use Rattle.nfs_load.specs.Loadings.{LineTaken, at_end, nothing};

use crate::cause::Cause;
use crate::changes::{add_name, add_volume, make_file, make_link, mkdir, set_times};
use crate::fields::Fields;
use crate::limit_fields::read_limits;
use crate::line::{Keyword, Line, file_fields, read_line};
use crate::load_error::LoadError;
use crate::loaded::Loaded;
use crate::name_form::NameForm;
use crate::refusal::Refusal;
use crate::statement::{DirLine, ExportLine, FileLine, HardLine, LinkLine, TimesLine, VolumeLine};
use nfs_content::pages::Pages;
use nfs_exports::export_table::ExportTable;
use nfs_exports::limits::MAX_PATTERNS;
use nfs_handles::number::Number;
use nfs_inodes::tree::Tree;
use nfs_text::words::Words;
use std::alloc::Global;
use std::marker::Model;

/// A description that is loaded line by line, so that a line may be let go as soon as it is taken.
/// Contracts see what was described so far, and how many lines were taken.
#[derive(Drop)]
pub struct Loading {
    alloc: Global,
    described: Option<Loaded>,
    count: u64,
}

impl Model for Loading {
    ghost use Rattle.std.specs.Prelude.{◌≡◌, IfSome, length};
    ghost use Rattle.nfs_load.specs.Loadings.{SoFar};

    ghost Value = { SoFar };

    ghost view = { λ a. record { described = a.described; count = a.count } };

    ghost invariant = { λ a. IfSome a.described (λ l. length l.table ≡ length l.tree.volumes) };
}

impl Loading {
    /// No line was taken.
    pub fn new(alloc: Global) -> Loading
        ensures { result ≡ nothing }
    {
        Loading {
            alloc,
            described: None,
            count: 0,
        }
    }

    /// Takes the next line, which is given without its LF. Where it is refused, it is reported by its
    /// number, counted from 1, and nothing is described any more: what was made is given back.
    pub fn take(&mut self, line: &[u8]) -> Result<(), LoadError>
        ensures { LineTaken self.old line.now result self.new }
    {
        self.count = self.count.saturating_add(1);
        match take_line(self.alloc, &mut self.described, line) {
            Ok(()) => Ok(()),
            Err(refusal) => {
                self.described = None;
                Err(refusal.at(self.count))
            }
        }
    }

    /// Takes the next line, that of a file: what stands before its content, and the bytes that its content says,
    /// as `take` does.
    pub fn take_file(&mut self, begin: &[u8], content: Pages) -> Result<(), LoadError>
        requires { begins_file begin.now ≡ true }
        ensures { (digits : List ℕ) → Encodes digits content
            → LineTaken self.old (begin.now ++ 32 ∷ digits) result self.new }
    {
        self.count = self.count.saturating_add(1);
        match take_file_line(&mut self.described, begin, content) {
            Ok(()) => Ok(()),
            Err(refusal) => {
                self.described = None;
                Err(refusal.at(self.count))
            }
        }
    }

    /// What all lines describe. `NoServer`, then `NoVolume`, for the line after the last.
    pub fn finish(self) -> Result<Loaded, LoadError>
        ensures described { result ≡ at_end self.count (finished self.described) }
        ensures law { IfOk result (λ loaded. Law loaded.tree) }
        ensures lists { IfOk result (λ loaded. length loaded.table ≡ length loaded.tree.volumes) }
    {
        match finish(self.described) {
            Ok(loaded) => Ok(loaded),
            Err(cause) => Err(LoadError::Fault {
                line: self.count.saturating_add(1),
                cause,
            }),
        }
    }
}

// A server and a volume have to be described.
fn finish(described: Option<Loaded>) -> Result<Loaded, Cause>
    ensures { result ≡ finished described }
{
    match described {
        None => Err(Cause::NoServer),
        Some(loaded) if loaded.tree.volumes() == 0 => Err(Cause::NoVolume),
        Some(loaded) => Ok(loaded),
    }
}

// One line more.
fn take_line(alloc: Global, described: &mut Option<Loaded>, line: &[u8]) -> Result<(), Refusal>
    requires { IfSome described.old (λ l. length l.table ≡ length l.tree.volumes) }
    ensures done { LineDone described.old line.now result described.new }
    ensures lists { OnOk result (IfSome described.new (λ l. length l.table ≡ length l.tree.volumes)) }
{
    let Some(line) = read_line(line)? else {
        return Ok(());
    };
    match described {
        Some(loaded) => go_on(alloc, loaded, line),
        None => {
            *described = Some(begin(alloc, line)?);
            Ok(())
        }
    }
}

// One line more, that of a file whose content was decoded before.
fn take_file_line(
    described: &mut Option<Loaded>,
    begin: &[u8],
    content: Pages,
) -> Result<(), Refusal>
    requires begins { begins_file begin.now ≡ true }
    requires lists { IfSome described.old (λ l. length l.table ≡ length l.tree.volumes) }
    ensures done { (digits : List ℕ) → Encodes digits content
        → LineDone described.old (begin.now ++ 32 ∷ digits) result described.new }
    ensures lists { OnOk result (IfSome described.new (λ l. length l.table ≡ length l.tree.volumes)) }
{
    match described {
        Some(loaded) => take_file_with(loaded, &mut file_fields(begin), content),
        None => Err(Refusal::Fault(Cause::NoServer)),
    }
}

// The first line that asks for something, which has to be the server's.
fn begin(alloc: Global, line: Line<'_>) -> Result<Loaded, Cause>
    ensures { result ≡ begun line.entry.keyword (words_left line.entry.fields) }
{
    if line.keyword != Keyword::Server {
        return Err(Cause::NoServer);
    }
    let key = Fields::new(line.fields).key()?;
    Ok(Loaded {
        tree: Tree::new(alloc, key),
        table: ExportTable::new(alloc),
        names: NameForm::Plain,
    })
}

// A line after the server's.
fn go_on(alloc: Global, loaded: &mut Loaded, line: Line<'_>) -> Result<(), Refusal>
    requires { length loaded.old.table ≡ length loaded.old.tree.volumes }
    ensures done { GoesOn loaded.old line.entry.keyword (words_left line.entry.fields) result loaded.new }
    ensures lists { OnOk result (length loaded.new.table ≡ length loaded.new.tree.volumes) }
{
    let mut fields = Fields::new(line.fields);
    match line.keyword {
        Keyword::Server => Err(Refusal::Fault(Cause::ServerTwice)),
        Keyword::Limits => take_limits(loaded, line.fields),
        Keyword::Names => take_names(loaded, &mut fields),
        Keyword::Volume => take_volume(loaded, &mut fields),
        Keyword::Export => take_export(loaded, &mut fields),
        Keyword::Dir => take_dir(loaded, &mut fields),
        Keyword::File => take_file(alloc, loaded, &mut fields),
        Keyword::Link => take_link(loaded, &mut fields),
        Keyword::Hard => take_hard(loaded, &mut fields),
        Keyword::Times => take_times(loaded, &mut fields),
    }
}

fn take_limits(loaded: &mut Loaded, fields: Words<'_>) -> Result<(), Refusal>
    requires { length loaded.old.table ≡ length loaded.old.tree.volumes }
    ensures done { GoesOn loaded.old Keyword.Limits (words_left fields.entry) result loaded.new }
    ensures lists { OnOk result (length loaded.new.table ≡ length loaded.new.tree.volumes) }
{
    if loaded.tree.volumes() > 0 {
        return Err(Refusal::Fault(Cause::LimitsLate));
    }
    loaded.tree.law();
    let limits = read_limits(fields, loaded.tree.limits())?;
    loaded.tree.set_limits(limits);
    Ok(())
}

fn take_names(loaded: &mut Loaded, fields: &mut Fields<'_>) -> Result<(), Refusal>
    requires { length loaded.old.table ≡ length loaded.old.tree.volumes }
    ensures done { GoesOn loaded.old Keyword.Names fields.old result loaded.new }
    ensures lists { OnOk result (length loaded.new.table ≡ length loaded.new.tree.volumes) }
{
    if loaded.tree.volumes() > 0 {
        return Err(Refusal::Fault(Cause::NamesLate));
    }
    loaded.names = fields.name_form(loaded.names)?;
    Ok(())
}

fn take_volume(loaded: &mut Loaded, fields: &mut Fields<'_>) -> Result<(), Refusal>
    requires { length loaded.old.table ≡ length loaded.old.tree.volumes }
    ensures done { GoesOn loaded.old Keyword.Volume fields.old result loaded.new }
    ensures lists { OnOk result (length loaded.new.table ≡ length loaded.new.tree.volumes) }
{
    let line = VolumeLine::read(fields, &loaded.tree)?;
    add_volume(&mut loaded.tree, &line)?;
    loaded.table.add_volume()?;
    Ok(())
}

fn take_export(loaded: &mut Loaded, fields: &mut Fields<'_>) -> Result<(), Refusal>
    requires { length loaded.old.table ≡ length loaded.old.tree.volumes }
    ensures done { GoesOn loaded.old Keyword.Export fields.old result loaded.new }
    ensures lists { OnOk result (length loaded.new.table ≡ length loaded.new.tree.volumes) }
{
    let _ = last_root(&loaded.tree)?;
    let line = ExportLine::read(fields)?;
    if loaded.table.pattern_count() >= MAX_PATTERNS {
        return Err(Refusal::Fault(Cause::Full));
    }
    let volume = loaded.table.volume_count() - 1;
    loaded.table.add(volume, line.pattern, line.options)?;
    Ok(())
}

fn take_dir(loaded: &mut Loaded, fields: &mut Fields<'_>) -> Result<(), Refusal>
    requires { length loaded.old.table ≡ length loaded.old.tree.volumes }
    ensures done { GoesOn loaded.old Keyword.Dir fields.old result loaded.new }
    ensures lists { OnOk result (length loaded.new.table ≡ length loaded.new.tree.volumes) }
{
    let root = last_root(&loaded.tree)?;
    let line = DirLine::read(fields, loaded.names)?;
    mkdir(&mut loaded.tree, root, &line)
}

fn take_file(alloc: Global, loaded: &mut Loaded, fields: &mut Fields<'_>) -> Result<(), Refusal>
    requires { length loaded.old.table ≡ length loaded.old.tree.volumes }
    ensures done { GoesOn loaded.old Keyword.File fields.old result loaded.new }
    ensures lists { OnOk result (length loaded.new.table ≡ length loaded.new.tree.volumes) }
{
    let root = last_root(&loaded.tree)?;
    let line = FileLine::read(alloc, fields, loaded.names, &loaded.tree)?;
    make_file(&mut loaded.tree, root, line)
}

// The same, where the content was decoded before.
fn take_file_with(
    loaded: &mut Loaded,
    fields: &mut Fields<'_>,
    content: Pages,
) -> Result<(), Refusal>
    requires lists { length loaded.old.table ≡ length loaded.old.tree.volumes }
    requires four { length fields.old ≡ 4 }
    ensures done { (digits : List ℕ) → Encodes digits content
        → GoesOn loaded.old Keyword.File (fields.old ++ digits ∷ []) result loaded.new }
    ensures lists { OnOk result (length loaded.new.table ≡ length loaded.new.tree.volumes) }
{
    let root = last_root(&loaded.tree)?;
    let line = FileLine::with_content(fields, loaded.names, &loaded.tree, content)?;
    make_file(&mut loaded.tree, root, line)
}

fn take_link(loaded: &mut Loaded, fields: &mut Fields<'_>) -> Result<(), Refusal>
    requires { length loaded.old.table ≡ length loaded.old.tree.volumes }
    ensures done { GoesOn loaded.old Keyword.Link fields.old result loaded.new }
    ensures lists { OnOk result (length loaded.new.table ≡ length loaded.new.tree.volumes) }
{
    let root = last_root(&loaded.tree)?;
    let line = LinkLine::read(fields, loaded.names, &loaded.tree)?;
    make_link(&mut loaded.tree, root, &line)
}

fn take_hard(loaded: &mut Loaded, fields: &mut Fields<'_>) -> Result<(), Refusal>
    requires { length loaded.old.table ≡ length loaded.old.tree.volumes }
    ensures done { GoesOn loaded.old Keyword.Hard fields.old result loaded.new }
    ensures lists { OnOk result (length loaded.new.table ≡ length loaded.new.tree.volumes) }
{
    let root = last_root(&loaded.tree)?;
    let line = HardLine::read(fields, loaded.names)?;
    add_name(&mut loaded.tree, root, &line)
}

fn take_times(loaded: &mut Loaded, fields: &mut Fields<'_>) -> Result<(), Refusal>
    requires { length loaded.old.table ≡ length loaded.old.tree.volumes }
    ensures done { GoesOn loaded.old Keyword.Times fields.old result loaded.new }
    ensures lists { OnOk result (length loaded.new.table ≡ length loaded.new.tree.volumes) }
{
    let root = last_root(&loaded.tree)?;
    let line = TimesLine::read(fields, loaded.names)?;
    set_times(&mut loaded.tree, root, &line)
}

// The root of the last volume. `NoVolume` where there is none.
fn last_root(tree: &Tree) -> Result<Number, Cause>
    ensures { result_map_both (λ n. n.0) (λ cause. cause) result ≡ spec.last_root tree.now }
{
    let Some(last) = tree.volumes().checked_sub(1) else {
        return Err(Cause::NoVolume);
    };
    match tree.volume(last) {
        Some(volume) => Ok(volume.root),
        None => Err(Cause::NoVolume),
    }
}
