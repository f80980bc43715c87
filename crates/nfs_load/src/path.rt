//! Paths: names after slashes.
ghost use Rattle.std.specs.Prelude.{◌≡◌, ◌≢◌, [], Some, is_some, option_map};
ghost use Rattle.std.specs.Result.{result_map_both};
ghost use Rattle.nfs_text.specs.Chunks.{chunks};
ghost use Rattle.nfs_load.specs.Names.{names_in};
ghost use Rattle.nfs_load.specs.Paths as spec;
ghost use Rattle.nfs_inodes.specs.Tree.{on_some};
ghost use Rattle.nfs_load.specs.Paths.{path_in, path_names, path_or_root_in, volume_path_in};

use crate::cause::Cause;
use crate::limits::MAX_PATH_BYTES;
use crate::name_form::{Name, NameForm};
use nfs_inodes::limits::MAX_VOLUME_PATH_BYTES;
use nfs_text::chunks::Chunks;
use std::marker::Model;

/// A path of one or more names, lent from its field. Contracts see the names.
#[derive(Drop)]
pub struct Path<'a> {
    after_slash: &'a [u8],
    form: NameForm,
}

impl<'a> Model for Path<'a> {
    ghost use Rattle.std.specs.Prelude.{◌≡◌, ℕ, List, true, is_some};
    ghost use Rattle.nfs_text.specs.Chunks.{chunks};
    ghost use Rattle.nfs_load.specs.Names.{names_in, the_names};

    ghost Value = { List (List ℕ) };

    ghost view = { λ path. the_names path.form (chunks 47 path.after_slash.now) };

    ghost invariant = { λ path. is_some (names_in path.form (chunks 47 path.after_slash.now)) ≡ true };
}

impl<'a> Path<'a> {
    /// The names in turn.
    pub fn names(&self) -> PathNames<'a>
        ensures { result ≡ self.now }
    {
        PathNames {
            components: Chunks::new(self.after_slash, b'/'),
            form: self.form,
        }
    }

    /// There is at least one.
    pub(crate) fn law(&self)
        ensures { self.now ≢ [] }
    {
        let _ = &self.after_slash;
    }
}

/// The names of a path that are to come. Contracts see them.
#[derive(Drop)]
pub struct PathNames<'a> {
    components: Chunks<'a>,
    form: NameForm,
}

impl<'a> Model for PathNames<'a> {
    ghost use Rattle.std.specs.Prelude.{◌≡◌, ℕ, List, true, is_some};
    ghost use Rattle.nfs_text.specs.Chunks.{chunks_left};
    ghost use Rattle.nfs_load.specs.Names.{names_in, the_names};

    ghost Value = { List (List ℕ) };

    ghost view = { λ names. the_names names.form (chunks_left names.components) };

    ghost invariant = { λ names. is_some (names_in names.form (chunks_left names.components)) ≡ true };
}

impl<'a> PathNames<'a> {
    /// The next name. `None` after the last.
    pub fn next(&mut self) -> Option<PathName<'a>>
        ensures { spec.TakesFirst (λ name. name) self.old result self.new }
    {
        let text = self.components.next()?;
        Some(PathName {
            text,
            form: self.form,
        })
    }
}

/// A name of a path, as the path has it. Contracts see the name.
#[derive(Drop)]
pub struct PathName<'a> {
    text: &'a [u8],
    form: NameForm,
}

impl<'a> Model for PathName<'a> {
    ghost use Rattle.std.specs.Prelude.{◌≡◌, ℕ, List, [], true, is_some};
    ghost use Rattle.nfs_inodes.specs.Tree.{on_some};
    ghost use Rattle.nfs_load.specs.Names.{name_in};

    ghost Value = { List ℕ };

    ghost view = { λ name. on_some (name_in name.form name.text.now) [] (λ it. it) };

    ghost invariant = { λ name. is_some (name_in name.form name.text.now) ≡ true };
}

impl<'a> PathName<'a> {
    /// Its bytes: those of the path, or where they are not as the path has them, those that are decoded
    /// into the room.
    pub fn bytes<'b>(&self, room: &'b mut Name) -> &'b [u8]
    where
        'a: 'b,
        ensures { result.now ≡ self.now }
    {
        match self.form {
            NameForm::Plain => self.text,
            NameForm::Percent => {
                if let Some(name) = self.form.name(self.text) {
                    *room = name;
                }
                room.as_slice()
            }
        }
    }
}

/// A path. `BadPath` where the field has more than 1,024 bytes and names stand in it as they are, where
/// it doesn't begin with `/`, or where what stands after it is not names separated by `/`.
pub(crate) fn read_path(field: &[u8], form: NameForm) -> Result<Path<'_>, Cause>
    ensures { result ≡ path_in form field.now }
{
    match after_slash(field, form) {
        Some(after_slash) => Ok(Path { after_slash, form }),
        None => Err(Cause::BadPath),
    }
}

/// A path, or `None` where the field is `/` alone, which is the root. `BadPath` where it is neither.
pub(crate) fn read_path_or_root(field: &[u8], form: NameForm) -> Result<Option<Path<'_>>, Cause>
    ensures { result_map_both (λ path. on_some path [] (λ names. names)) (λ cause. cause) result ≡ path_or_root_in form field.now }
{
    if field == b"/".as_slice() {
        return Ok(None);
    }
    let path = read_path(field, form)?;
    Ok(Some(path))
}

/// A volume's path, which stands as it is. `BadVolumePath` where the field is neither `/` alone nor a path
/// of at most 255 bytes.
pub(crate) fn read_volume_path(field: &[u8]) -> Result<&[u8], Cause>
    ensures { result_map_both (λ text. text.now) (λ cause. cause) result ≡ volume_path_in field.now }
{
    if field == b"/".as_slice() {
        return Ok(field);
    }
    if field.len() > MAX_VOLUME_PATH_BYTES || after_slash(field, NameForm::Plain).is_none() {
        return Err(Cause::BadVolumePath);
    }
    Ok(field)
}

// What stands after a path's first slash, where the field is a path: its names.
fn after_slash(field: &[u8], form: NameForm) -> Option<&[u8]>
    ensures { option_map (λ rest. names_in form (chunks 47 rest.now)) result ≡ option_map (λ names. Some names) (path_names form field.now) }
{
    if !is_short(field, form) {
        return None;
    }
    match field.split_first() {
        Some((first, rest)) if *first == b'/' && are_names(rest, form) => Some(rest),
        _ => None,
    }
}

fn is_short(field: &[u8], form: NameForm) -> bool
    ensures { result ≡ spec.is_short form field.now }
{
    match form {
        NameForm::Plain => field.len() <= MAX_PATH_BYTES,
        NameForm::Percent => true,
    }
}

// Whether what stands between slashes is a name each time.
fn are_names(text: &[u8], form: NameForm) -> bool
    ensures { result ≡ is_some (names_in form (chunks 47 text.now)) }
{
    let mut components = Chunks::new(text, b'/');
    while let Some(component) = components.next() {
        if !form.has_name(component) {
            return false;
        }
    }
    true
}
