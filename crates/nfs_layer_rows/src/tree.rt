//! The tree of files: what is read of it, and what its operations do.
ghost use Rattle.std.specs.Prelude.{IfSome};
ghost use Rattle.nfs_inodes.specs.Limits.{AreLimits};

use nfs_attrs::moment::Moment;
use nfs_conditions::bytes::{may_resize, may_write};
use nfs_conditions::entries::{is_empty, may_unlink};
use nfs_conditions::moves;
use nfs_content::pages::Pages;
use nfs_handles::number::{Hint, Number};
use nfs_inodes::given_attributes::GivenAttributes;
use nfs_inodes::limits::{Limits, MAX_FILE_BYTES, MAX_FILES, MAX_LINKS, MAX_PATH_BYTES};
use nfs_inodes::new_file::{NewContent, NewFile};
use nfs_inodes::tree::Tree;
use nfs_load::description::load;
use rows::answers::{debug_text, digits, text};
use rows::words::{bytes, name, number, size, word};
use std::alloc::Global;
use std::str::SplitWhitespace;

/// When everything is done.
pub(crate) const NOW: Moment = Moment {
    seconds: 100,
    nanos: 0,
};

/// What a new file is given.
pub(crate) const GIVEN: NewFile = NewFile {
    mode: 0o100_644,
    uid: 9,
    gid: 8,
    atime: Moment {
        seconds: 0,
        nanos: 0,
    },
    mtime: NOW,
};

/// A tree that is read and changed.
#[derive(Drop)]
pub(crate) struct Served<'a> {
    alloc: Global,
    example: &'a [u8],
    tree: Tree,
}

// `limited FILE-SIZE LINKS LINK-PATH FILES`: limits that a tree may have.
fn limits(words: &mut SplitWhitespace<'_>) -> Option<Limits>
    ensures { IfSome result (λ limits. AreLimits limits) }
{
    let file_size = size(words)?;
    let links = word(words)?;
    let link_path = size(words)?;
    let files = number(words)?;
    if file_size > MAX_FILE_BYTES
        || links < 2
        || links > MAX_LINKS
        || link_path > MAX_PATH_BYTES
        || files > MAX_FILES
    {
        return None;
    }
    Some(Limits {
        file_size,
        links,
        link_path,
        files,
    })
}

fn described(alloc: Global, description: &[u8]) -> Option<Tree> {
    Some(load(alloc, description).ok()?.tree)
}

impl<'a> Served<'a> {
    /// The tree of the example.
    pub(crate) fn new(alloc: Global, example: &'a [u8]) -> Option<Served<'a>> {
        Some(Served {
            alloc,
            example,
            tree: described(alloc, example)?,
        })
    }

    /// The tree.
    pub(crate) fn tree(&self) -> &Tree {
        &self.tree
    }

    /// The answer to a question about the tree.
    pub(crate) fn answer(&mut self, words: &mut SplitWhitespace<'_>) -> Option<String> {
        let verb = words.next()?;
        match verb {
            "example" => self.tree = described(self.alloc, self.example)?,
            "empty" => self.tree = Tree::new(self.alloc, [0; 8]),
            "limited" => self.tree = Tree::with_limits(self.alloc, [0; 8], limits(words)?),
            "make-file"
            | "make-dir"
            | "make-link"
            | "make-dirs"
            | "link"
            | "write"
            | "resize"
            | "set-mode"
            | "unlink"
            | "rename"
            | "add-volume" => return self.change(verb, words),
            "may-make" | "may-write" | "may-resize" | "may-unlink" | "may-rename" => {
                return may(self.alloc, &self.tree, verb, words);
            }
            "volumes" | "next" | "totals" | "place" | "limits" => {
                return volumes(self.alloc, &self.tree, verb, words);
            }
            _ => return read(self.alloc, &self.tree, verb, words),
        }
        text(self.alloc, "done")
    }

    // The number of what is made, or whether it is done; `None` where it may not be.
    fn change(&mut self, verb: &str, words: &mut SplitWhitespace<'_>) -> Option<String> {
        let done = match verb {
            "make-file" => make_file(self.alloc, &mut self.tree, words),
            "make-dir" => mkdir(self.alloc, &mut self.tree, words),
            "make-dirs" => make_dirs(self.alloc, &mut self.tree, words),
            "make-link" => make_link(self.alloc, &mut self.tree, words),
            "link" => link(self.alloc, &mut self.tree, words),
            "write" => write(self.alloc, &mut self.tree, words),
            "resize" => resize(&mut self.tree, words),
            "set-mode" => set_mode(&mut self.tree, words),
            "unlink" => unlink(self.alloc, &mut self.tree, words),
            "rename" => rename(self.alloc, &mut self.tree, words),
            _ => add_volume(self.alloc, &mut self.tree, words),
        };
        debug_text(self.alloc, done)
    }
}

// What is read of a file.
fn read(alloc: Global, tree: &Tree, verb: &str, words: &mut SplitWhitespace<'_>) -> Option<String> {
    match verb {
        "attributes" => debug_text(alloc, tree.attributes(Number::new(number(words)?))),
        "links" => debug_text(alloc, links(tree, Number::new(number(words)?))),
        "below" => debug_text(alloc, below(tree, number(words)?, number(words)?)),
        "is-empty" => debug_text(alloc, is_empty(tree, Number::new(number(words)?))),
        "lookup" => lookup(alloc, tree, words),
        "entry" => entry(alloc, tree, words),
        "cookie" => debug_text(alloc, tree.next_cookie(Number::new(number(words)?))),
        "content" => content(alloc, tree, words),
        "path" => path(alloc, tree, words),
        "verifier" => verifier(alloc, tree, words),
        "handle" => handle(alloc, tree, words),
        "reading" => debug_text(alloc, tree.read_handle(bytes(alloc, words)?.as_slice())),
        "named" => named(alloc, tree, words),
        _ => None,
    }
}

// How many links a file has.
fn links(tree: &Tree, number: Number) -> Option<u32> {
    Some(tree.attributes(number)?.nlink)
}

// Whether a file is a directory or above it; `None` where that is no directory.
fn below(tree: &Tree, dir: u64, above: u64) -> Option<bool> {
    if tree.next_cookie(Number(dir, Hint::NONE)).is_none() {
        return None;
    }
    Some(tree.is_below(Number(dir, Hint::NONE), Number(above, Hint::NONE)))
}

// The file of a name in a directory.
fn lookup(alloc: Global, tree: &Tree, words: &mut SplitWhitespace<'_>) -> Option<String> {
    let dir = Number::new(number(words)?);
    let name = name(alloc, words)?;
    debug_text(alloc, tree.lookup(dir, name.as_slice()))
}

// The cookie and the number of the first entry of a directory after a cookie.
fn entry(alloc: Global, tree: &Tree, words: &mut SplitWhitespace<'_>) -> Option<String> {
    let dir = Number::new(number(words)?);
    match tree.entry_after(dir, number(words)?) {
        Some(entry) => debug_text(alloc, (entry.cookie, entry.number.0)),
        None => text(alloc, "None"),
    }
}

// The bytes of a file from an offset, run by run.
fn content(alloc: Global, tree: &Tree, words: &mut SplitWhitespace<'_>) -> Option<String> {
    let number = Number::new(number(words)?);
    let offset = size(words)?;
    let mut all = Vec::new(alloc);
    for _ in 0..tree.limits().file_size {
        let run = tree.bytes_at(number, offset.checked_add(all.len())?);
        if run.is_empty() {
            break;
        }
        all.extend_from_slice(run).ok()?;
    }
    digits(alloc, all.as_slice())
}

// The path of a link.
fn path(alloc: Global, tree: &Tree, words: &mut SplitWhitespace<'_>) -> Option<String> {
    match tree.link_path(Number::new(number(words)?)) {
        Some(path) => digits(alloc, path),
        None => text(alloc, "None"),
    }
}

// The verifier that a file was made with.
fn verifier(alloc: Global, tree: &Tree, words: &mut SplitWhitespace<'_>) -> Option<String> {
    match tree.verifier(Number::new(number(words)?)) {
        Some(verifier) => digits(alloc, &verifier),
        None => text(alloc, "None"),
    }
}

fn handle(alloc: Global, tree: &Tree, words: &mut SplitWhitespace<'_>) -> Option<String> {
    match tree.handle_of(number(words)?) {
        Some(handle) => digits(alloc, &handle),
        None => text(alloc, "None"),
    }
}

// The attributes of the file that a handle names, or why it names none.
fn named(alloc: Global, tree: &Tree, words: &mut SplitWhitespace<'_>) -> Option<String> {
    let handle = bytes(alloc, words)?;
    match tree.find(handle.as_slice()) {
        Ok(file) => debug_text(alloc, file.attributes()),
        Err(why) => debug_text(alloc, why),
    }
}

// What is read of volumes: how many there are, the number of the next file, what the files of the
// volume at a place have in all, the place of the volume of a path, and the limits and root of
// the volume at a place.
fn volumes(
    alloc: Global,
    tree: &Tree,
    verb: &str,
    words: &mut SplitWhitespace<'_>,
) -> Option<String> {
    match verb {
        "volumes" => debug_text(alloc, tree.volumes()),
        "next" => debug_text(alloc, tree.next_number()),
        "totals" => debug_text(alloc, tree.totals(size(words)?)),
        "place" => debug_text(alloc, tree.volume_named(name(alloc, words)?.as_slice())),
        _ => match tree.volume(size(words)?) {
            Some(volume) => debug_text(alloc, (volume.max_bytes, volume.max_files, volume.root.0)),
            None => text(alloc, "None"),
        },
    }
}

// `may-make DIRECTORY NAME SIZE`, `may-write NUMBER OFFSET COUNT`, `may-resize NUMBER SIZE`,
// `may-unlink DIRECTORY NAME` and `may-rename DIRECTORY NAME DIRECTORY NAME`.
fn may(alloc: Global, tree: &Tree, verb: &str, words: &mut SplitWhitespace<'_>) -> Option<String> {
    let file = Number::new(number(words)?);
    match verb {
        "may-write" => debug_text(alloc, may_write(tree, file, size(words)?, size(words)?)),
        "may-resize" => debug_text(alloc, may_resize(tree, file, size(words)?)),
        "may-make" => may_make(alloc, tree, file, words),
        "may-unlink" => debug_text(
            alloc,
            may_unlink(tree, file, name(alloc, words)?.as_slice()),
        ),
        _ => may_rename(alloc, tree, file, words),
    }
}

fn may_make(
    alloc: Global,
    tree: &Tree,
    dir: Number,
    words: &mut SplitWhitespace<'_>,
) -> Option<String> {
    let name = name(alloc, words)?;
    debug_text(alloc, tree.may_make(dir, name.as_slice(), size(words)?))
}

fn may_rename(
    alloc: Global,
    tree: &Tree,
    from: Number,
    words: &mut SplitWhitespace<'_>,
) -> Option<String> {
    let old_name = name(alloc, words)?;
    let to = Number::new(number(words)?);
    let new_name = name(alloc, words)?;
    debug_text(
        alloc,
        moves::may_rename(tree, from, old_name.as_slice(), to, new_name.as_slice()),
    )
}

// `make-file DIRECTORY NAME SIZE [VERIFIER]`.
fn make_file(alloc: Global, tree: &mut Tree, words: &mut SplitWhitespace<'_>) -> Option<u64> {
    let dir = Number::new(number(words)?);
    let name = name(alloc, words)?;
    let size = size(words)?;
    let verifier = bytes(alloc, words)?.first_chunk::<8>().copied();
    if !tree.may_make(dir, name.as_slice(), size) {
        return None;
    }
    let content = NewContent {
        pages: Pages::zeros(alloc, size),
        verifier,
    };
    let made = tree.make_file(dir, name.as_slice(), content, &GIVEN, NOW);
    made.ok().map(|number| number.0)
}

// `make-dir DIRECTORY NAME`.
fn mkdir(alloc: Global, tree: &mut Tree, words: &mut SplitWhitespace<'_>) -> Option<u64> {
    let dir = Number::new(number(words)?);
    let name = name(alloc, words)?;
    directory(tree, dir, name.as_slice())
}

/// Makes a directory, where it may be made: its number.
pub(crate) fn directory(tree: &mut Tree, dir: Number, name: &[u8]) -> Option<u64> {
    if !tree.may_mkdir(dir, name) {
        return None;
    }
    let made = tree.mkdir(dir, name, &GIVEN, NOW);
    made.ok().map(|number| number.0)
}

// `make-dirs DIRECTORY COUNT`: so many directories, with numbers as names; how many were made.
fn make_dirs(alloc: Global, tree: &mut Tree, words: &mut SplitWhitespace<'_>) -> Option<u64> {
    let dir = Number::new(number(words)?);
    let mut made = 0u64;
    for index in 0..word(words)? {
        let name = format!(in alloc; "{index}").ok()?;
        if directory(tree, dir, name.as_bytes()).is_some() {
            made = made.saturating_add(1);
        }
    }
    Some(made)
}

// `make-link DIRECTORY NAME PATH`.
fn make_link(alloc: Global, tree: &mut Tree, words: &mut SplitWhitespace<'_>) -> Option<u64> {
    let dir = Number::new(number(words)?);
    let name_of_link = name(alloc, words)?;
    let path = name(alloc, words)?;
    if !tree.may_make_link(dir, name_of_link.as_slice(), path.as_slice()) {
        return None;
    }
    let made = tree.make_link(dir, name_of_link.as_slice(), path.as_slice(), &GIVEN, NOW);
    made.ok().map(|number| number.0)
}

// `link NUMBER DIRECTORY NAME`: the number.
fn link(alloc: Global, tree: &mut Tree, words: &mut SplitWhitespace<'_>) -> Option<u64> {
    let file = Number::new(number(words)?);
    let dir = Number::new(number(words)?);
    let name = name(alloc, words)?;
    if !tree.may_link(file, dir, name.as_slice()) {
        return None;
    }
    tree.link(file, dir, name.as_slice(), NOW).ok()?;
    Some(file.0)
}

// `write NUMBER OFFSET BYTES`: the number.
fn write(alloc: Global, tree: &mut Tree, words: &mut SplitWhitespace<'_>) -> Option<u64> {
    let file = Number::new(number(words)?);
    let offset = size(words)?;
    let content = bytes(alloc, words)?;
    if !may_write(tree, file, offset, content.len()) {
        return None;
    }
    tree.write_at(file, offset, content.as_slice(), NOW).ok()?;
    Some(file.0)
}

// `resize NUMBER SIZE`: the number.
fn resize(tree: &mut Tree, words: &mut SplitWhitespace<'_>) -> Option<u64> {
    let file = Number::new(number(words)?);
    let size = size(words)?;
    if !may_resize(tree, file, size) {
        return None;
    }
    tree.resize(file, size, NOW).ok()?;
    Some(file.0)
}

// `set-mode NUMBER MODE`, the mode decimal: the number.
fn set_mode(tree: &mut Tree, words: &mut SplitWhitespace<'_>) -> Option<u64> {
    let file = Number::new(number(words)?);
    let given = mode_alone(word(words)?);
    if tree.attributes(file).is_none() {
        return None;
    }
    tree.set(file, &given, NOW);
    Some(file.0)
}

fn mode_alone(mode: u32) -> GivenAttributes {
    GivenAttributes {
        mode: Some(mode),
        uid: None,
        gid: None,
        atime: None,
        mtime: None,
    }
}

// `unlink DIRECTORY NAME`: the directory's number.
fn unlink(alloc: Global, tree: &mut Tree, words: &mut SplitWhitespace<'_>) -> Option<u64> {
    let dir = Number::new(number(words)?);
    let name = name(alloc, words)?;
    if !may_unlink(tree, dir, name.as_slice()) {
        return None;
    }
    tree.unlink(dir, name.as_slice(), NOW);
    Some(dir.0)
}

// `rename DIRECTORY NAME DIRECTORY NAME`: the number of the second directory.
fn rename(alloc: Global, tree: &mut Tree, words: &mut SplitWhitespace<'_>) -> Option<u64> {
    let from = Number::new(number(words)?);
    let old_name = name(alloc, words)?;
    let to = Number::new(number(words)?);
    let new_name = name(alloc, words)?;
    if !moves::may_rename(tree, from, old_name.as_slice(), to, new_name.as_slice()) {
        return None;
    }
    let done = tree.rename(from, old_name.as_slice(), to, new_name.as_slice(), NOW);
    done.ok().map(|_| to.0)
}

// `add-volume PATH FILES [BYTES]`: a volume of at most so many files, and bytes, of which it has none
// where the word is missing.
fn add_volume(alloc: Global, tree: &mut Tree, words: &mut SplitWhitespace<'_>) -> Option<u64> {
    let path = name(alloc, words)?;
    let max_files = number(words)?;
    let max_bytes = number(words).unwrap_or(0);
    if !tree.may_add_volume(path.as_slice(), max_bytes, max_files) {
        return None;
    }
    let added = tree.add_volume(path.as_slice(), max_bytes, max_files, &GIVEN, NOW);
    added.ok().map(|number| number.0)
}
