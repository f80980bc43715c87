//! The lines that the key of a life of a server of directories is drawn from.
ghost use Rattle.std.specs.Prelude.{◌≡◌, ℕ, List, [], ◌∷◌, IfOk, OnOk, ⊤};
ghost use Rattle.nfs_text.specs.Lines.{lines};
ghost use Rattle.nfs_named.specs.Lives as spec;
ghost use Rattle.nfs_named.specs.Lives.{Takes, mount_line, path_line};
ghost use Rattle.nfs_lives.specs.Rows.{HasTaken};
ghost use Rattle.nfs_words.specs.Texts.{Puts};

use nfs_disk::building::Made;
use nfs_disk::found::Kind;
use nfs_handles::number::Number;
use nfs_lives::path_digest::PathDigest;
use nfs_text::lines::Lines;
use nfs_words::text::Text;
use std::alloc::{AllocError, Global};

/// What is made of the lines that the key of a life is drawn from: the first lines of the description of its
/// directories, and of each path what was found there and the number that it got. So a handle of another life, in which
/// a path had another number, was of another kind or stood in another volume, has another key.
pub trait LifeDigest: Drop {
    // That these lines may be those that were taken.
    ghost has: { Self → List (List ℕ) → Type 0 };

    /// Takes the first lines of the description.
    fn take_head(&mut self, head: &[u8])
        ensures { Takes has self.old (lines head.now) self.new };

    /// Takes the line of a volume, which its paths follow. `AllocError`.
    fn take_mount(&mut self, alloc: Global, mount: &str) -> Result<(), AllocError>
        ensures { OnOk result (Takes has self.old (mount_line mount.now ∷ []) self.new) };

    /// Takes the line of a path. `AllocError`.
    fn take_path(&mut self, alloc: Global, made: &Made) -> Result<(), AllocError>
        ensures { OnOk result (Takes has self.old (path_line made.now ∷ []) self.new) };
}

impl LifeDigest for PathDigest {
    ghost has = { HasTaken };

    fn take_head(&mut self, head: &[u8]) {
        take_lines(self, head);
    }

    fn take_mount(&mut self, alloc: Global, mount: &str) -> Result<(), AllocError> {
        let line = line_of_mount(alloc, mount)?;
        self.take(line.as_slice());
        Ok(())
    }

    fn take_path(&mut self, alloc: Global, made: &Made) -> Result<(), AllocError> {
        let line = line_of(alloc, made)?;
        self.take(line.as_slice());
        Ok(())
    }
}

/// Nothing is made of them, where no life begins.
#[derive(Drop)]
pub struct NoDigest;

impl LifeDigest for NoDigest {
    ghost has = { λ _ _. ⊤ };

    fn take_head(&mut self, _head: &[u8]) {}

    fn take_mount(&mut self, _alloc: Global, _mount: &str) -> Result<(), AllocError> {
        Ok(())
    }

    fn take_path(&mut self, _alloc: Global, _made: &Made) -> Result<(), AllocError> {
        Ok(())
    }
}

// The lines of a text.
fn take_lines(paths: &mut PathDigest, text: &[u8])
    ensures { Takes HasTaken paths.old (lines text.now) paths.new }
{
    let mut lines = Lines::new(text);
    while let Some(line) = lines.next() {
        paths.take(line);
    }
}

// The line of a volume.
fn line_of_mount(alloc: Global, mount: &str) -> Result<Vec<u8>, AllocError>
    ensures { IfOk result (λ line. line.items ≡ mount_line mount.now) }
{
    let mut line = Vec::new(alloc);
    line.extend_from_slice(b"volume ")?;
    line.extend_from_slice(mount.as_bytes())?;
    Ok(line)
}

// The line of a path.
fn line_of(alloc: Global, made: &Made) -> Result<Vec<u8>, AllocError>
    ensures { IfOk result (λ line. line.items ≡ path_line made.now) }
{
    let mut line = Text::new(alloc);
    line.put(b"hard ");
    line.put_name(made.found.path.as_bytes());
    line.put(b" ");
    line.put(word_of(made.found.kind));
    put_number(&mut line, made.number);
    line.into_bytes()
}

fn word_of(kind: Kind) -> &'static [u8]
    ensures { result.now ≡ spec.kind_text kind }
{
    match kind {
        Kind::Directory => b"dir-",
        Kind::Regular => b"file-",
        Kind::Link => b"link-",
    }
}

fn put_number(line: &mut Text, number: Option<Number>)
    ensures { Puts (spec.number_text number) line.old line.new }
{
    match number {
        Some(Number(fileid, _)) => line.put_number(fileid),
        None => line.put(b"-"),
    }
}
