//! What a journal has of the description with which a life begins: a digest of it without its exports, these lines where they
//! are few, and the first lines with the exports.
ghost use Rattle.std.specs.Prelude.{◌≤◌, length, IfSome, ⊤};

use crate::difference::Difference;
use nfs_describe::description::describe;
use nfs_describe::fault::DescribeFault;
use nfs_describe::output::Output;
use nfs_journal::block::MOST_DESCRIPTION_BYTES;
use nfs_load::loaded::Loaded;
use nfs_saving::digested::DescriptionDigest;
use nfs_source::fault::Fault;
use nfs_source::output::fault_of;
use std::alloc::{AllocError, Global};

// How many bytes of a description are kept: all of one that a journal has, and of a longer one enough to tell it from each
// of those, and to show its next line.
const MOST_KEPT: usize = MOST_DESCRIPTION_BYTES + 256;

/// What a journal has of a description.
#[derive(Drop)]
pub(crate) struct LifeText {
    /// The digest of the description without its exports, whatever its key is.
    pub(crate) digest: [u8; 32],
    /// Its lines without those of files, as a description of empty volumes with the same exports.
    pub(crate) heads: Vec<u8>,
    // The front of the description without its exports.
    lines: Vec<u8>,
}

impl LifeText {
    /// What it has of the description of what was loaded. `Memory`.
    pub(crate) fn of(alloc: Global, loaded: &Loaded) -> Result<LifeText, Fault> {
        let mut out = LifeOutput::new(alloc);
        let done = describe(
            alloc,
            &mut out,
            &loaded.tree,
            &loaded.table,
            loaded.tree.key(),
        );
        match done {
            Ok(()) => Ok(out.finish()),
            Err(DescribeFault::Write(error)) => Err(fault_of(error)),
            Err(DescribeFault::Memory) => Err(Fault::Memory(AllocError)),
        }
    }

    /// The description without its exports, where it is short enough for a journal.
    pub(crate) fn description(&self) -> Option<&[u8]>
        ensures { IfSome result (λ lines. length lines.now ≤ MOST_DESCRIPTION_BYTES) }
    {
        if self.lines.len() > MOST_DESCRIPTION_BYTES {
            return None;
        }
        Some(self.lines.as_slice())
    }

    /// Where it differs from a description without its exports that a journal has; `None` where it doesn't.
    pub(crate) fn difference_from<'a>(&'a self, theirs: &'a [u8]) -> Option<Difference<'a>> {
        Difference::of(theirs, self.lines.as_slice())
    }
}

// What a line is of.
#[derive(Clone, Copy, PartialEq, Eq)]
enum LineOf {
    // Not known, since nothing of it was written.
    Unknown,
    // The server or a volume.
    Head,
    // An export.
    Export,
    // A file.
    File,
}

// An output of which this is kept.
#[derive(Drop)]
struct LifeOutput {
    digest: DescriptionDigest,
    heads: Vec<u8>,
    lines: Vec<u8>,
    // What the line is of that has not ended.
    line: LineOf,
    // Whether the line of a volume was written.
    has_volume: bool,
}

impl LifeOutput {
    fn new(alloc: Global) -> LifeOutput {
        LifeOutput {
            digest: DescriptionDigest::new(),
            heads: Vec::new(alloc),
            lines: Vec::new(alloc),
            line: LineOf::Unknown,
            has_volume: false,
        }
    }

    fn finish(self) -> LifeText {
        let LifeOutput {
            digest,
            heads,
            lines,
            ..
        } = self;
        LifeText {
            digest: digest.finish(),
            heads,
            lines,
        }
    }

    // What a line is of that begins so. Before the first volume stand those of the server.
    fn line_of(&mut self, first: u8) -> LineOf {
        match first {
            b'v' => {
                self.has_volume = true;
                LineOf::Head
            }
            b'e' => LineOf::Export,
            _ if self.has_volume => LineOf::File,
            _ => LineOf::Head,
        }
    }

    // Takes a part of a line, which may end it.
    fn take(&mut self, part: &[u8]) -> Result<(), AllocError> {
        let Some(first) = part.first() else {
            return Ok(());
        };
        if self.line == LineOf::Unknown {
            self.line = self.line_of(*first);
        }
        if self.line != LineOf::Export {
            self.digest.take(part);
            self.keep(part)?;
        }
        if self.line != LineOf::File {
            self.heads.extend_from_slice(part)?;
        }
        if part.ends_with(b"\n") {
            self.line = LineOf::Unknown;
        }
        Ok(())
    }

    // Keeps a part of a line that is no export, as far as there is room for it.
    fn keep(&mut self, part: &[u8]) -> Result<(), AllocError> {
        let room = MOST_KEPT.saturating_sub(self.lines.len());
        self.lines
            .extend_from_slice(part.get(..room).unwrap_or(part))
    }
}

impl Output for LifeOutput {
    ghost has = { λ _ _. ⊤ };

    fn put(&mut self, part: &[u8]) -> Result<(), DescribeFault> {
        for line in part.split_inclusive(|byte| *byte == b'\n') {
            self.take(line)?;
        }
        Ok(())
    }
}
