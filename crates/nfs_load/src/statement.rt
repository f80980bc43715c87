//! What a line says.
ghost use Rattle.std.specs.Prelude.{◌≡◌, ℕ, List, [], ◌∷◌, ◌++◌, length};
ghost use Rattle.nfs_load.specs.Fields.{Encodes, Takes, TakesIfRoom};
ghost use Rattle.nfs_load.specs.Statements.{WantsContent, dir_in, export_in, file_in, file_line_of, given_in, hard_in, link_line_of, link_in, times_in, times_line_of, volume_in, volume_line_of};

use crate::cause::Cause;
use crate::fields::Fields;
use crate::name_form::NameForm;
use crate::path::Path;
use crate::refusal::Refusal;
use crate::target::Target;
use nfs_attrs::moment::Moment;
use nfs_content::content::Content;
use nfs_content::pages::Pages;
use nfs_exports::options::Options;
use nfs_exports::pattern::Pattern;
use nfs_inodes::limits::MAX_VOLUME_BYTES;
use nfs_inodes::tree::Tree;
use std::alloc::Global;

/// The attributes that a line gives a new file.
#[derive(Clone, Copy)]
pub struct Given {
    /// The protection bits.
    pub mode: u32,
    /// The owner's user number.
    pub uid: u32,
    /// The number of the file's group.
    pub gid: u32,
}

/// `volume PATH BYTES FILES MODE UID GID`: a new volume.
#[derive(Drop)]
pub struct VolumeLine<'a> {
    /// Its path.
    pub path: &'a [u8],
    /// The most bytes that its regular files have together.
    pub max_bytes: u64,
    /// The most files, with the root.
    pub max_files: u64,
    /// The attributes of its root.
    pub given: Given,
}

/// `export PATTERN OPTIONS`: to whom the last volume is exported.
#[derive(Clone, Copy)]
pub struct ExportLine {
    /// The addresses.
    pub pattern: Pattern,
    /// What is allowed to them.
    pub options: Options,
}

/// `file PATH MODE UID GID CONTENT`: a new regular file.
#[derive(Drop)]
pub struct FileLine<'a> {
    /// Its path in the last volume.
    pub path: Path<'a>,
    /// Its attributes.
    pub given: Given,
    /// Its bytes.
    pub content: Pages,
}

/// `dir PATH MODE UID GID`: a new directory.
#[derive(Drop)]
pub struct DirLine<'a> {
    /// Its path in the last volume.
    pub path: Path<'a>,
    /// Its attributes.
    pub given: Given,
}

/// `link PATH UID GID TARGET`: a new symbolic link.
#[derive(Drop)]
pub struct LinkLine<'a> {
    /// Its path in the last volume.
    pub path: Path<'a>,
    /// The owner's user number.
    pub uid: u32,
    /// The number of the file's group.
    pub gid: u32,
    /// What it holds.
    pub target: Target<'a>,
}

/// `hard PATH OLD`: a hard link of a file.
#[derive(Drop)]
pub struct HardLine<'a> {
    /// The new path.
    pub path: Path<'a>,
    /// A path that the file has.
    pub old: Path<'a>,
}

/// `times PATH ATIME MTIME CTIME`: the times of a file (RFC 1813, section 2.6).
#[derive(Drop)]
pub struct TimesLine<'a> {
    /// Its path in the last volume; `None` for the root.
    pub path: Option<Path<'a>>,
    /// When it was read last.
    pub atime: Moment,
    /// When it was written last.
    pub mtime: Moment,
    /// When its attributes were changed last.
    pub ctime: Moment,
}

impl Given {
    fn read(fields: &mut Fields<'_>) -> Result<Given, Cause>
        ensures { Takes (λ given. given) fields.new result (given_in fields.old) }
    {
        let mode = fields.mode()?;
        let uid = fields.id()?;
        let gid = fields.id()?;
        Ok(Given { mode, uid, gid })
    }
}

impl<'a> VolumeLine<'a> {
    /// The fields of such a line. The first cause from left to right: `BadVolumePath` or
    /// `BadNumber`.
    pub fn read(fields: &mut Fields<'a>, tree: &Tree) -> Result<VolumeLine<'a>, Cause>
        ensures { Takes volume_line_of fields.new result (volume_in tree.now.limits.files fields.old) }
    {
        let path = fields.volume_path()?;
        let max_bytes = fields.number(0, MAX_VOLUME_BYTES)?;
        let max_files = fields.files(tree)?;
        let given = Given::read(fields)?;
        Ok(VolumeLine {
            path,
            max_bytes,
            max_files,
            given,
        })
    }
}

impl ExportLine {
    /// The fields of such a line, the options of which may be skipped. The first cause from left
    /// to right: `BadPattern` or `BadOptions`.
    pub fn read(fields: &mut Fields<'_>) -> Result<ExportLine, Cause>
        ensures { Takes (λ line. line) fields.new result (export_in fields.old) }
    {
        let pattern = fields.pattern()?;
        let options = fields.options()?;
        Ok(ExportLine { pattern, options })
    }
}

impl<'a> FileLine<'a> {
    /// The fields of such a line. The first cause from left to right: `BadPath`, `BadNumber` or
    /// `BadContent`; `Memory` where there is none for the content.
    pub fn read(
        alloc: Global,
        fields: &mut Fields<'a>,
        names: NameForm,
        tree: &Tree,
    ) -> Result<FileLine<'a>, Refusal>
        ensures { TakesIfRoom file_line_of (WantsContent names tree.now.limits.file_size fields.old) fields.new result
            (file_in names tree.now.limits.file_size fields.old) }
    {
        let path = fields.path(names)?;
        let given = Given::read(fields)?;
        let content = fields.content(alloc, tree)?;
        Ok(FileLine {
            path,
            given,
            content,
        })
    }

    /// The same, of a line with these four fields and this content. The first cause from left to right: `BadPath`,
    /// `BadNumber`, or `BadContent` where the tree takes no content of so many bytes.
    pub fn with_content(
        fields: &mut Fields<'a>,
        names: NameForm,
        tree: &Tree,
        content: Pages,
    ) -> Result<FileLine<'a>, Cause>
        requires { length fields.old ≡ 4 }
        ensures { (digits : List ℕ) → Encodes digits content
            → Takes file_line_of [] result (file_in names tree.now.limits.file_size (fields.old ++ digits ∷ [])) }
    {
        let DirLine { path, given } = DirLine::read(fields, names)?;
        if content.len() > tree.limits().file_size {
            return Err(Cause::BadContent);
        }
        Ok(FileLine {
            path,
            given,
            content,
        })
    }
}

impl<'a> DirLine<'a> {
    /// The fields of such a line. The first cause from left to right: `BadPath` or `BadNumber`.
    pub fn read(fields: &mut Fields<'a>, names: NameForm) -> Result<DirLine<'a>, Cause>
        ensures { Takes (λ line. line) fields.new result (dir_in names fields.old) }
    {
        let path = fields.path(names)?;
        let given = Given::read(fields)?;
        Ok(DirLine { path, given })
    }
}

impl<'a> LinkLine<'a> {
    /// The fields of such a line. The first cause from left to right: `BadPath`, `BadNumber`, or
    /// `BadContent` where what the link holds is none, or has more bytes than the tree takes of one.
    pub fn read(
        fields: &mut Fields<'a>,
        names: NameForm,
        tree: &Tree,
    ) -> Result<LinkLine<'a>, Cause>
        ensures { Takes link_line_of fields.new result (link_in names tree.now.limits.link_path fields.old) }
    {
        let path = fields.path(names)?;
        let uid = fields.id()?;
        let gid = fields.id()?;
        let target = fields.target(names, tree)?;
        Ok(LinkLine {
            path,
            uid,
            gid,
            target,
        })
    }
}

impl<'a> HardLine<'a> {
    /// The fields of such a line. `BadPath` where one of them is no path.
    pub fn read(fields: &mut Fields<'a>, names: NameForm) -> Result<HardLine<'a>, Cause>
        ensures { Takes (λ line. line) fields.new result (hard_in names fields.old) }
    {
        let path = fields.path(names)?;
        let old = fields.path(names)?;
        Ok(HardLine { path, old })
    }
}

impl<'a> TimesLine<'a> {
    /// The fields of such a line. The first cause from left to right: `BadPath` or `BadNumber`.
    pub fn read(fields: &mut Fields<'a>, names: NameForm) -> Result<TimesLine<'a>, Cause>
        ensures { Takes times_line_of fields.new result (times_in names fields.old) }
    {
        let path = fields.path_or_root(names)?;
        let atime = fields.moment()?;
        let mtime = fields.moment()?;
        let ctime = fields.moment()?;
        Ok(TimesLine {
            path,
            atime,
            mtime,
            ctime,
        })
    }
}
