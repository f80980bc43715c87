//! The rules that look at what RENAME moves, and at what it takes the place of.
ghost use Rattle.std.specs.Prelude.{◌≡◌, ◌&&◌, not, true, nat_eq, IfSome, option_map};
ghost use Rattle.nfs_inodes.specs.Reading.{is_directory_type};
ghost use Rattle.nfs_inodes.specs.Views.{IsSeen};
ghost use Rattle.nfs_rules.specs.Judging.{Judges, Reports};
ghost use Rattle.nfs_rules.specs.Table as table;
ghost use Rattle.nfs_rules.specs.Tests as test;

use crate::rule::{Rule, ensure};
use crate::subject::Subject;
use nfs_attrs::file_type::FileType;
use nfs_inodes::tree::Tree;
use nfs_inodes::view::FileView;

/// What is moved from one directory to another, where the new name names what is there, if something
/// is. Where both names name one file no rule is looked at.
pub(crate) fn move_rules(
    from: &Subject<'_>,
    to: &Subject<'_>,
    moved: &FileView<'_>,
    old: &Option<FileView<'_>>,
) -> Result<(), Rule>
    requires directory { is_directory_type to.now.file.file_type ≡ true }
    requires seen { IfSome old.now (λ f. IsSeen to.now.tree f) }
    ensures { Judges result (table.move_rules from.now to.now moved.now.attributes (option_map (λ f. f.attributes) old.now)) }
{
    if is_moved(moved, old) {
        return Ok(());
    }
    from.must_let_go_with(to, moved, old)?;
    entering_rules(from, to, moved, old)
}

// Those that look at where it comes.
fn entering_rules(
    from: &Subject<'_>,
    to: &Subject<'_>,
    moved: &FileView<'_>,
    old: &Option<FileView<'_>>,
) -> Result<(), Rule>
    requires directory { is_directory_type to.now.file.file_type ≡ true }
    requires seen { IfSome old.now (λ f. IsSeen to.now.tree f) }
    ensures { Judges result (table.entering_rules from.now to.now moved.now.attributes (option_map (λ f. f.attributes) old.now)) }
{
    match old {
        None => {
            to.must_not_be_below(moved)?;
            from.must_have_link_left_for(to, moved)?;
            to.must_have_cookie_left()
        }
        Some(old) => {
            to.must_be_replaceable(moved, old)?;
            to.must_not_be_below(moved)?;
            to.must_have_cookie_left()
        }
    }
}

// Whether what the new name names is what is moved.
fn is_moved(moved: &FileView<'_>, old: &Option<FileView<'_>>) -> bool
    ensures { result ≡ table.is_moved moved.now.attributes (option_map (λ f. f.attributes) old.now) }
{
    match old {
        Some(old) => moved.number().0 == old.number().0,
        None => false,
    }
}

impl<'a> Subject<'a> {
    // `Sticky`: this directory lets go what is moved, and the other one what the new name names there.
    fn must_let_go_with(
        &self,
        to: &Subject<'_>,
        moved: &FileView<'_>,
        old: &Option<FileView<'_>>,
    ) -> Result<(), Rule>
        ensures { Reports result (table.sticky_move self.now to.now moved.now.attributes (option_map (λ f. f.attributes) old.now)) }
    {
        self.must_let_go(&moved.attributes())?;
        match old {
            Some(old) => to.must_let_go(&old.attributes()),
            None => Ok(()),
        }
    }

    /// `Incompatible`: what is there may be replaced by what is moved.
    pub(crate) fn must_be_replaceable(
        &self,
        moved: &FileView<'_>,
        old: &FileView<'_>,
    ) -> Result<(), Rule>
        requires { IsSeen self.now.tree old.now }
        ensures { Reports result (table.incompatible self.now moved.now.attributes old.now.attributes) }
    {
        let kept = if is_directory(moved) {
            is_directory(old) && self.is_empty(old)
        } else {
            !is_directory(old)
        };
        ensure(kept, Rule::Incompatible)
    }

    /// `IntoItself`: what is moved is neither this directory nor above it.
    pub(crate) fn must_not_be_below(&self, moved: &FileView<'_>) -> Result<(), Rule>
        requires { is_directory_type self.now.file.file_type ≡ true }
        ensures { Reports result (table.into_itself self.now moved.now.attributes) }
    {
        if !is_directory(moved) {
            return Ok(());
        }
        let kept = !is_above(self.tree, moved, self.view());
        ensure(kept, Rule::IntoItself)
    }

    // `Links`, where a directory comes into another directory than this one, which gains a link.
    fn must_have_link_left_for(&self, to: &Subject<'_>, moved: &FileView<'_>) -> Result<(), Rule>
        ensures { Reports result (test.only_where (is_directory_type moved.now.attributes.file_type && not
            (nat_eq self.now.file.fileid to.now.file.fileid)) (test.links to.now.tree.limits to.now.file)) }
    {
        if !is_directory(moved) || self.attributes().fileid == to.attributes().fileid {
            return Ok(());
        }
        to.must_have_link_left()
    }
}

fn is_directory(file: &FileView<'_>) -> bool
    ensures { result ≡ is_directory_type file.now.attributes.file_type }
{
    match file.attributes().file_type {
        FileType::Directory => true,
        _ => false,
    }
}

// Whether a directory is another one, or above it.
fn is_above(tree: &Tree, above: &FileView<'_>, dir: &FileView<'_>) -> bool
    requires seen { IsSeen tree.now dir.now }
    requires directory { is_directory_type dir.now.attributes.file_type ≡ true }
    ensures { result ≡ table.is_above tree.now above.now.attributes.fileid dir.now.attributes.fileid }
{
    tree.law();
    tree.is_below(dir.number(), above.number())
}
