//! What is to be done once the rules are kept.
ghost use Rattle.std.specs.Prelude.{◌≡◌};

use nfs_attrs::fattr::Fattr;
use nfs_handles::number::{Hint, Number};
use nfs_inodes::new_file::NewFile;
use nfs_inodes::removal::Standing;
use nfs_inodes::renaming::Route;
use nfs_inodes::view::FileView;

/// A file as it is before the call.
#[derive(Clone, Copy)]
pub struct FileBefore {
    /// Its attributes.
    pub attributes: Fattr,
    /// Where it was found.
    pub hint: Hint,
}

impl FileBefore {
    /// What is known of a file that was found.
    #[inline(always)]
    pub(crate) fn of(file: &FileView<'_>) -> FileBefore
        ensures { result.attributes ≡ file.now.attributes }
    {
        FileBefore {
            attributes: file.attributes(),
            hint: file.number().1,
        }
    }
}

/// A new file: the directory of its name, and what it is like.
#[derive(Clone, Copy)]
pub struct Plan {
    /// The directory.
    pub dir: FileBefore,
    /// What the file is like.
    pub given: NewFile,
}

/// A name that is taken away: its directory, and the file that it names.
#[derive(Clone, Copy)]
pub struct RemovalPlan {
    /// The directory.
    pub dir: FileBefore,
    /// The file's number.
    pub number: Number,
    /// What its removal has to know of it.
    pub file: Standing,
}

/// A name that is changed: both directories before the call, and where the entry goes.
#[derive(Clone, Copy)]
pub struct RenamePlan {
    /// The directory of the old name.
    pub from: Fattr,
    /// The directory of the new name.
    pub to: Fattr,
    /// Where the entry goes.
    pub route: Route,
}

/// A regular file: the directory of its name, and the file that is there, or what a new one is like.
#[derive(Clone, Copy)]
pub struct FilePlan {
    /// The directory.
    pub dir: FileBefore,
    /// The file that is taken, if there is one.
    pub present: Option<FileBefore>,
    /// The caller, for what a size takes from the mode of the one that is taken.
    pub uid: u32,
    /// What a new file is like.
    pub given: NewFile,
}
