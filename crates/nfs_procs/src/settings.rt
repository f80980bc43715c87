//! What is set of a file that is there (RFC 1813, section 2.6, sattr3).
ghost use Rattle.std.specs.Prelude.{◌≡◌, true, OnOk, OnErr};
ghost use Rattle.nfs_inodes.specs.Changes.{after_resize};
ghost use Rattle.nfs_inodes.specs.Law.{Lives};
ghost use Rattle.nfs_inodes.specs.Tree.{File, on_some};
ghost use Rattle.nfs_procs.specs.Changers as changers;
ghost use Rattle.nfs_procs.specs.Plans.{MayTakeSize};

use nfs_attrs::fattr::Fattr;
use nfs_attrs::moment::Moment;
use nfs_attrs::sattr::Sattr;
use nfs_attrs::time_setting::TimeSetting;
use nfs_handles::number::Number;
use nfs_inodes::given_attributes::GivenAttributes;
use nfs_inodes::tree::Tree;
use std::alloc::AllocError;

// S_ISGID, the lower of the two bits that are cleared, and of the mode's twelve bits the last but one.
const SET_GROUP_ID: u32 = 0x400;

/// Sets what is given of a file, its size first; where nothing is given nothing changes. Refused
/// only without memory for what the file grows by, and then the tree is as before.
pub(crate) fn set_given(
    tree: &mut Tree,
    number: Number,
    given: &Sattr,
    now: Moment,
) -> Result<(), AllocError>
    requires file { (f : File) × Lives tree.old number.0 f }
    requires size { MayTakeSize tree.old number.0 given.now.size }
    ensures ok { OnOk result (tree.new ≡ changers.after_settings tree.old number.0 given.now now) }
    ensures err { OnErr result (tree.new ≡ tree.old) }
    ensures full { OnErr result (changers.grows_to tree.old number.0 given.now.size ≡ true) }
{
    if !sets_something(given) {
        return Ok(());
    }
    set_size(tree, number, given.size, now)?;
    tree.set(number, &given_of(now, given), now);
    Ok(())
}

/// A size alone, if there is one.
pub(crate) fn size_alone(size: Option<u64>) -> Sattr
    ensures { result ≡ changers.size_alone size }
{
    Sattr {
        mode: None,
        uid: None,
        gid: None,
        size,
        atime: TimeSetting::Leave,
        mtime: TimeSetting::Leave,
    }
}

/// Sets the mode of a file, where there is one to set.
pub(crate) fn set_mode(tree: &mut Tree, number: Number, mode: Option<u32>, now: Moment)
    requires { (f : File) × Lives tree.old number.0 f }
    ensures { tree.new ≡ changers.after_settings tree.old number.0 (changers.mode_alone mode) now }
{
    if let Some(mode) = mode {
        let given = GivenAttributes {
            mode: Some(mode),
            uid: None,
            gid: None,
            atime: None,
            mtime: None,
        };
        tree.set(number, &given, now);
    }
}

/// The mode of a file without its bits 0x800 and 0x400, where a caller changes its bytes that is not
/// uid 0, and it has one of them (POSIX.1-2017, System Interfaces, write and ftruncate).
pub(crate) fn cleared_mode(uid: u32, file: &Fattr, changes: bool) -> Option<u32>
    ensures { result ≡ changers.cleared_mode uid file.now changes }
{
    if changes && uid != 0 && SET_GROUP_ID <= file.mode {
        Some(file.mode % SET_GROUP_ID)
    } else {
        None
    }
}

/// What is given, and where that is a size and no mode, the mode without the two bits.
pub(crate) fn with_cleared_mode(uid: u32, file: &Fattr, given: &Sattr) -> Sattr
    ensures { result ≡ changers.with_cleared_mode uid file.now given.now }
{
    let mode = match given.mode {
        Some(mode) => Some(mode),
        None => cleared_mode(uid, file, given.size.is_some()),
    };
    Sattr { mode, ..*given }
}

// Gives a file a size where there is one. Refused only without memory for what the file grows by, and
// then the tree is as before.
fn set_size(
    tree: &mut Tree,
    number: Number,
    size: Option<u64>,
    now: Moment,
) -> Result<(), AllocError>
    requires { MayTakeSize tree.old number.0 size }
    ensures ok { OnOk result (tree.new ≡ on_some size tree.old (λ size. after_resize tree.old number.0 size now)) }
    ensures err { OnErr result (tree.new ≡ tree.old) }
    ensures full { OnErr result (changers.grows_to tree.old number.0 size ≡ true) }
{
    match size {
        Some(size) => tree.resize(number, size as usize, now),
        None => Ok(()),
    }
}

fn sets_something(given: &Sattr) -> bool
    ensures { result ≡ changers.sets_something given.now }
{
    given.mode.is_some()
        || given.uid.is_some()
        || given.gid.is_some()
        || given.size.is_some()
        || is_set(given.atime)
        || is_set(given.mtime)
}

fn is_set(setting: TimeSetting) -> bool
    ensures { result ≡ changers.is_set setting }
{
    match setting {
        TimeSetting::Leave => false,
        TimeSetting::ServerTime | TimeSetting::ClientTime(_) => true,
    }
}

fn given_of(now: Moment, given: &Sattr) -> GivenAttributes
    ensures { result ≡ changers.given_of now given.now }
{
    GivenAttributes {
        mode: given.mode,
        uid: given.uid,
        gid: given.gid,
        atime: setting_of(now, given.atime),
        mtime: setting_of(now, given.mtime),
    }
}

fn setting_of(now: Moment, setting: TimeSetting) -> Option<Moment>
    ensures { result ≡ changers.setting now setting }
{
    match setting {
        TimeSetting::Leave => None,
        TimeSetting::ServerTime => Some(now),
        TimeSetting::ClientTime(moment) => Some(moment),
    }
}
