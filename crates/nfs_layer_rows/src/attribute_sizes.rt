//! How many bytes attributes have.
ghost use Rattle.std.specs.Prelude.{◌≡◌, ◌≤◌, length};
ghost use Rattle.std.specs.Int.{w32, w64, to_be_bytes};
ghost use Rattle.nfs_xdr.specs.Encoding.{optional_text};
ghost use Rattle.nfs_attrs.specs.Encoding.{post_op_attr_text, pre_op_attr_text, wcc_text, time_setting_text, sattr_text};

use nfs_attrs::fattr::Fattr;
use nfs_attrs::pre_attr::PreAttr;
use nfs_attrs::sattr::Sattr;
use nfs_attrs::time_setting::TimeSetting;
use nfs_attrs::wcc::Wcc;

/// How many bytes a time has.
pub(crate) fn size_moment() -> usize
    ensures { result ≡ 8 }
{
    8
}

/// How many bytes the attributes of a file have.
pub(crate) fn size_fattr() -> usize
    ensures { result ≡ 84 }
{
    84
}

/// How many bytes the attributes of a file have, or that there are none: 88 or 4.
pub(crate) fn size_post_op_attr(attributes: Option<Fattr>) -> usize
    ensures text { result ≡ length (post_op_attr_text attributes) }
    ensures bound { (4 ≤ result) × (result ≤ 88) }
{
    match attributes {
        None => 4,
        Some(_) => 88,
    }
}

/// How many bytes a file's size and times have.
pub(crate) fn size_pre_attr() -> usize
    ensures { result ≡ 24 }
{
    24
}

/// How many bytes a file's size and times have, or that there are none: 28 or 4.
pub(crate) fn size_pre_op_attr(attributes: Option<PreAttr>) -> usize
    ensures text { result ≡ length (pre_op_attr_text attributes) }
    ensures bound { (4 ≤ result) × (result ≤ 28) }
{
    match attributes {
        None => 4,
        Some(_) => 28,
    }
}

/// How many bytes the attributes before and after an operation have: from 8 to 116.
pub(crate) fn size_wcc(wcc: &Wcc) -> usize
    ensures text { result ≡ length (wcc_text wcc.now) }
    ensures bound { (8 ≤ result) × (result ≤ 116) }
{
    size_pre_op_attr(wcc.before) + size_post_op_attr(wcc.after)
}

/// How many bytes the setting of a time has: 12 with a time of the client's, else 4.
pub(crate) fn size_time_setting(setting: TimeSetting) -> usize
    ensures text { result ≡ length (time_setting_text setting) }
    ensures bound { (4 ≤ result) × (result ≤ 12) }
{
    match setting {
        TimeSetting::Leave | TimeSetting::ServerTime => 4,
        TimeSetting::ClientTime(_) => 12,
    }
}

/// How many bytes these settings have: from 24 to 60.
pub(crate) fn size_sattr(settings: &Sattr) -> usize
    ensures text { result ≡ length (sattr_text settings.now) }
    ensures bound { (24 ≤ result) × (result ≤ 60) }
{
    let numbers = size_word(settings.mode)
        + size_word(settings.uid)
        + size_word(settings.gid)
        + size_hyper(settings.size);
    numbers + size_time_setting(settings.atime) + size_time_setting(settings.mtime)
}

fn size_word(value: Option<u32>) -> usize
    ensures text { result ≡ length (optional_text (to_be_bytes w32) value) }
    ensures bound { (4 ≤ result) × (result ≤ 8) }
{
    match value {
        None => 4,
        Some(_) => 8,
    }
}

fn size_hyper(value: Option<u64>) -> usize
    ensures text { result ≡ length (optional_text (to_be_bytes w64) value) }
    ensures bound { (4 ≤ result) × (result ≤ 12) }
{
    match value {
        None => 4,
        Some(_) => 12,
    }
}
