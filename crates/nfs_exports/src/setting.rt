//! What one word of a text of options says (exports(5), "General Options" and "User ID Mapping").
ghost use Rattle.std.specs.Prelude.{◌≡◌};
ghost use Rattle.nfs_exports.specs.Words as spec;

use crate::options::OptionsFault;
use nfs_text::chunks::cut;
use nfs_text::number::decimal;

/// What a word says.
#[derive(Clone, Copy, Debug, PartialEq, Eq)]
pub enum Setting {
    /// `ro`, or `rw`.
    ReadOnly(bool),
    /// `root_squash`, or `no_root_squash`.
    RootSquash(bool),
    /// `all_squash`, or `no_all_squash`.
    AllSquash(bool),
    /// `anonuid=N`.
    AnonUid(u32),
    /// `anongid=N`.
    AnonGid(u32),
    /// A word without effect here.
    Nothing,
}

impl Setting {
    /// Reads a word.
    ///
    /// `UnknownOption` where it is none of exports(5), or its `=` is missing or one too many;
    /// `UnsupportedOption` where it isn't served here; `BadNumber` where an id is no number to
    /// 4294967295.
    pub(crate) fn of_word(word: &[u8]) -> Result<Setting, OptionsFault>
        ensures { result ≡ spec.setting_of word.now }
    {
        let (name, value) = cut(word, b'=');
        if is_unsupported(name) {
            return Err(OptionsFault::UnsupportedOption);
        }
        match value {
            None => of_flag(name),
            Some(value) => of_value(name, value),
        }
    }
}

// The options that aren't served here, with or without a value.
const UNSUPPORTED: [&[u8]; 8] = [
    b"secure",
    b"subtree_check",
    b"no_wdelay",
    b"nohide",
    b"crossmnt",
    b"mountpoint",
    b"mp",
    b"fsid",
];

// The words without a value that have no effect here.
const WITHOUT_EFFECT: [&[u8]; 6] = [
    b"sync",
    b"async",
    b"insecure",
    b"no_subtree_check",
    b"wdelay",
    b"hide",
];

fn is_unsupported(name: &[u8]) -> bool
    ensures { result ≡ spec.is_unsupported name.now }
{
    UNSUPPORTED.contains(&name)
}

fn is_without_effect(name: &[u8]) -> bool
    ensures { result ≡ spec.is_without_effect name.now }
{
    WITHOUT_EFFECT.contains(&name)
}

// What a word without a value says.
fn of_flag(name: &[u8]) -> Result<Setting, OptionsFault>
    ensures { result ≡ spec.flag_of name.now }
{
    if name == b"ro".as_slice() {
        Ok(Setting::ReadOnly(true))
    } else if name == b"rw".as_slice() {
        Ok(Setting::ReadOnly(false))
    } else if name == b"root_squash".as_slice() {
        Ok(Setting::RootSquash(true))
    } else if name == b"no_root_squash".as_slice() {
        Ok(Setting::RootSquash(false))
    } else if name == b"all_squash".as_slice() {
        Ok(Setting::AllSquash(true))
    } else if name == b"no_all_squash".as_slice() {
        Ok(Setting::AllSquash(false))
    } else if name == b"sec".as_slice() {
        Err(OptionsFault::UnsupportedOption)
    } else if is_without_effect(name) {
        Ok(Setting::Nothing)
    } else {
        Err(OptionsFault::UnknownOption)
    }
}

// What a name with a value says.
fn of_value(name: &[u8], value: &[u8]) -> Result<Setting, OptionsFault>
    ensures { result ≡ spec.value_of name.now value.now }
{
    if name == b"anonuid".as_slice() {
        Ok(Setting::AnonUid(id(value)?))
    } else if name == b"anongid".as_slice() {
        Ok(Setting::AnonGid(id(value)?))
    } else if name != b"sec".as_slice() {
        Err(OptionsFault::UnknownOption)
    } else if value == b"sys".as_slice() {
        Ok(Setting::Nothing)
    } else {
        Err(OptionsFault::UnsupportedOption)
    }
}

// The id that a text says.
fn id(text: &[u8]) -> Result<u32, OptionsFault>
    ensures { result ≡ spec.id_of text.now }
{
    match decimal(text, u64::from(u32::MAX)) {
        Some(id) => Ok(id as u32),
        None => Err(OptionsFault::BadNumber),
    }
}
