//! What is allowed to the addresses of a pattern (exports(5), "General Options" and "User ID
//! Mapping"), and its text.
ghost use Rattle.std.specs.Prelude.{◌≡◌};
ghost use Rattle.nfs_exports.specs.Options.{default_options};
ghost use Rattle.nfs_exports.specs.Settings as spec;

use crate::setting::Setting;
use crate::settings::Settings;
use nfs_text::chunks::Chunks;
use thiserror::Error;

/// Whose ids are mapped to the anonymous ones.
#[derive(Clone, Copy, Debug, PartialEq, Eq)]
pub enum Squash {
    /// `no_root_squash`: nobody's.
    No,
    /// `root_squash`: uid 0 and gid 0.
    Root,
    /// `all_squash`: everybody's.
    All,
}

/// What is allowed to the addresses of a pattern.
#[derive(Clone, Copy, Debug, PartialEq, Eq)]
pub struct Options {
    /// `ro` in place of `rw`.
    pub read_only: bool,
    /// Whose ids are mapped.
    pub squash: Squash,
    /// The anonymous uid.
    pub anonuid: u32,
    /// The anonymous gid.
    pub anongid: u32,
}

/// The uid and gid of nobody, where the options say no other.
pub const NOBODY: u32 = 65_534;

impl Options {
    /// What holds where nothing is said: `ro`, `root_squash`, and nobody's ids.
    pub fn default_options() -> Options
        ensures { result ≡ default_options }
    {
        Options {
            read_only: true,
            squash: Squash::Root,
            anonuid: NOBODY,
            anongid: NOBODY,
        }
    }
}

/// Why a text says no options.
#[derive(Clone, Copy, Debug, PartialEq, Eq, Error)]
pub enum OptionsFault {
    /// A word is no option, lacks the value that it needs, or has one that it doesn't take.
    #[error("there is no such option")]
    UnknownOption,
    /// A word is an option of exports(5) that isn't served here.
    #[error("the option is not supported")]
    UnsupportedOption,
    /// An id isn't said by decimal digits, or is above 4294967295.
    #[error("the id is no number")]
    BadNumber,
    /// A word says otherwise than an earlier one.
    #[error("two options contradict each other")]
    Contradiction,
}

/// Reads options: words with a comma between each two. What no word says is as in
/// `Options::default_options`.
///
/// The fault of the first word that has one. In each word `UnknownOption` is looked for first, then
/// `UnsupportedOption`, `BadNumber`, and `Contradiction` with an earlier word. Words that are equal
/// to earlier ones are taken.
pub fn parse_options(text: &[u8]) -> Result<Options, OptionsFault>
    ensures { result ≡ spec.parse_options text.now }
{
    let mut settings = Settings::nothing();
    for word in Chunks::new(text, b',') {
        settings = settings.with(Setting::of_word(word)?)?;
    }
    Ok(settings.options())
}
