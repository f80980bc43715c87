//! What the words of a text of options say together.
ghost use Rattle.std.specs.Prelude.{◌≡◌, nat_eq};
ghost use Rattle.nfs_exports.specs.Settings as spec;

use crate::options::{NOBODY, Options, OptionsFault, Squash};
use crate::setting::Setting;

/// What was said, each where a word says it.
#[derive(Clone, Copy, Debug)]
pub struct Settings {
    /// `ro`, or `rw`.
    pub read_only: Option<bool>,
    /// `root_squash`, or `no_root_squash`.
    pub root_squash: Option<bool>,
    /// `all_squash`, or `no_all_squash`.
    pub all_squash: Option<bool>,
    /// `anonuid=N`.
    pub anonuid: Option<u32>,
    /// `anongid=N`.
    pub anongid: Option<u32>,
}

impl Settings {
    /// Before the first word.
    pub fn nothing() -> Settings
        ensures { result ≡ spec.nothing }
    {
        Settings {
            read_only: None,
            root_squash: None,
            all_squash: None,
            anonuid: None,
            anongid: None,
        }
    }

    /// With what one word more says.
    ///
    /// `Contradiction` where an earlier word says otherwise.
    pub fn with(self, setting: Setting) -> Result<Settings, OptionsFault>
        ensures { result ≡ spec.with_setting self setting }
    {
        let mut settings = self;
        match setting {
            Setting::ReadOnly(yes) => settings.read_only = Some(agreed_flag(self.read_only, yes)?),
            Setting::RootSquash(yes) => {
                settings.root_squash = Some(agreed_flag(self.root_squash, yes)?);
            }
            Setting::AllSquash(yes) => {
                settings.all_squash = Some(agreed_flag(self.all_squash, yes)?);
            }
            Setting::AnonUid(id) => settings.anonuid = Some(agreed_id(self.anonuid, id)?),
            Setting::AnonGid(id) => settings.anongid = Some(agreed_id(self.anongid, id)?),
            Setting::Nothing => {}
        }
        Ok(settings)
    }

    /// What is allowed by all that was said.
    pub fn options(self) -> Options
        ensures { result ≡ spec.options_of self }
    {
        Options {
            read_only: self.read_only.unwrap_or(true),
            squash: self.squash(),
            anonuid: self.anonuid.unwrap_or(NOBODY),
            anongid: self.anongid.unwrap_or(NOBODY),
        }
    }

    fn squash(self) -> Squash
        ensures { result ≡ spec.squash_of self.root_squash self.all_squash }
    {
        if self.all_squash.unwrap_or(false) {
            Squash::All
        } else if self.root_squash.unwrap_or(true) {
            Squash::Root
        } else {
            Squash::No
        }
    }
}

// What a word says, where no earlier one says otherwise.
fn agreed_flag(earlier: Option<bool>, said: bool) -> Result<bool, OptionsFault>
    ensures { result ≡ spec.agreed spec.same_flag earlier said }
{
    match earlier {
        Some(earlier) if earlier != said => Err(OptionsFault::Contradiction),
        _ => Ok(said),
    }
}

fn agreed_id(earlier: Option<u32>, said: u32) -> Result<u32, OptionsFault>
    ensures { result ≡ spec.agreed nat_eq earlier said }
{
    match earlier {
        Some(earlier) if earlier != said => Err(OptionsFault::Contradiction),
        _ => Ok(said),
    }
}
