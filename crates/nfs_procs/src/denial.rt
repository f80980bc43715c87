//! Calls that are denied.
ghost use Rattle.std.specs.Prelude.{◌≡◌, Some, None};

use nfs_attrs::fattr::Fattr;
use nfs_rules::rule::Rule;
use nfs_rules::subject::Subject;

/// Why a call is denied, and what its answer shows all the same.
#[derive(Clone, Copy)]
pub struct Denial {
    /// The first rule that fails.
    pub rule: Rule,
    /// The uid by which the caller is judged, where the rules of the handle are kept.
    pub uid: Option<u32>,
    /// The attributes of what the handle names, where its rules are kept.
    pub shown: Option<Fattr>,
}

impl Denial {
    /// A rule of the handle fails.
    #[cold]
    pub(crate) fn of_handle(rule: Rule) -> Denial
        ensures { result ≡ record { rule = rule; uid = None; shown = None } }
    {
        Denial {
            rule,
            uid: None,
            shown: None,
        }
    }

    /// A rule after those of the handle fails.
    #[cold]
    pub(crate) fn of_rule(subject: &Subject<'_>, rule: Rule) -> Denial
        ensures { result ≡ record { rule = rule; uid = Some subject.now.ids.uid; shown = Some subject.now.file } }
    {
        Denial {
            rule,
            uid: Some(subject.uid()),
            shown: Some(subject.attributes()),
        }
    }
}

/// Why a call with two handles is denied, and what its answer shows all the same.
#[derive(Clone, Copy)]
pub struct PairDenial {
    /// The first rule that fails.
    pub rule: Rule,
    /// The uid by which the caller is judged, where the rules of both handles are kept.
    pub uid: Option<u32>,
    /// The attributes of what the first handle names, where its rules are kept.
    pub one: Option<Fattr>,
    /// Those of what the second names.
    pub two: Option<Fattr>,
}

impl PairDenial {
    /// A rule after those of the handles fails.
    #[cold]
    pub(crate) fn of_rule(one: &Subject<'_>, two: &Subject<'_>, rule: Rule) -> PairDenial
        ensures { result ≡ record { rule = rule; uid = Some one.now.ids.uid; one = Some one.now.file; two = Some two.now.file } }
    {
        PairDenial {
            rule,
            uid: Some(one.uid()),
            one: Some(one.attributes()),
            two: Some(two.attributes()),
        }
    }
}
