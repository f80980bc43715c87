//! Laws over the definitions alone.
ghost use Rattle.nfs_policy.specs.Complete.{HasBoth, HasChanged, HasFound, HasListed, HasMade, HasPath, HasVolume, OfGranted};
ghost use Rattle.nfs_policy.specs.Choices.{AnswersFollow, BytesAreHidden};
ghost use Rattle.nfs_policy.specs.Confining.{ChangeIsConfined, ReadingIsConfined, RunsAreConfined};
ghost use Rattle.nfs_policy.specs.Confining.{ServersAreConfined};
ghost use Rattle.nfs_policy.specs.Naming.{HandlesNameForGood};
ghost use Rattle.nfs_policy.specs.Policy.{ChangesAreConfined};
ghost use Rattle.nfs_policy.specs.Reading.{CallsAreConfined};
ghost use Rattle.nfs_policy.specs.Refusals.{PassesOver, Refuses};
ghost use Rattle.nfs_policy.specs.Shape.{AgreeingIsThat, VerdictsAreOfShape};

/// What one call of NFS changes of a lawful tree obeys the policy.
pub fn changes_are_confined()
    ensures { ChangesAreConfined }
{}

/// An event leaves the tree, or it is a call of NFS whose change obeys the policy.
pub fn change_is_confined()
    ensures { ChangeIsConfined }
{}

/// After any list of events from a lawful tree the tree is lawful, and each event was confined.
pub fn runs_are_confined()
    ensures { RunsAreConfined }
{}

/// After any list of events no two files that live have one handle, and a handle that named a file
/// at some point of the run names it while it lives, and no file ever after.
pub fn handles_name_for_good()
    ensures { HandlesNameForGood }
{}

/// All this is so of each server that a history fits.
pub fn servers_are_confined()
    ensures { ServersAreConfined }
{}

/// Rules look at the shape of a tree alone: not at the bytes of files.
pub fn verdicts_are_of_shape()
    ensures { VerdictsAreOfShape }
{}

/// Trees agree outside a file where their shapes, and the bytes of all other files, are equal.
pub fn agreeing_is_that()
    ensures { AgreeingIsThat }
{}

/// A call that isn't a granted READ of a file is judged, done and answered alike whatever the
/// bytes of that file are.
pub fn calls_are_confined()
    ensures { CallsAreConfined }
{}

/// The bytes of a file that no call of a run was granted to read show in no reply and no line.
pub fn reading_is_confined()
    ensures { ReadingIsConfined }
{}

/// From one state, the same events with the same free choices get the same answers.
pub fn answers_follow_from_choices()
    ensures { AnswersFollow }
{}

/// Where no call was granted to read a file, the same events with the same free choices get the same replies
/// and lines over any other bytes of it.
pub fn bytes_are_hidden()
    ensures { BytesAreHidden }
{}

/// What the policy refuses of the example, and what it doesn't speak of.
pub fn policy_refuses()
    ensures refuses { Refuses }
    ensures passes { PassesOver }
{}

/// The answer of a granted call has all its parts, where the definitions have a case for a part
/// that isn't there: no call comes to it.
pub fn answers_are_complete()
    ensures path { OfGranted HasPath }
    ensures found { OfGranted HasFound }
    ensures volume { OfGranted HasVolume }
    ensures listed { OfGranted HasListed }
    ensures changed { OfGranted HasChanged }
    ensures both { OfGranted HasBoth }
    ensures made { OfGranted HasMade }
{}
