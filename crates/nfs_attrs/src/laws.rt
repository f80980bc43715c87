//! Laws over the definitions alone.
ghost use Rattle.std.specs.Prelude.{◌≡◌, ℕ, List, length};
ghost use Rattle.nfs_xdr.specs.Encoding.{EncodesOnce};
ghost use Rattle.nfs_xdr.specs.Reading.{Finds};
ghost use Rattle.nfs_attrs.specs.declared.moment.Moment.{Moment};
ghost use Rattle.nfs_attrs.specs.declared.fattr.Fattr.{Fattr};
ghost use Rattle.nfs_attrs.specs.declared.pre_attr.PreAttr.{PreAttr};
ghost use Rattle.nfs_attrs.specs.Encoding.{IsMoment, IsFileType, IsFattr, IsPostOpAttr, IsPreAttr, IsPreOpAttr, IsWcc, IsTimeSetting};
ghost use Rattle.nfs_attrs.specs.Encoding.{IsSattr, moment_text, fattr_text, pre_attr_text};
ghost use Rattle.nfs_attrs.specs.Reading.{moment_at, file_type_at, fattr_at, post_op_attr_at, pre_attr_at, pre_op_attr_at, wcc_at, time_setting_at, sattr_at};

/// Where two encodings of attributes stand at the front of the same bytes, they are one and have
/// one value: no encoding of a value begins an encoding of another.
pub fn attributes_are_encoded_once()
    ensures moment { EncodesOnce IsMoment }
    ensures file_type { EncodesOnce IsFileType }
    ensures fattr { EncodesOnce IsFattr }
    ensures post_op_attr { EncodesOnce IsPostOpAttr }
    ensures pre_attr { EncodesOnce IsPreAttr }
    ensures pre_op_attr { EncodesOnce IsPreOpAttr }
    ensures wcc { EncodesOnce IsWcc }
    ensures time_setting { EncodesOnce IsTimeSetting }
    ensures sattr { EncodesOnce IsSattr }
{}

/// The functions of `specs/Reading` find what is encoded, all of it and nothing else.
pub fn attributes_are_found()
    ensures moment { Finds IsMoment moment_at }
    ensures file_type { Finds IsFileType file_type_at }
    ensures fattr { Finds IsFattr fattr_at }
    ensures post_op_attr { Finds IsPostOpAttr post_op_attr_at }
    ensures pre_attr { Finds IsPreAttr pre_attr_at }
    ensures pre_op_attr { Finds IsPreOpAttr pre_op_attr_at }
    ensures wcc { Finds IsWcc wcc_at }
    ensures time_setting { Finds IsTimeSetting time_setting_at }
    ensures sattr { Finds IsSattr sattr_at }
{}

/// The sizes that are the same for each value are the lengths that are written.
pub fn sizes_are_exact()
    ensures moment { (m : Moment) → length (moment_text m) ≡ 8 }
    ensures fattr { (a : Fattr) → length (fattr_text a) ≡ 84 }
    ensures pre_attr { (a : PreAttr) → length (pre_attr_text a) ≡ 24 }
{}
