//! Laws over the definitions alone.
ghost use Rattle.nfs_xdr.specs.Encoding.{EncodesOnce, opaque_text};
ghost use Rattle.nfs_xdr.specs.Reading.{Finds};
ghost use Rattle.nfs_args.specs.declared.procedure.Procedure.{Procedure};
ghost use Rattle.nfs_args.specs.declared.procedure.MountProcedure.{MountProcedure};
ghost use Rattle.nfs_args.specs.Encoding.{IsString, IsArgsOf, IsMountArgsOf};
ghost use Rattle.nfs_args.specs.Reading.{args_at, mount_args_at};
ghost use Rattle.nfs_args.specs.Answers.{IsAnswerOf};
ghost use Rattle.nfs_args.specs.Chains.{EncodesChains};
ghost use Rattle.nfs_args.specs.Pages.{IsEntry, entry_text, IsEntryPlus, entry_plus_text};
ghost use Rattle.nfs_args.specs.MountAnswers.{IsMounted, mounted_text, IsExported, exported_text, IsMountAnswerOf};

/// The arguments of a procedure are found where they are encoded, all of them and nothing else; so
/// no encoding of arguments begins an encoding of others of the same procedure.
pub fn arguments_are_found()
    ensures nfs { (proc : Procedure) → Finds (IsArgsOf proc) (args_at proc) }
    ensures nfs_once { (proc : Procedure) → EncodesOnce (IsArgsOf proc) }
    ensures mount { (proc : MountProcedure) → Finds (IsMountArgsOf proc) (mount_args_at proc) }
    ensures mount_once { (proc : MountProcedure) → EncodesOnce (IsMountArgsOf proc) }
{}

/// Where two encodings of a result stand at the front of the same bytes, they are one and have one
/// value: no encoding of a result begins an encoding of another of the same procedure.
pub fn answers_are_encoded_once()
    ensures nfs { (proc : Procedure) → EncodesOnce (IsAnswerOf proc) }
    ensures mount { (proc : MountProcedure) → EncodesOnce (IsMountAnswerOf proc) }
{}

/// Items that are each written as they are encoded, one after another, and then the end of their
/// chain are the chain: so it may be written item by item.
pub fn chains_are_encoded()
    ensures entries { EncodesChains IsEntry entry_text }
    ensures entries_plus { EncodesChains IsEntryPlus entry_plus_text }
    ensures clients { EncodesChains IsMounted mounted_text }
    ensures volumes { EncodesChains IsExported exported_text }
    ensures groups { EncodesChains IsString opaque_text }
{}
