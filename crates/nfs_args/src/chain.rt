//! Chains: items one after another, and then that none follows (RFC 4506, section 4.19).
ghost use Rattle.std.specs.Prelude.{◌≡◌, false, ◌≤◌, length};
ghost use Rattle.std.specs.Int.{w32, to_be_bytes};
ghost use Rattle.nfs_xdr.specs.Encoding.{IsBoolean, opaque_text};
ghost use Rattle.nfs_xdr.specs.Written.{Appends};
ghost use Rattle.nfs_args.specs.Encoding.{IsString};
ghost use Rattle.nfs_args.specs.Chains.{Each, AreEncoded, chained_text, links_text};
ghost use Rattle.nfs_args.specs.Results.{StringFits};

use crate::opaque::{Opaque, write_string};
use nfs_xdr::output::Output;

/// Writes a string of a chain: that there is one, and the string. In EXPORT's answer these are the
/// path of a volume, after which the chain of its groups follows, and the name of a group.
pub fn write_chained_string(out: &mut Output, string: &Opaque<'_>)
    requires fits { StringFits string.now }
    requires room { length (chained_text opaque_text string.now) ≤ out.old.room }
    ensures text { Appends (chained_text opaque_text string.now) out.old out.new }
    ensures encoded { IsString string.now (opaque_text string.now) }
{
    out.boolean(true);
    write_string(out, string);
}

/// Writes that no item follows.
pub fn write_chain_end(out: &mut Output)
    requires { 4 ≤ out.old.room }
    ensures text { Appends (to_be_bytes w32 0) out.old out.new }
    ensures encoded { IsBoolean false (to_be_bytes w32 0) }
{
    out.boolean(false);
}

// Strings of a chain, without its end.
pub(crate) fn write_chained_strings(out: &mut Output, strings: &[Opaque<'_>])
    requires fits { Each StringFits strings.now }
    requires room { length (links_text opaque_text strings.now) ≤ out.old.room }
    ensures text { Appends (links_text opaque_text strings.now) out.old out.new }
    ensures encoded { AreEncoded IsString opaque_text strings.now }
{
    for string in strings {
        write_chained_string(out, string);
    }
}
