//! Names, as entries keep them and as they are looked up.
ghost use Rattle.std.specs.Prelude.{◌≡◌, ◌≤◌, IfOk, IsOk, bytes_eq, length};
ghost use Rattle.std.specs.Hash as fed;
ghost use Rattle.std.proofs.Common.{ap};
ghost use Rattle.std.specs.Cmp.{partial_equiv_from_equiv, on_per, on_equiv};
ghost use Rattle.std.specs.Cmp.Lexicographic.{bytes_decides, nat_list_eq_equiv};

use indexmap::Equivalent;
use std::alloc::{AllocError, Global};
use std::hash::{Hash, Hasher};
use std::marker::Model;

// The longest name that stands in its row.
const MAX_SHORT: usize = 30;

/// The name of an entry. One of up to 30 bytes stands in the row itself, so that finding the row finds it too.
/// A longer one stands elsewhere.
#[derive(Drop)]
pub struct EntryName(NameForm);

#[derive(Drop)]
enum NameForm {
    Short { len: u8, bytes: [u8; MAX_SHORT] },
    Long(Vec<u8>),
}

// A byte says which form it is, and a short one has a byte for its length.
const _: () = prove!(size_of::<EntryName>() == 32);

impl Model for EntryName {
    ghost use Rattle.std.specs.Prelude.{ℕ, List};

    ghost Value = { List ℕ };

    ghost use Rattle.nfs_entries.specs.Names.{bytes_of, IsNameForm};

    ghost view = { λ n. bytes_of n.0 };

    ghost invariant = { λ n. IsNameForm n.0 };
}

impl EntryName {
    /// The name with these bytes. One of up to 30 takes no memory. `AllocError` where there is none
    /// for a longer one.
    pub fn copied(alloc: Global, name: &[u8]) -> Result<EntryName, AllocError>
        ensures bytes { IfOk result (λ n. n ≡ name.now) }
        ensures short { length name.now ≤ 30 → IsOk result }
    {
        let len = name.len();
        if len > MAX_SHORT {
            return Ok(EntryName(NameForm::Long(name.to_vec(alloc)?)));
        }
        let mut bytes = [0; MAX_SHORT];
        bytes[..len].copy_from_slice(name);
        Ok(EntryName(NameForm::Short {
            len: len as u8,
            bytes,
        }))
    }

    /// Its bytes.
    #[inline(always)]
    pub fn as_slice(&self) -> &[u8]
        ensures { result.now ≡ self.now }
    {
        match &self.0 {
            NameForm::Short { len, bytes } => &bytes[..*len as usize],
            NameForm::Long(name) => name.as_slice(),
        }
    }
}

impl PartialEq for EntryName {
    ghost eq = { bytes_eq };

    ghost laws = { partial_equiv_from_equiv nat_list_eq_equiv };

    #[inline(always)]
    fn eq(&self, other: &EntryName) -> bool {
        self.as_slice() == other.as_slice()
    }
}

impl Eq for EntryName {
    ghost laws = { nat_list_eq_equiv };
}

// Hashed as a text is: the bytes at once, and then one more, which mixes the bits of a few bytes again.
impl Hash for EntryName {
    ghost hash_input = { fed.str };

    ghost respects_eq = { λ x y h. ap fed.str ((bytes_decides x y).0 h) };

    #[inline(always)]
    fn hash<H: Hasher>(&self, state: &mut H) {
        state.write(self.as_slice());
        state.write_u8(0xff);
    }
}

/// A name that is looked up. A slice alone would serve too, but is hashed byte by byte.
#[derive(Clone, Copy)]
pub(crate) struct SoughtName<'a> {
    pub(crate) bytes: &'a [u8],
}

impl<'a> PartialEq for SoughtName<'a> {
    ghost eq = { λ x y. bytes_eq x.bytes.now y.bytes.now };

    ghost laws = { on_per (λ x. x.bytes.now) (partial_equiv_from_equiv nat_list_eq_equiv) };

    fn eq(&self, other: &Self) -> bool {
        self.bytes == other.bytes
    }
}

impl<'a> Eq for SoughtName<'a> {
    ghost laws = { on_equiv (λ x. x.bytes.now) nat_list_eq_equiv };
}

impl<'a> Hash for SoughtName<'a> {
    ghost hash_input = { λ x. fed.str x.bytes.now };

    ghost respects_eq = { λ x y h. ap fed.str ((bytes_decides x.bytes.now y.bytes.now).0 h) };

    #[inline(always)]
    fn hash<H: Hasher>(&self, state: &mut H) {
        state.write(self.bytes);
        state.write_u8(0xff);
    }
}

impl<'a> Equivalent<EntryName> for SoughtName<'a> {
    ghost equivalent = { λ q name. bytes_eq q.bytes.now name };

    ghost respects_hash = { λ q name h. ap fed.str ((bytes_decides q.bytes.now name).0 h) };

    ghost respects_eq = { λ q x y. nat_list_eq_equiv.congr q.bytes.now x y };

    #[inline(always)]
    fn equivalent(&self, name: &EntryName) -> bool {
        self.bytes == name.as_slice()
    }
}
