//! What a symbolic link holds.
ghost use Rattle.std.specs.Prelude.{◌≡◌, ◌≤◌};
ghost use Rattle.nfs_inodes.specs.Limits.{max_path_bytes};
ghost use Rattle.nfs_load.specs.Names.{at_most, held_in};

use crate::name_form::{NameForm, TargetBytes};
use std::marker::Model;

/// What a `link` line says that the link holds, lent from its field. Contracts see the bytes.
#[derive(Drop)]
pub struct Target<'a> {
    field: &'a [u8],
    form: NameForm,
}

impl<'a> Model for Target<'a> {
    ghost use Rattle.std.specs.Prelude.{◌≡◌, ℕ, List, [], true, is_some};
    ghost use Rattle.nfs_inodes.specs.Limits.{max_path_bytes};
    ghost use Rattle.nfs_inodes.specs.Tree.{on_some};
    ghost use Rattle.nfs_load.specs.Names.{at_most, held_in};

    ghost Value = { List ℕ };

    ghost view = { λ target. on_some (held_in target.form target.field.now) [] (λ it. it) };

    ghost invariant = { λ target. is_some (at_most max_path_bytes (held_in target.form target.field.now)) ≡ true };
}

impl<'a> Target<'a> {
    /// What a field says. `None` where that is nothing, or has more bytes than this.
    pub(crate) fn read(field: &'a [u8], form: NameForm, most: usize) -> Option<Target<'a>>
        requires { most ≤ max_path_bytes }
        ensures { result ≡ at_most most (held_in form field.entry.now) }
    {
        if form.held_length(field)? > most {
            return None;
        }
        Some(Target { field, form })
    }

    /// Its bytes: those of the field, or where they are not as the field has them, those that are decoded
    /// into the room.
    pub fn bytes<'b>(&self, room: &'b mut TargetBytes) -> &'b [u8]
    where
        'a: 'b,
        ensures { result.now ≡ self.now }
    {
        match self.form {
            NameForm::Plain => self.field,
            NameForm::Percent => {
                if let Some(target) = self.form.target(self.field) {
                    *room = target;
                }
                room.as_slice()
            }
        }
    }
}
