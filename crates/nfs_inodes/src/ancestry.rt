//! The directories above a directory.
ghost use Rattle.std.specs.Prelude.{◌≡◌, ℕ, true, false};
ghost use Rattle.nfs_inodes.specs.Tree.{File, parent_in};
ghost use Rattle.nfs_inodes.specs.Storage.{kind_of};
ghost use Rattle.nfs_inodes.specs.Law.{LivesAsDirectory, climb, parent_of};
ghost use Rattle.nfs_inodes.specs.Conditions.{IsOff};

use crate::stored_file::Node;
use crate::tree::Tree;
use nfs_handles::number::Number;

impl Tree {
    /// Whether `above` is directory `dir` itself or above it, where a rename may not put it (RFC
    /// 1813, section 3.3.14). It takes as many steps as the directory is deep.
    pub fn is_below(&self, dir: Number, above: Number) -> bool
        requires { (f : File) × LivesAsDirectory self.now dir.0 f }
        ensures below { result ≡ true → (steps : ℕ) × (climb steps self.now.files dir.0 ≡ above.0) }
        ensures off { result ≡ false → IsOff self.now dir.0 above.0 }
    {
        self.law();
        let mut at = dir;
        for step in 0..self.next_number() {
            if at.0 == above.0 {
                return true;
            }
            let parent = self.parent(at);
            if parent.0 == at.0 {
                return false;
            }
            at = parent;
        }
        unreachable!()
    }

    // The parent of a directory; of a root the root itself.
    fn parent(&self, dir: Number) -> Number
        ensures { result.0 ≡ parent_of self.now.files dir.0 }
    {
        match self.files.get(dir) {
            Some(stored_file) => parent_of(&stored_file.node),
            None => Number::new(0),
        }
    }
}

fn parent_of(node: &Node) -> Number
    ensures { result.0 ≡ parent_in (kind_of node.now) }
{
    match node {
        Node::Directory { parent, .. } => *parent,
        _ => Number::new(0),
    }
}
