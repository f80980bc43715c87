//! What files contain, as it is read: the bytes of regular files and the paths of links.
ghost use Rattle.std.specs.Prelude.{◌≡◌, ℕ, drop, option_map};
ghost use Rattle.nfs_inodes.specs.Tree.{bytes_in};
ghost use Rattle.nfs_inodes.specs.Storage.{kind_of};
ghost use Rattle.nfs_inodes.specs.Reading.{IsFirstChunk, bytes_at, path_at};
ghost use Rattle.nfs_inodes.specs.Reading as spec;
ghost use Rattle.nfs_inodes.specs.Views.{IsSeen};

use crate::stored_file::Node;
use crate::tree::Tree;
use crate::view::FileView;
use nfs_content::content::Content;
use nfs_handles::number::Number;

impl Tree {
    /// The bytes of a regular file from an offset on: a first run of them, which has one where
    /// there is one. None where no regular file lives under the number.
    pub fn bytes_at(&self, number: Number, offset: usize) -> &[u8]
        ensures { IsFirstChunk result.now (drop offset (bytes_at self.now number.0)) }
    {
        match self.files.get(number) {
            Some(stored_file) => run_from(&stored_file.node, offset),
            None => &[],
        }
    }

    /// The path of a symbolic link (RFC 1813, section 3.3.5). `None` where no link lives under
    /// the number.
    pub fn link_path(&self, number: Number) -> Option<&[u8]>
        ensures { option_map (λ path. path.now) result ≡ path_at self.now number.0 }
    {
        match self.files.get(number) {
            Some(stored_file) => path_of(&stored_file.node),
            None => None,
        }
    }

    /// The same of a link that is seen, without a search.
    pub fn link_path_of<'a>(&self, link: &FileView<'a>) -> Option<&'a [u8]>
        requires { IsSeen self.now link.now }
        ensures { option_map (λ path. path.now) result ≡ path_at self.now link.now.attributes.fileid }
    {
        path_of(link.node())
    }
}

pub(crate) fn run_from(node: &Node, offset: usize) -> &[u8]
    ensures { IsFirstChunk result.now (drop offset (bytes_in (kind_of node.now))) }
{
    match node {
        Node::Regular(content) => content.run_at(offset),
        _ => &[],
    }
}

fn path_of(node: &Node) -> Option<&[u8]>
    ensures { option_map (λ path. path.now) result ≡ spec.path_of (kind_of node.now) }
{
    match node {
        Node::Link(path) => Some(path.as_slice()),
        _ => None,
    }
}
