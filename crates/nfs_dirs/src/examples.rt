//! Examples of pages.
ghost use Rattle.nfs_dirs.specs.Example.{PagesOfE};

/// Of a small tree: pages by bounds just large enough and just too small, and after a removal.
pub fn example_pages()
    ensures { PagesOfE }
{}
