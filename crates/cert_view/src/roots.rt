//! The trusted certificates of a roots file.

ghost use Rattle.std.specs.Prelude.{◌≡◌, List, map};
ghost use Rattle.cert_view.specs.Roots.{roots_of, ReadsRoots};

use crate::root::Root;
use crate::root_line::line_root;
use crate::roots_fault::RootsFault;
use mdoc_outside::{MOST_ROOTS, lines_of};
use std::alloc::Global;
use std::marker::Model;

/// Trusted certificates, in order, which a contract sees as the list of them.
#[derive(Drop)]
pub struct Roots {
    roots: Vec<Root>,
}

impl Model for Roots {
    ghost use Rattle.std.specs.Prelude.{List};
    ghost use Rattle.cert_view.specs.declared.root.Root.{Root};

    ghost Value = { List Root };

    ghost view = { λ r. r.roots.items };
}

impl Roots {
    ghost use Rattle.cert_view.specs.Root.{listed};

    /// The roots that a text lists, one a line, else its first line outside the grammar, or that it
    /// lists too many.
    pub fn read(alloc: Global, text: &[u8]) -> Result<Roots, RootsFault>
        ensures { ReadsRoots (map listed) result (roots_of text.now) }
    {
        let mut roots = Vec::new(alloc);
        for line in lines_of(text) {
            let root = line_root(alloc, &line)?;
            if roots.len() >= MOST_ROOTS {
                return Err(RootsFault::TooMany(MOST_ROOTS as u64 + 1));
            }
            roots.push(root)?;
        }
        Ok(Roots { roots })
    }

    /// The roots, in the order of the file.
    pub fn list(&self) -> &[Root]
        ensures { result.now ≡ self.now }
    {
        &self.roots
    }
}
