//! Leaves of the innermost construct.

ghost use Rattle.std.specs.Prelude.{IsTrue};
ghost use Rattle.owl_maker.specs.Makings.{IsInside};
ghost use Rattle.owl_tree.specs.Rows.{row_of, takes};
ghost use Rattle.owl_tree.specs.Trees.{leaf};
ghost use Rattle.fss_acts.specs.Assembling.{AnswersLeaf};

use crate::refusals::of_making;
use owl_maker::Maker;
use owl_reader::TokenFault;
use owl_tree::{Atom, Tag};

/// Puts a leaf into the innermost construct.
pub fn put_leaf(maker: &mut Maker, tag: Tag, atom: Atom) -> Result<(), TokenFault>
    requires inside { IsInside maker.old }
    requires takes { IsTrue (takes (row_of tag) atom) }
    ensures { AnswersLeaf (leaf tag atom) maker.old result maker.new }
{
    // What was made an atom is one, and every document is one that is begun.
    atom.made();
    maker.made();
    match maker.leaf(tag, atom) {
        Ok(()) => Ok(()),
        Err(fault) => Err(of_making(fault)),
    }
}
