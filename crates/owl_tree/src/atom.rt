//! What the leaves of trees hold.

ghost use Rattle.std.specs.Prelude.{◌≡◌, ◌<◌, ◌^◌, IfOk};
ghost use Rattle.std.specs.Str.{chars};
ghost use Rattle.std.specs.Cmp.{partial_order_from_own_ties, partial_order_from_total};
ghost use Rattle.std.specs.Ordering.{as_partial_cmp};
ghost use Rattle.std.proofs.Common.{refl};
ghost use Rattle.owl_tree.specs.Atoms.{IsAtom};
ghost use Rattle.owl_tree.specs.Mixes.{mix_of, mix_step, mix_text};
ghost use Rattle.owl_tree.specs.Order.{atom_cmp};
ghost use Rattle.owl_tree.specs.Rows.{sort_of};
ghost use Rattle.owl_tree.specs.OrderLaws.{atoms_total, only_equals_tie};

use crate::row::AtomSort;
use owl_characters::NoMemory;
use rdf_terms::{Iri, Label, Literal};
use std::alloc::Global;
use std::cmp::Ordering;

/// What a leaf of a tree holds: an IRI, the label of an anonymous individual, a
/// literal, or a number (Structural Specification, sections 2.4, 5.6, 5.7 and
/// 8.3).
///
/// Atoms are ordered in this order, and those of one kind by their own order.
#[derive(Debug, Drop, PartialEq, Eq, Hash)]
pub enum Atom {
    Iri(Iri),
    Label(Label),
    Literal(Literal),
    Number(u64),
}

impl Atom {
    /// An equal atom.
    pub fn copy(&self, alloc: Global) -> Result<Atom, NoMemory>
        ensures { IfOk result (λ atom. atom ≡ self.now) }
    {
        match self {
            Atom::Iri(iri) => Ok(Atom::Iri(iri.copy(alloc)?)),
            Atom::Label(label) => Ok(Atom::Label(label.copy(alloc)?)),
            Atom::Literal(literal) => Ok(Atom::Literal(literal.copy(alloc)?)),
            Atom::Number(number) => Ok(Atom::Number(*number)),
        }
    }

    /// Law: what an atom holds is an IRI, a label, a literal or a number of the
    /// Structural Specification (sections 2.4, 5.6.2, 5.7 and 8.3), since no
    /// other can be made. It does nothing.
    pub fn made(&self)
        ensures { IsAtom self.now }
    {
        match self {
            Atom::Iri(iri) => {
                iri.text();
            }
            Atom::Label(label) => {
                label.text();
            }
            Atom::Literal(literal) => {
                literal.datatype();
            }
            Atom::Number(number) => fits_word(*number),
        }
    }

    /// A number by which a table may sort atoms, the same of equal ones: a
    /// number itself; else 7, and for each byte of the texts, of a literal its
    /// lexical form, datatype and tag, the number times 1000003 and the byte
    /// more, modulo 2^64. Takes no memory.
    #[tactic(auto, unfolding(crate::specs::Mixes::mix_of))]
    pub fn mix(&self) -> u64
        ensures { result ≡ mix_of self.now }
    {
        match self {
            Atom::Iri(iri) => mix_text(7, iri.text()),
            Atom::Label(label) => mix_text(7, label.text()),
            Atom::Literal(literal) => {
                let mix = mix_text(7, literal.lexical());
                let mix = mix_text(mix, literal.datatype().text());
                match literal.tag() {
                    Some(tag) => mix_text(mix, tag),
                    None => mix,
                }
            }
            Atom::Number(number) => *number,
        }
    }

    fn sort(&self) -> AtomSort
        ensures { result ≡ sort_of self.now }
    {
        match self {
            Atom::Iri(_) => AtomSort::Iri,
            Atom::Label(_) => AtomSort::Label,
            Atom::Literal(_) => AtomSort::Literal,
            Atom::Number(_) => AtomSort::Number,
        }
    }
}

impl PartialOrd for Atom {
    ghost partial_cmp = { as_partial_cmp atom_cmp };

    ghost laws = { partial_order_from_own_ties (partial_order_from_total atoms_total) only_equals_tie };

    fn partial_cmp(&self, other: &Atom) -> Option<Ordering> {
        Some(self.cmp(other))
    }
}

impl Ord for Atom {
    ghost cmp = { atom_cmp };

    ghost total = { atoms_total };

    ghost matches_partial_cmp = { λ a b. refl };

    ghost matches_eq = { only_equals_tie };

    fn cmp(&self, other: &Atom) -> Ordering {
        match (self, other) {
            (Atom::Iri(iri), Atom::Iri(other)) => iri.cmp(other),
            (Atom::Label(label), Atom::Label(other)) => label.cmp(other),
            (Atom::Literal(literal), Atom::Literal(other)) => literal.cmp(other),
            (Atom::Number(number), Atom::Number(other)) => number.cmp(other),
            _ => self.sort().cmp(&other.sort()),
        }
    }
}

/// The mix after the bytes of a text.
fn mix_text(mix: u64, text: &str) -> u64
    ensures { result ≡ mix_text mix (chars text.now) }
{
    let mut mixed = mix;
    for byte in text.as_bytes() {
        mixed = mix_step(mixed, *byte as u64);
    }
    mixed
}

/// The mix after one more number: the mix times 1000003 and the number more,
/// modulo 2^64.
#[tactic(auto, unfolding(crate::specs::Mixes::mix_step))]
pub fn mix_step(mix: u64, number: u64) -> u64
    ensures { result ≡ mix_step mix number }
{
    mix.wrapping_mul(1_000_003).wrapping_add(number)
}

/// Law: a number has 64 bits.
fn fits_word(number: u64)
    ensures { number < 2 ^ 64 }
{}
