//! Tables of prefixes.

ghost use Rattle.std.specs.Prelude.{◌≡◌, ◌≢◌, ◌↔◌, ◌<◌, ◌≤◌, ◌||◌, ◌&&◌, not, ℕ, List, [], ◌∷◌, ◌++◌, if◌then◌else◌, true, false, Bool, length, slice_get, insert, is_ok, IsTrue, IfOk, IfErr, IfSome, IsNone, IsErrOf, OnOk, OnErr, Some, None, Contains};
ghost use Rattle.std.specs.Str.{chars, encode_utf8_all, IsCharBoundary};
ghost use Rattle.owl_characters.specs.Iri.{AllAre, IsIri, is_iri_character};
ghost use Rattle.owl_characters.specs.Names.{IsPrefixName, begins_with};
ghost use Rattle.owl_characters.specs.Order.{text_cmp, text_eq};
ghost use Rattle.owl_atom.specs.declared.fault.DeclareFault.{DeclareFault};
ghost use Rattle.owl_atom.specs.declared.fault.ExpandFault.{ExpandFault};
ghost use Rattle.owl_atom.specs.declared.prefixes.Prefix.{Prefix};
ghost use Rattle.owl_atom.specs.Places.{CutsAt, CutsNowhere, IsBest, first, longer};
ghost use Rattle.owl_atom.specs.Prefixes.{prefix_in, AreAscending, IsTable, is_declared, is_fixed, fixed, fixed_prefixes, iri_of, expansion, is_plain_start, is_plain_character, IsPlainLocal, Cuts, Shortens};

use crate::blocks::Blocks;
use crate::by_iri::ByIri;
use crate::fault::{DeclareFault, ExpandFault};
use owl_characters::{NoMemory, Text};
use rdf_terms::{Iri, OWL, RDF, RDFS, XSD};
use std::alloc::{AllocError, Global};
use std::marker::Model;

/// A prefix: its name, the IRI that it stands for, and its marks.
#[derive(Debug, Drop)]
pub struct Prefix {
    pub name: Text,
    pub iri: Iri,
    pub fixed: bool,
    pub declared: bool,
}

/// A table of prefixes (Structural Specification, section 2.4), which contracts
/// see as the list of its prefixes, in the order of the bytes of their names.
#[derive(Debug, Drop)]
pub struct Prefixes {
    held: Blocks,
    by_iri: Option<ByIri>,
}

impl Model for Prefixes {
    ghost use Rattle.std.specs.Prelude.{List};
    ghost use Rattle.owl_atom.specs.declared.prefixes.Prefix.{Prefix};
    ghost use Rattle.std.specs.Prelude.{IfSome};
    ghost use Rattle.owl_atom.specs.Prefixes.{IsTable};
    ghost use Rattle.owl_atom.specs.ByIri.{IsIndex};

    ghost Value = { List Prefix };

    ghost view = { λ p. p.held };

    ghost invariant = { λ p. IsTable p.held × IfSome p.by_iri (λ index. IsIndex p.held index) };
}

impl Prefixes {
    /// No prefixes. Takes no memory.
    pub fn empty(alloc: Global) -> Prefixes
        ensures { result ≡ [] }
    {
        Prefixes {
            held: Blocks::empty(alloc),
            by_iri: None,
        }
    }

    /// The four prefixes that are declared beforehand: `owl`, `rdf`, `rdfs` and
    /// `xsd`.
    pub fn fixed(alloc: Global) -> Result<Prefixes, NoMemory>
        ensures { IfOk result (λ prefixes. prefixes ≡ fixed_prefixes) }
    {
        let mut held = Vec::new(alloc);
        push(&mut held, fixed(alloc, "owl", OWL)?)?;
        push(&mut held, fixed(alloc, "rdf", RDF)?)?;
        push(&mut held, fixed(alloc, "rdfs", RDFS)?)?;
        push(&mut held, fixed(alloc, "xsd", XSD)?)?;
        let held = Blocks::of(held)?;
        Ok(Prefixes { held, by_iri: None })
    }

    /// An equal table.
    pub fn copy(&self, alloc: Global) -> Result<Prefixes, NoMemory>
        ensures { IfOk result (λ prefixes. prefixes ≡ self.now) }
    {
        let held = self.held.copy(alloc)?;
        Ok(Prefixes { held, by_iri: None })
    }

    /// How many prefixes there are.
    pub fn len(&self) -> usize
        ensures len { result ≡ length self.now }
        ensures table { IsTable self.now }
    {
        self.held.len()
    }

    /// The name and the IRI at this place, in the order of the bytes of the
    /// names.
    pub fn at(&self, place: usize) -> (&str, &Iri)
        requires { place < length self.now }
        ensures { (prefix : Prefix) × (slice_get self.now place ≡ Some prefix) × (chars result.0.now ≡ prefix.name)
            × (result.0.now ≡ encode_utf8_all prefix.name) × (result.1.now ≡ prefix.iri) }
    {
        let prefix = self.held.at(place);
        (prefix.name.as_str(), &prefix.iri)
    }

    /// Whether the name was declared. Takes no memory.
    pub fn is_declared(&self, name: &str) -> bool
        ensures { result ≡ is_declared self.now (chars name.now) }
    {
        match self.held.find(name) {
            Some(prefix) => prefix.declared,
            None => false,
        }
    }

    /// Declares a prefix. `PrefixTwice` exactly where the name was declared
    /// before, and `PrefixFixed` exactly where it stands for one IRI alone, and
    /// this is another. Where the call refuses, nothing changes.
    pub fn declare(&mut self, name: &str, iri: Iri) -> Result<(), DeclareFault>
        requires { IsPrefixName (chars name.now) }
        ensures twice { IsErrOf result DeclareFault.PrefixTwice ↔ (is_declared self.old (chars name.now) ≡ true) }
        ensures fixed { IsErrOf result DeclareFault.PrefixFixed ↔ ((is_declared self.old (chars name.now) ≡ false)
            × (is_fixed self.old (chars name.now) ≡ true) × (iri_of fixed_prefixes (chars name.now) ≢ Some iri)) }
        ensures here { OnOk result (prefix_in self.new (chars name.now)
            ≡ Some (record { name = chars name.now; iri = iri; fixed = is_fixed self.old (chars name.now); declared = true })) }
        ensures others { (other : List ℕ) → other ≢ chars name.now → prefix_in self.new other ≡ prefix_in self.old other }
        ensures err { OnErr result (self.new ≡ self.old) }
    {
        if self.is_declared(name) {
            return Err(DeclareFault::PrefixTwice);
        }
        let fixed = self.is_fixed(name);
        if fixed && !is_fixed_to(name, &iri) {
            return Err(DeclareFault::PrefixFixed);
        }
        Ok(self.put(name, iri, fixed, true)?)
    }

    /// Gives the name this IRI, also where it stands for one IRI alone. The
    /// marks stay as they were.
    pub fn set(&mut self, name: &str, iri: Iri) -> Result<(), NoMemory>
        requires { IsPrefixName (chars name.now) }
        ensures here { OnOk result (prefix_in self.new (chars name.now)
            ≡ Some (record { name = chars name.now; iri = iri; fixed = is_fixed self.old (chars name.now); declared = is_declared self.old (chars name.now) })) }
        ensures others { (other : List ℕ) → other ≢ chars name.now → prefix_in self.new other ≡ prefix_in self.old other }
        ensures err { OnErr result (self.new ≡ self.old) }
    {
        let fixed = self.is_fixed(name);
        let declared = self.is_declared(name);
        self.put(name, iri, fixed, declared)
    }

    /// Whether the name stands for one IRI alone.
    fn is_fixed(&self, name: &str) -> bool
        ensures { result ≡ is_fixed self.now (chars name.now) }
    {
        match self.held.find(name) {
            Some(prefix) => prefix.fixed,
            None => false,
        }
    }

    /// Gives the name this IRI and these marks.
    fn put(&mut self, name: &str, iri: Iri, fixed: bool, declared: bool) -> Result<(), NoMemory>
        requires { IsPrefixName (chars name.now) }
        ensures here { OnOk result (prefix_in self.new (chars name.now)
            ≡ Some (record { name = chars name.now; iri = iri; fixed = fixed; declared = declared })) }
        ensures others { (other : List ℕ) → other ≢ chars name.now → prefix_in self.new other ≡ prefix_in self.old other }
        ensures err { OnErr result (self.new ≡ self.old) }
    {
        let name = Text::of(self.held.allocator(), name)?;
        self.by_iri = None;
        self.held.put(Prefix {
            name,
            iri,
            fixed,
            declared,
        })
    }

    /// The IRI that an abbreviated one stands for. `UnknownPrefix` exactly
    /// where the table lacks the prefix.
    pub fn expand(&self, alloc: Global, name: &str, local: &str) -> Result<Iri, ExpandFault>
        requires { AllAre is_iri_character (chars local.now) }
        ensures ok { IfOk result (λ iri. expansion self.now (chars name.now) (chars local.now) ≡ Some iri) }
        ensures unknown { IsErrOf result ExpandFault.UnknownPrefix ↔ (prefix_in self.now (chars name.now) ≡ None) }
    {
        match self.held.find(name) {
            Some(prefix) => Ok(prefix.iri.followed_by(alloc, local)?),
            None => Err(ExpandFault::UnknownPrefix),
        }
    }

    /// How an IRI is abbreviated: the place of a prefix, and the byte at which
    /// the local part begins. Of the prefixes that leave a plain local part it
    /// is the one with the longest IRI, at a tie the one with the least name.
    /// Takes no memory.
    pub fn shorten(&self, iri: &Iri) -> Option<(usize, usize)>
        ensures best { IfSome result (λ r. Shortens self.now iri.now r.0 r.1) }
        ensures none { IsNone result ↔ ((prefix : Prefix) (local : List ℕ) → Contains self.now prefix → Cuts prefix iri.now local → ⊥) }
        ensures boundary { IfSome result (λ r. IsCharBoundary (encode_utf8_all iri.now) r.1) }
    {
        match &self.by_iri {
            Some(index) => index.best_of(iri),
            None => best_of(&self.held, iri),
        }
    }

    /// Has `shorten` look for IRIs, and not try each prefix, until a prefix is
    /// declared or set.
    pub fn order_by_iri(&mut self) -> Result<(), NoMemory>
        ensures { self.new ≡ self.old }
    {
        let index = ByIri::of(self.held.allocator(), &self.held)?;
        self.by_iri = Some(index);
        Ok(())
    }
}

/// Whether a prefix of this name stands for this IRI beforehand.
fn is_fixed_to(name: &str, iri: &Iri) -> bool
    ensures { IsTrue result ↔ (iri_of fixed_prefixes (chars name.now) ≡ Some iri.now) }
{
    match name {
        "owl" => iri.text() == OWL,
        "rdf" => iri.text() == RDF,
        "rdfs" => iri.text() == RDFS,
        "xsd" => iri.text() == XSD,
        _ => false,
    }
}

pub fn push<T: Drop>(items: &mut Vec<T>, item: T) -> Result<(), AllocError>
    ensures { items.new.items ≡ (if is_ok result then items.old.items ++ item ∷ [] else items.old.items) }
{
    Ok(items.push(item)?)
}

/// A prefix that is declared beforehand.
fn fixed(alloc: Global, name: &str, iri: &str) -> Result<Prefix, NoMemory>
    requires { IsIri (chars iri.now) }
    ensures { IfOk result (λ prefix. prefix ≡ fixed (chars name.now) (chars iri.now)) }
{
    let name = Text::of(alloc, name)?;
    let iri = Iri::known(alloc, iri)?;
    Ok(Prefix {
        name,
        iri,
        fixed: true,
        declared: false,
    })
}

pub fn copy_of(alloc: Global, prefix: &Prefix) -> Result<Prefix, NoMemory>
    ensures { IfOk result (λ copy. copy ≡ prefix.now) }
{
    let name = Text::of(alloc, prefix.name.as_str())?;
    let iri = prefix.iri.copy(alloc)?;
    Ok(Prefix {
        name,
        iri,
        fixed: prefix.fixed,
        declared: prefix.declared,
    })
}

/// The best of the prefixes that cut the IRI, with the byte where it cuts.
fn best_of(held: &Blocks, iri: &Iri) -> Option<(usize, usize)>
    requires { AreAscending held.now }
    ensures { IsBest held.now (first (length held.now)) iri.now result }
{
    let mut best = None;
    for place in 0..held.len() {
        best = longer(best, cut_at(held, place, iri));
    }
    best
}

/// The longer cut of two, and the earlier of two that are as long.
pub fn longer(best: Option<(usize, usize)>, cut: Option<(usize, usize)>) -> Option<(usize, usize)>
    ensures { result ≡ longer best cut }
{
    match (best, cut) {
        (_, None) => best,
        (Some((_, begin)), Some((_, other))) if other <= begin => best,
        (_, Some(_)) => cut,
    }
}

/// The place, and where the local part of the IRI begins, where the prefix at
/// the place cuts it.
fn cut_at(held: &Blocks, place: usize, iri: &Iri) -> Option<(usize, usize)>
    requires { place < length held.now }
    ensures { IsBest held.now (λ k prefix. k ≡ place) iri.now result }
{
    cut(held.at(place), iri).map(|begin| (place, begin))
}

/// Where the local part of the IRI begins, where the prefix cuts it.
fn cut(prefix: &Prefix, iri: &Iri) -> Option<usize>
    ensures cuts { IfSome result (λ begin. CutsAt prefix.now iri.now begin) }
    ensures none { IsNone result → CutsNowhere prefix.now iri.now }
{
    let front = prefix.iri.text();
    match iri.text().strip_prefix(front) {
        Some(local) if is_plain_local(local) => Some(front.len()),
        _ => None,
    }
}

/// Whether a local part is made of letters, digits, `_` and `-` alone, and
/// begins with a letter or `_`.
fn is_plain_local(text: &str) -> bool
    ensures { IsTrue result ↔ IsPlainLocal (chars text.now) }
{
    is_plain_behind(text, are_plain(text))
}

/// The same, where it is known whether the characters are such.
pub fn is_plain_behind(text: &str, are_plain: bool) -> bool
    requires { IsTrue are_plain ↔ AllAre is_plain_character (chars text.now) }
    ensures { IsTrue result ↔ IsPlainLocal (chars text.now) }
{
    begins_plain(text) && are_plain
}

fn begins_plain(text: &str) -> bool
    ensures { result ≡ begins_with is_plain_start (chars text.now) }
{
    match text.chars().next() {
        Some(c) => is_plain_start(c),
        None => false,
    }
}

fn are_plain(text: &str) -> bool
    ensures { IsTrue result ↔ AllAre is_plain_character (chars text.now) }
{
    text.chars().all(is_plain_character)
}

fn is_plain_start(c: char) -> bool
    ensures { result ≡ is_plain_start c }
{
    c.is_ascii_alphabetic() || c == '_'
}

pub fn is_plain_character(c: char) -> bool
    ensures { result ≡ is_plain_character c }
{
    c.is_ascii_alphanumeric() || c == '_' || c == '-'
}
