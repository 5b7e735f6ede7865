//! Bases that references are put behind.

ghost use Rattle.std.specs.Prelude.{◌≡◌, ◌↔◌, ◌++◌, true, IfOk, IfSome, IsErrOf};
ghost use Rattle.std.specs.Str.{chars};
ghost use Rattle.owl_characters.specs.Iri.{AllAre, is_iri_character};
ghost use Rattle.iri_references.specs.Bases.{IsBase, IsCutBehind, IsCutFront};
ghost use Rattle.iri_references.specs.Resolution.{resolved};
ghost use Rattle.rdf_terms.specs.declared.fault.IriFault.{IriFault};

use crate::cuts::{before_end, behind_front, cut, through_last_slash};
use crate::dot_segments::has_dot_segment;
use crate::parts::Parts;
use crate::resolution::resolved_without_scheme;
use crate::scan::{are_iri_characters, has_scheme};
use owl_characters::{NoMemory, Text};
use rdf_terms::{Iri, IriFault};
use std::alloc::Global;
use std::marker::Model;

/// An IRI that references are resolved against, which contracts see as the list of
/// its characters.
///
/// Where it has an authority, and no dot segments before the last slash of its path,
/// it is cut behind that slash: most references are put there as they are.
#[derive(Debug, Drop)]
pub struct Base {
    front: Text,
    rest: Text,
    grows: bool,
}

impl Model for Base {
    ghost use Rattle.std.specs.Prelude.{List, ℕ, ◌++◌};
    ghost use Rattle.iri_references.specs.Bases.{IsBase};

    ghost Value = { List ℕ };

    ghost view = { λ b. b.front ++ b.rest };

    ghost invariant = { λ b. IsBase b.front b.rest b.grows };
}

impl Base {
    /// The IRI as a base.
    pub fn of(alloc: Global, iri: &Iri) -> Result<Base, NoMemory>
        ensures { IfOk result (λ base. base ≡ iri.now) }
    {
        let text = iri.text();
        match cut_front(text) {
            Some((front, rest)) => {
                let front = Text::of(alloc, front)?;
                let rest = Text::of(alloc, rest)?;
                Ok(Base {
                    front,
                    rest,
                    grows: true,
                })
            }
            None => {
                let rest = Text::of(alloc, text)?;
                Ok(Base {
                    front: Text::new(alloc),
                    rest,
                    grows: false,
                })
            }
        }
    }

    /// The IRI that a reference stands for, against this base (RFC 3986, section 5.2).
    ///
    /// A reference with a scheme is taken as it is written: its dot segments stay.
    /// `BadIri` exactly where the reference has a character that no IRI has.
    pub fn resolve(&self, alloc: Global, reference: &str) -> Result<Iri, IriFault>
        ensures ok { IfOk result (λ iri. iri ≡ resolved self.now (chars reference.now)) }
        ensures bad { IsErrOf result IriFault.BadIri
            ↔ (AllAre is_iri_character (chars reference.now) → ⊥) }
    {
        if !are_iri_characters(reference) {
            return Err(IriFault::BadIri);
        }
        Ok(self.resolved(alloc, reference)?)
    }

    /// What a reference stands for, against this base, as a base. `BadIri` exactly
    /// where the reference has a character that no IRI has.
    ///
    /// Where the reference is put behind the front, it alone is looked at, and not the
    /// base.
    pub fn moved(self, alloc: Global, reference: &str) -> Result<Base, IriFault>
        ensures ok { IfOk result (λ base. base ≡ resolved self (chars reference.now)) }
        ensures bad { IsErrOf result IriFault.BadIri
            ↔ (AllAre is_iri_character (chars reference.now) → ⊥) }
    {
        if !are_iri_characters(reference) {
            return Err(IriFault::BadIri);
        }
        if self.grows {
            if let Some((through, rest)) = cut_reference(reference) {
                return Ok(grown(alloc, self.front, through, rest)?);
            }
        }
        let iri = self.resolved(alloc, reference)?;
        Ok(Base::of(alloc, &iri)?)
    }

    /// The IRI that a reference with the characters of IRIs alone stands for.
    fn resolved(&self, alloc: Global, reference: &str) -> Result<Iri, NoMemory>
        requires { AllAre is_iri_character (chars reference.now) }
        ensures { IfOk result (λ iri. iri ≡ resolved self.now (chars reference.now)) }
    {
        if has_scheme(reference) {
            return Iri::known(alloc, reference);
        }
        if self.grows {
            if let Some(_cut) = cut_reference(reference) {
                let text = joined(alloc, self.front.as_str(), reference)?;
                return Iri::known(alloc, text.as_str());
            }
        }
        let base = joined(alloc, self.front.as_str(), self.rest.as_str())?;
        let text = resolved_without_scheme(alloc, base.as_str(), reference)?;
        Iri::known(alloc, text.as_str())
    }
}

/// The IRI that a reference stands for, against an IRI: as `Base::resolve`, for one
/// reference.
pub fn resolve(alloc: Global, base: &Iri, reference: &str) -> Result<Iri, IriFault>
    ensures ok { IfOk result (λ iri. iri ≡ resolved base.now (chars reference.now)) }
    ensures bad { IsErrOf result IriFault.BadIri
        ↔ (AllAre is_iri_character (chars reference.now) → ⊥) }
{
    if !are_iri_characters(reference) {
        return Err(IriFault::BadIri);
    }
    let base = Base::of(alloc, base)?;
    Ok(base.resolved(alloc, reference)?)
}

/// The two texts, one behind the other.
fn joined(alloc: Global, front: &str, rest: &str) -> Result<Text, NoMemory>
    ensures { IfOk result (λ text. text ≡ chars front.now ++ chars rest.now) }
{
    let mut text = Text::with_capacity(alloc, front.len().saturating_add(rest.len()))?;
    text.push_str(front)?;
    text.push_str(rest)?;
    Ok(text)
}

/// The base whose front is this one and a part of a reference, with the rest behind.
fn grown(alloc: Global, front: Text, through: &str, rest: &str) -> Result<Base, NoMemory>
    requires { IsBase (front ++ chars through.now) (chars rest.now) true }
    ensures { IfOk result (λ base. base ≡ front ++ chars through.now ++ chars rest.now) }
{
    let mut front = front;
    front.push_str(through)?;
    let rest = Text::of(alloc, rest)?;
    Ok(Base {
        front,
        rest,
        grows: true,
    })
}

/// A reference that goes behind the front of a base as it is, cut behind the last
/// slash of its path.
fn cut_reference(reference: &str) -> Option<(&str, &str)>
    ensures { IfSome result (λ cut.
        IsCutBehind (chars reference.now) (chars cut.0.now) (chars cut.1.now)) }
{
    if has_scheme(reference) {
        return None;
    }
    let parts = Parts::of(reference);
    if parts.keeps_path() || parts.has_own_path() {
        return None;
    }
    if has_dot_segment(parts.path) {
        return None;
    }
    let through = through_last_slash(parts.path);
    let rest = behind_front(reference, through)?;
    Some((through, rest))
}

/// The front of an IRI with an authority, up to and with the last slash of its path,
/// and what stands behind it, where no segment before that slash is a dot segment.
fn cut_front(text: &str) -> Option<(&str, &str)>
    ensures { IfSome result (λ cut.
        IsCutFront (chars text.now) (chars cut.0.now) (chars cut.1.now)) }
{
    let (_, behind_scheme) = cut(text, ':');
    let hierarchy = behind_front(behind_scheme?, "//")?;
    let (before_fragment, _) = cut(hierarchy, '#');
    let (before_query, _) = cut(before_fragment, '?');
    let through = through_last_slash(before_query);
    let (_, path) = cut(through, '/');
    if has_dot_segment(path?) {
        return None;
    }
    let rest = behind_front(hierarchy, through)?;
    let front = before_end(text, rest)?;
    Some((front, rest))
}
