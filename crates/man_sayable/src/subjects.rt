//! The subjects of axioms.

ghost use Rattle.std.specs.Prelude.{◌≡◌, ◌<◌, None, Option, Some, if◌then◌else◌, length};
ghost use Rattle.std.specs.Option.{option_map};
ghost use Rattle.owl_arena.specs.Held.{AreHeld, trees_at};
ghost use Rattle.sayable_parts.specs.Reasons.{why_seen};
ghost use Rattle.man_sayable.specs.Subjects.{against, has_tag_at, subject_objection, subject_of};

use owl_arena::{Arena, ExprId};
use owl_doc::Why;
use owl_tree::Tag;

/// What the subject of an axiom has to be (Manchester Syntax, section 2.5).
#[derive(Clone, Copy, Debug, PartialEq, Eq)]
pub enum Subject {
    /// The name of a class.
    ClassName,
    /// The name of an object property.
    PropertyName,
    /// The name of an object property, or a chain below one.
    SubProperty,
    /// Object properties of which one is a name.
    OneName,
    /// Whatever it is, the object property of the fact is a name.
    FactName,
    /// Whatever it is.
    Any,
}

/// What is to be said against the subject of an axiom with this tag and these kids.
pub fn subject_objection<'a>(arena: &Arena, tag: Tag, kids: &[ExprId]) -> Option<Why<'a>>
    requires { AreHeld arena.now.trees kids.now }
    ensures { option_map why_seen result
        ≡ subject_objection (subject_of tag) (trees_at arena.now.trees kids.now) }
{
    let inverse = has_tag_at(arena, Tag::ObjectInverseOf, 1, kids);
    match subject_of(tag) {
        Subject::ClassName => {
            let named = has_tag_at(arena, Tag::Class, 1, kids);
            against(!named, &Why::UnnamedSubject)
        }
        Subject::PropertyName => against(inverse, &Why::InverseSubject),
        Subject::SubProperty => {
            let chain = has_tag_at(arena, Tag::ObjectPropertyChain, 1, kids)
                && has_tag_at(arena, Tag::ObjectInverseOf, 2, kids);
            against(inverse || chain, &Why::InverseSubject)
        }
        Subject::OneName => {
            let named = has_tag_at(arena, Tag::ObjectProperty, 1, kids);
            against(!named, &Why::TwoInverses)
        }
        Subject::FactName => against(inverse, &Why::InverseAssertion),
        Subject::Any => None,
    }
}

/// What the subject of an axiom with this tag has to be.
#[tactic(auto, unfolding(crate::specs::Subjects::subject_of), using(crate::proofs::SubjectRows::any_subject))]
fn subject_of(tag: Tag) -> Subject
    ensures { result ≡ subject_of tag }
{
    match tag {
        Tag::SubClassOf | Tag::HasKey => Subject::ClassName,
        Tag::SubObjectPropertyOf => Subject::SubProperty,
        Tag::InverseObjectProperties => Subject::OneName,
        Tag::ObjectPropertyDomain
        | Tag::ObjectPropertyRange
        | Tag::FunctionalObjectProperty
        | Tag::InverseFunctionalObjectProperty
        | Tag::ReflexiveObjectProperty
        | Tag::IrreflexiveObjectProperty
        | Tag::SymmetricObjectProperty
        | Tag::AsymmetricObjectProperty
        | Tag::TransitiveObjectProperty => Subject::PropertyName,
        Tag::ObjectPropertyAssertion | Tag::NegativeObjectPropertyAssertion => Subject::FactName,
        _ => Subject::Any,
    }
}

/// Whether the kid at this place has the tag.
fn has_tag_at(arena: &Arena, tag: Tag, place: usize, kids: &[ExprId]) -> bool
    requires { AreHeld arena.now.trees kids.now }
    ensures { result ≡ has_tag_at tag place (trees_at arena.now.trees kids.now) }
{
    match kids.get(place) {
        Some(id) => tag == arena.tag(*id),
        None => false,
    }
}

/// The objection, where it holds.
pub fn against<'a>(holds: bool, why: &Why<'a>) -> Option<Why<'a>>
    ensures { option_map why_seen result ≡ against holds (why_seen why.now) }
{
    if holds { Some(*why) } else { None }
}
