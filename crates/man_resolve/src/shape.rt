//! What forms stand for.

ghost use Rattle.std.specs.Prelude.{◌≡◌, if◌then◌else◌};
ghost use Rattle.man_resolve.specs.Places.{by_kind, class_shape, other_shape, over, range_shape, shape_of};

use crate::place::Place;
use man_raw::Form;
use owl_tree::Tag;

/// The places of the parts of a node.
#[derive(Clone, Copy)]
pub struct Places {
    pub first: Place,
    pub second: Place,
    /// Of all behind the second.
    pub others: Place,
}

impl Places {
    /// All parts stand at the one place.
    pub fn all(place: Place) -> Places
        ensures { result ≡ record { first = place; second = place; others = place } }
    {
        Places {
            first: place,
            second: place,
            others: place,
        }
    }
}

/// What a property tells of the node that it stands in: the tag of a node of an object
/// property, or of a data property, and the place of the parts behind it.
#[derive(Clone, Copy)]
pub struct ByKind {
    pub object_tag: Tag,
    pub objects: Place,
    pub data_tag: Tag,
    pub datas: Place,
}

impl ByKind {
    pub fn new(object_tag: Tag, objects: Place, data_tag: Tag, datas: Place) -> ByKind
        ensures { result ≡ by_kind object_tag objects data_tag datas }
    {
        ByKind {
            object_tag,
            objects,
            data_tag,
            datas,
        }
    }

    /// What a data property tells, or an object property.
    pub fn of(self, is_data: bool) -> (Tag, Place)
        ensures tag { result.0 ≡ (if is_data then self.data_tag else self.object_tag) }
        ensures place { result.1 ≡ (if is_data then self.datas else self.objects) }
    {
        if is_data {
            (self.data_tag, self.datas)
        } else {
            (self.object_tag, self.objects)
        }
    }
}

/// What a form stands for at a place.
#[derive(Clone, Copy)]
pub enum Shape {
    /// What its part stands for.
    Inside,
    /// A node over its parts.
    Over(Tag, Places),
    /// A node over a property and other parts.
    Restriction(ByKind),
    /// A node over a number, a property and other parts, where the property is written
    /// first.
    Cardinality(ByKind),
    /// Nothing.
    Wrong,
}

/// A node over parts that all stand at the one place.
fn over(tag: Tag, place: Place) -> Shape
    ensures { result ≡ over tag place }
{
    Shape::Over(tag, Places::all(place))
}

/// What the form stands for at the place (Manchester Syntax, sections 2.1 to 2.5).
#[tactic(auto, unfolding(crate::specs::Places::shape_of))]
pub fn shape_of(place: Place, form: Form) -> Shape
    ensures { result ≡ shape_of place form }
{
    match place {
        Place::Class => class_shape(form),
        Place::Range => range_shape(form),
        _ => other_shape(place, form),
    }
}

/// Of a class expression (section 2.4).
fn class_shape(form: Form) -> Shape
    ensures { result ≡ class_shape form }
{
    match form {
        Form::Or => over(Tag::ObjectUnionOf, Place::Class),
        Form::And | Form::That => over(Tag::ObjectIntersectionOf, Place::Class),
        Form::Not => over(Tag::ObjectComplementOf, Place::Class),
        Form::Individuals => over(Tag::ObjectOneOf, Place::Individual),
        Form::Bracket => Shape::Inside,
        Form::SomeOf => restriction(Tag::ObjectSomeValuesFrom, Tag::DataSomeValuesFrom),
        Form::OnlyOf => restriction(Tag::ObjectAllValuesFrom, Tag::DataAllValuesFrom),
        Form::HasValue => Shape::Restriction(ByKind::new(
            Tag::ObjectHasValue,
            Place::Individual,
            Tag::DataHasValue,
            Place::Literal,
        )),
        Form::HasSelf => over(Tag::ObjectHasSelf, Place::Object),
        Form::Min => cardinality(Tag::ObjectMinCardinality, Tag::DataMinCardinality),
        Form::Max => cardinality(Tag::ObjectMaxCardinality, Tag::DataMaxCardinality),
        Form::Exactly => cardinality(Tag::ObjectExactCardinality, Tag::DataExactCardinality),
        _ => Shape::Wrong,
    }
}

/// A node over a property and a class expression or a data range.
fn restriction(object_tag: Tag, data_tag: Tag) -> Shape
    ensures { result ≡ Shape.Restriction (by_kind object_tag Place.Class data_tag Place.Range) }
{
    Shape::Restriction(ByKind::new(object_tag, Place::Class, data_tag, Place::Range))
}

fn cardinality(object_tag: Tag, data_tag: Tag) -> Shape
    ensures { result ≡ Shape.Cardinality (by_kind object_tag Place.Class data_tag Place.Range) }
{
    Shape::Cardinality(ByKind::new(object_tag, Place::Class, data_tag, Place::Range))
}

/// Of a data range (section 2.3).
fn range_shape(form: Form) -> Shape
    ensures { result ≡ range_shape form }
{
    match form {
        Form::Or => over(Tag::DataUnionOf, Place::Range),
        Form::And | Form::That => over(Tag::DataIntersectionOf, Place::Range),
        Form::Not => over(Tag::DataComplementOf, Place::Range),
        Form::Literals => over(Tag::DataOneOf, Place::Literal),
        Form::Restricted => Shape::Over(
            Tag::DatatypeRestriction,
            Places {
                first: Place::Datatype,
                second: Place::FacetPair,
                others: Place::FacetPair,
            },
        ),
        Form::Bracket => Shape::Inside,
        _ => Shape::Wrong,
    }
}

/// At another place (sections 2.2 to 2.5).
fn other_shape(place: Place, form: Form) -> Shape
    ensures { result ≡ other_shape place form }
{
    match (place, form) {
        (Place::Object | Place::Property, Form::Inverse) => {
            over(Tag::ObjectInverseOf, Place::ObjectName)
        }
        (Place::Chain, Form::List) => over(Tag::ObjectPropertyChain, Place::Object),
        (Place::FacetPair, Form::FacetPair) => Shape::Over(
            Tag::FacetPair,
            Places {
                first: Place::Facet,
                second: Place::Literal,
                others: Place::Literal,
            },
        ),
        (Place::Notes, Form::Notes) => over(Tag::Notes, Place::Note),
        (Place::Note, Form::Note) => Shape::Over(
            Tag::Annotation,
            Places {
                first: Place::Notes,
                second: Place::AnnotationProperty,
                others: Place::Value,
            },
        ),
        _ => Shape::Wrong,
    }
}
