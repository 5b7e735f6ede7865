//! What stands at a part of a row.

ghost use Rattle.std.specs.Prelude.{◌≡◌, ◌<◌, [], IfSome, IsNone, length};
ghost use Rattle.std.specs.List.{AllByRecursion};
ghost use Rattle.rdf_mapping.specs.Arenas.{kids_at};
ghost use Rattle.rdf_mapping.specs.Drawing.{placed};
ghost use Rattle.rdf_forward.specs.Walks.{IsDrawnBelow, IsNext, Takes, TakesNone};

use owl_arena::{Arena, ExprId};
use rdf_mapping::singles;
use rdf_meaning::{Part, Place, Want, Word};

/// What stands at a part of a row.
#[derive(Clone, Copy)]
pub enum Drawn<'a> {
    /// A tree.
    Kid(ExprId),
    /// A list of trees, of which so many are written at least.
    Trees(usize, &'a [ExprId]),
    /// A list of the object properties and the data properties of a key.
    Keys(&'a [ExprId], &'a [ExprId]),
    /// A class that the mapping names.
    Class(Word),
    /// The literal "true".
    True,
}

/// What stands at the first of some parts, and the parts and the kids behind it.
#[derive(Clone, Copy)]
pub struct Next<'a> {
    pub place: Place,
    pub drawn: Drawn<'a>,
    pub parts: &'a [Part],
    pub kids: &'a [ExprId],
}

/// What stands at the first of the parts. `None` where there is no part, or the kids
/// are too few.
pub fn next_part<'a>(
    arena: &'a Arena,
    parts: &'a [Part],
    kids: &'a [ExprId],
    above: ExprId,
) -> Option<Next<'a>>
    requires held { above < length arena.now.trees }
    requires below { AllByRecursion (λ kid. kid < above) kids.now }
    ensures some { IfSome result (λ next. IsNext arena.now.trees above parts.now kids.now next) }
    ensures none { IsNone result → placed parts.now (kids_at arena.now.trees kids.now) ≡ [] }
{
    let [part, behind @ ..] = parts else {
        return None;
    };
    let Some((drawn, others)) = take_part(arena, *part, singles(behind), kids, above) else {
        return None;
    };
    Some(Next {
        place: part.place,
        drawn,
        parts: behind,
        kids: others,
    })
}

/// What stands at the part, and the kids behind it, of which the parts behind it
/// take so many at least. `None` where the kids are too few.
fn take_part<'a>(
    arena: &'a Arena,
    part: Part,
    left: usize,
    kids: &'a [ExprId],
    above: ExprId,
) -> Option<(Drawn<'a>, &'a [ExprId])>
    requires held { above < length arena.now.trees }
    requires below { AllByRecursion (λ kid. kid < above) kids.now }
    ensures some { IfSome result (λ taken.
        Takes arena.now.trees part left kids.now taken.0 taken.1.now) }
    ensures none { IsNone result → TakesNone arena.now.trees part left kids.now }
    ensures drawn { IfSome result (λ taken. IsDrawnBelow above taken.0) }
    ensures others { IfSome result (λ taken. AllByRecursion (λ kid. kid < above) taken.1.now) }
{
    match part.want {
        Want::One(_) | Want::Declared(_) => match kids {
            [kid, others @ ..] => Some((Drawn::Kid(*kid), others)),
            [] => None,
        },
        Want::Many(_, least) => {
            let (members, others) = kids.split_at(kids.len().saturating_sub(left));
            Some((Drawn::Trees(least, members), others))
        }
        Want::Whole(_, _, least) => match kids {
            [kid, others @ ..] => Some((Drawn::Trees(least, arena.kids(*kid)), others)),
            [] => None,
        },
        Want::Keys => match kids {
            [objects, data, others @ ..] => {
                Some((Drawn::Keys(arena.kids(*objects), arena.kids(*data)), others))
            }
            [_] | [] => None,
        },
        Want::Mark => match part.place {
            Place::At(word) => Some((Drawn::Class(word), kids)),
            Place::Subject | Place::Predicate | Place::Object => None,
        },
        Want::True => Some((Drawn::True, kids)),
    }
}
