//! Which form a sort asks for, and whether trees have it.

ghost use Rattle.std.specs.Prelude.{◌≡◌, get_or, map};
ghost use Rattle.std.specs.Option.{option_map};
ghost use Rattle.profile_sorts.specs.Productions.{alternative_seen, form_seen};
ghost use Rattle.profile_sorts.specs.Sets.{known_at};
ghost use Rattle.profile_sorts.specs.Sorts.{form_among, form_of, have, kids_fit, leaf_fits, other_form};

use crate::production::{Alternative, Form, Others};
use crate::set::{SortSet, set_at};
use crate::sort::Sort;
use dl_rules::is_remark;
use owl_arena::ExprId;
use owl_tree::{Atom, Tag};

impl Sort {
    /// What the sort asks of trees with this tag.
    pub(crate) fn form_of(self, tag: Tag) -> Form
        ensures { form_seen result ≡ form_of self tag }
    {
        match form_among(self.alternatives(), tag) {
            Some(form) => form,
            None => self.others().form(self, tag),
        }
    }
}

/// The form of the first alternative with the tag.
fn form_among(alternatives: &[Alternative], tag: Tag) -> Option<Form>
    ensures { option_map form_seen result
        ≡ form_among (map alternative_seen alternatives.now) tag }
{
    'alternatives: for alternative in alternatives {
        if alternative.tag() == tag {
            return Some(alternative.form());
        }
    }
    None
}

impl Alternative {
    /// The tag of the trees of which it says what they are like.
    fn tag(&self) -> Tag
        ensures { result ≡ (alternative_seen self.now).0 }
    {
        match self {
            Alternative::Any(tag)
            | Alternative::Refused(tag)
            | Alternative::Atom(tag, _)
            | Alternative::Kids(tag, _, _)
            | Alternative::Single(tag) => *tag,
        }
    }

    /// What it asks of them.
    fn form(&self) -> Form
        ensures { form_seen result ≡ (alternative_seen self.now).1 }
    {
        match self {
            Alternative::Any(_) => Form::Any,
            Alternative::Refused(_) => Form::Refused,
            Alternative::Atom(_, test) => Form::Atom(*test),
            Alternative::Kids(_, front, rest) => Form::Kids(front, *rest),
            Alternative::Single(_) => Form::Single,
        }
    }
}

impl Others {
    /// What is asked of trees with a tag that no alternative of the sort has.
    fn form(self, sort: Sort, tag: Tag) -> Form
        ensures { form_seen result ≡ other_form self sort tag }
    {
        match self {
            Others::Nothing => Form::Refused,
            Others::Anything => Form::Any,
            Others::Throughout(_) if is_remark(tag) => Form::Any,
            Others::Throughout(trees) if trees.admits(tag) => Form::Refused,
            Others::Throughout(_) => Form::Kids(&[], sort),
        }
    }
}

impl Form {
    /// Whether a leaf with this atom has the form.
    pub(crate) fn takes(self, atom: &Atom) -> bool
        ensures { result ≡ leaf_fits (form_seen self) atom.now }
    {
        match self {
            Form::Any | Form::Kids(_, _) => true,
            Form::Refused | Form::Single => false,
            Form::Atom(test) => test.passes(atom),
        }
    }

    /// Whether a node with these kids has the form, where the sets of trees are known.
    pub(crate) fn fits(self, kids: &[ExprId], sets: &[SortSet]) -> bool
        ensures { result ≡ kids_fit (form_seen self) (map (known_at sets.now) kids.now) }
    {
        match self {
            Form::Any => true,
            Form::Refused | Form::Atom(_) => false,
            Form::Kids(front, rest) => have(front, rest, kids, sets),
            Form::Single => kids.len() == 1,
        }
    }
}

/// Whether the kids are of the sorts in front, in order, and of the last one behind
/// them.
fn have(front: &[Sort], rest: Sort, kids: &[ExprId], sets: &[SortSet]) -> bool
    ensures { result ≡ have front.now rest (map (known_at sets.now) kids.now) }
{
    'kids: for (place, kid) in kids.iter().enumerate() {
        if !set_at(sets, *kid).has(sort_at(front, rest, place)) {
            return false;
        }
    }
    true
}

/// Of which sort the kid in this place has to be.
fn sort_at(front: &[Sort], rest: Sort, place: usize) -> Sort
    ensures { result ≡ get_or front.now place rest }
{
    front.get(place).copied().unwrap_or(rest)
}
