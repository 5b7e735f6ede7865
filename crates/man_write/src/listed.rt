//! The kids of a node as they are written.

ghost use Rattle.std.specs.Prelude.{◌≡◌, ◌<◌, ◌≤◌, ◌^◌, drop, Some, length, slice_get};
ghost use Rattle.std.specs.List.{AllByRecursion};
ghost use Rattle.man_write.specs.Parts.{forms_at, ids_in, kids_at, turned_if};
ghost use Rattle.man_write.specs.Plans.{members_in};

use owl_arena::{Arena, ExprId};
use written_trees::repeated;

/// The kids of a node, and behind them the one that is written twice.
#[derive(Clone, Copy, Debug)]
pub struct Listed<'a> {
    pub kids: &'a [ExprId],
    pub twice: Option<ExprId>,
}

impl<'a> Listed<'a> {
    /// How many there are.
    pub fn len(&self) -> usize
        ensures len { result ≡ length (ids_in self.now) }
        ensures few { result ≤ 2 ^ 62 }
    {
        self.kids.len() + self.twice.is_some() as usize
    }

    /// The one at this place.
    #[tactic(auto, using(crate::proofs::ListedLaws::there_front, crate::proofs::ListedLaws::there_last))]
    pub fn at(&self, place: usize) -> ExprId
        requires { place < length (ids_in self.now) }
        ensures { slice_get (ids_in self.now) place ≡ Some result }
    {
        match self.twice {
            Some(id) if place == self.kids.len() => id,
            _ => self.kids[place],
        }
    }

    /// The one at this place, where the first two may stand the other way round.
    pub fn turned_at(&self, turned: bool, place: usize) -> ExprId
        requires { place < length (ids_in self.now) }
        ensures { slice_get (turned_if turned (ids_in self.now)) place ≡ Some result }
    {
        let swaps = turned && self.len() >= 2;
        match place {
            0 if swaps => self.at(1),
            1 if swaps => self.at(0),
            _ => self.at(place),
        }
    }
}

impl<'a> Listed<'a> {
    /// Those behind so many.
    pub fn behind(&self, count: usize) -> Listed<'a>
        requires { count ≤ length (ids_in self.now) }
        ensures { ids_in result ≡ drop count (ids_in self.now) }
    {
        let kids = self.kids;
        if count <= kids.len() {
            Listed {
                kids: &kids[count..],
                twice: self.twice,
            }
        } else {
            Listed {
                kids: &[],
                twice: None,
            }
        }
    }

    /// These alone.
    pub fn alone(&self) -> Members<'a>
        ensures { members_in result ≡ ids_in self.now }
    {
        Members {
            first: Listed {
                kids: self.kids,
                twice: self.twice,
            },
            others: Listed {
                kids: &[],
                twice: None,
            },
        }
    }
}

/// The kids of the tree as they are written.
#[tactic(auto, using(crate::proofs::PieceLaws::kids_written_at, crate::proofs::ListedLaws::all_with))]
pub fn written(arena: &Arena, id: ExprId) -> Listed<'_>
    requires { id < length arena.now.trees }
    ensures kids { forms_at arena.now.trees (ids_in result) ≡ kids_at arena.now.trees id }
    ensures below { AllByRecursion (λ kid. kid < id) (ids_in result) }
{
    let kids = arena.kids(id);
    Listed {
        kids,
        twice: repeated(arena.tag(id), kids),
    }
}

/// The kids of one node, and behind them those of another.
#[derive(Clone, Copy, Debug)]
pub struct Members<'a> {
    pub first: Listed<'a>,
    pub others: Listed<'a>,
}

impl<'a> Members<'a> {
    /// How many there are.
    pub fn len(&self) -> usize
        ensures { result ≡ length (members_in self.now) }
    {
        self.first.len() + self.others.len()
    }

    /// The one at this place.
    #[tactic(auto, using(crate::proofs::ListedLaws::in_front, crate::proofs::ListedLaws::in_back))]
    pub fn at(&self, place: usize) -> ExprId
        requires { place < length (members_in self.now) }
        ensures { slice_get (members_in self.now) place ≡ Some result }
    {
        let count = self.first.len();
        if place < count {
            self.first.at(place)
        } else {
            self.others.at(place - count)
        }
    }
}
