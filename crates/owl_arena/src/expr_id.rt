//! Numbers of trees.

ghost use Rattle.std.specs.Prelude.{◌≡◌, ◌<◌, ◌^◌};

use std::marker::Model;

/// The number of a tree in an arena, which contracts see as its place there.
///
/// It means nothing to another arena.
#[derive(Clone, Copy, Debug, PartialEq, Eq, PartialOrd, Ord, Hash)]
pub struct ExprId {
    place: u32,
}

impl Model for ExprId {
    ghost use Rattle.std.specs.Prelude.{ℕ};

    ghost Value = { ℕ };

    ghost view = { λ id. id.place };

    ghost inverse = { λ place. record { place = place } };
}

impl ExprId {
    /// The number of the tree at this place of an arena.
    pub(crate) fn at(place: usize) -> ExprId
        requires { place < 2 ^ 32 }
        ensures { result ≡ place }
    {
        ExprId {
            place: place as u32,
        }
    }

    /// The place of the tree, which is below the number of trees of the arena
    /// that holds it.
    pub fn place(self) -> usize
        ensures { result ≡ self }
    {
        self.place as usize
    }
}
