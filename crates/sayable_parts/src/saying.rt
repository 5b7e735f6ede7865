//! Syntaxes, by what is to be said against parts of documents.

ghost use Rattle.std.specs.Prelude.{◌≡◌, ◌<◌, Option, length};
ghost use Rattle.std.specs.Option.{option_map};
ghost use Rattle.owl_arena.specs.Held.{AreHeld, tree_at, trees_at};
ghost use Rattle.owl_doc.specs.Parts.{Part, of_axiom, of_header};
ghost use Rattle.sayable_parts.specs.Reasons.{Objection, why_seen};

use owl_arena::{Arena, ExprId};
use owl_doc::Why;

/// A syntax, by what is to be said first against each part of a document.
pub trait Saying {
    /// What is to be said first against the part; nothing where the syntax can say
    /// it.
    ghost objection: { Self → Part → Option Objection };

    /// What is to be said first against a header with these annotations.
    fn header_objection<'a>(&self, arena: &'a Arena, notes: &[ExprId]) -> Option<Why<'a>>
        requires { AreHeld arena.now.trees notes.now }
        ensures { option_map why_seen result
            ≡ objection self.now (of_header (trees_at arena.now.trees notes.now)) };

    /// What is to be said first against the axiom.
    fn axiom_objection<'a>(&self, arena: &'a Arena, id: ExprId) -> Option<Why<'a>>
        requires { id < length arena.now.trees }
        ensures { option_map why_seen result
            ≡ objection self.now (of_axiom (tree_at arena.now.trees id)) };
}
