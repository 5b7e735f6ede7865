//! Numbers of trees as they come, each once.

ghost use Rattle.std.specs.Prelude.{◌≡◌, ◌↔◌, ◌<◌, ◌^◌, ◌++◌, ◌∷◌, [], ℕ, Contains, IsTrue, OnOk, OnErr, false, length, slice_index_or};
ghost use Rattle.owl_list.specs.Ascending.{AreApart};

use owl_arena::ExprId;
use owl_characters::NoMemory;
use std::alloc::{AllocError, Global};
use std::marker::Model;

/// Numbers in the order in which they came, each once, which contracts see as
/// their list. Each has a mark at its place.
#[derive(Drop)]
pub struct Collected {
    ids: Vec<ExprId>,
    marks: Vec<bool>,
}

impl Model for Collected {
    ghost use Rattle.std.specs.Prelude.{List, ℕ};

    ghost Value = { List ℕ };

    ghost use Rattle.owl_doc.specs.Collections.{AreCollected};

    ghost view = { λ c. c.ids.items };

    ghost invariant = { AreCollected };
}

impl Collected {
    /// No numbers. Takes no memory.
    pub fn new(alloc: Global) -> Collected
        ensures { result ≡ [] }
    {
        Collected {
            ids: Vec::new(alloc),
            marks: Vec::new(alloc),
        }
    }

    /// Whether the number is among them.
    pub fn has(&self, id: ExprId) -> bool
        ensures has { IsTrue result ↔ Contains self.now id }
        ensures once { AreApart self.now }
    {
        is_marked(&self.marks, id.place())
    }

    /// Adds a number that is not among them. Where the call refuses, nothing
    /// changes.
    pub fn push(&mut self, id: ExprId) -> Result<(), NoMemory>
        requires { Contains self.old id → ⊥ }
        ensures ok { OnOk result (self.new ≡ self.old ++ id ∷ []) }
        ensures err { OnErr result (self.new ≡ self.old) }
    {
        self.ids.reserve(1)?;
        make_room(&mut self.marks, id.place())?;
        self.marks[id.place()] = true;
        self.ids.push(id).unwrap();
        Ok(())
    }

    /// The list of them. Takes no memory.
    pub fn into_list(self) -> Vec<ExprId>
        ensures ids { result.items ≡ self }
        ensures once { AreApart self }
    {
        self.ids
    }
}

/// Whether there is a mark at this place.
fn is_marked(marks: &[bool], place: usize) -> bool
    ensures { result ≡ slice_index_or marks.now place false }
{
    place < marks.len() && marks[place]
}

/// Makes the marks go as far as this place, which changes none.
fn make_room(marks: &mut Vec<bool>, place: usize) -> Result<(), AllocError>
    requires { place < 2 ^ 32 }
    ensures room { OnOk result (place < length marks.new.items) }
    ensures same { (k : ℕ) →
        slice_index_or marks.new.items k false ≡ slice_index_or marks.old.items k false }
{
    if marks.len() <= place {
        marks.resize(place + 1, false)?;
    }
    Ok(())
}
