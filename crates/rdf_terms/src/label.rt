//! Labels of blank nodes.

ghost use Rattle.std.specs.Prelude.{◌≡◌, ◌↔◌, IsTrue, IfOk, IsErrOf, true};
ghost use Rattle.std.specs.Str.{chars, encode_utf8_all, all_scalars};
ghost use Rattle.std.specs.Cmp.Rules.{comparing};
ghost use Rattle.std.proofs.Common.{rules};
ghost use Rattle.owl_characters.specs.Names.{IsLabel, ends_in_dot, is_label_start, begins_with};
ghost use Rattle.owl_characters.specs.Order.{text_eq};
ghost use Rattle.rdf_terms.specs.declared.fault.LabelFault.{LabelFault};

use crate::fault::LabelFault;
use crate::scan::are_inner;
use owl_characters::{NoMemory, Text, is_start};
use std::alloc::Global;
use std::marker::Model;

/// A label of a blank node without its `_:`, which contracts see as the list
/// of its characters (RDF 1.1 Turtle, section 6.5). It names an anonymous
/// individual (Structural Specification, section 5.6.2).
///
/// Labels are equal where they have the same characters, and they are ordered
/// by their bytes.
#[derive(Debug, Drop, Eq, PartialOrd, Ord, Hash)]
pub struct Label {
    text: Text,
}

impl Model for Label {
    ghost use Rattle.std.specs.Prelude.{List, ℕ};
    ghost use Rattle.owl_characters.specs.Names.{IsLabel};

    ghost Value = { List ℕ };

    ghost view = { λ l. l.text };

    ghost invariant = { λ l. IsLabel l.text };

    ghost inverse = { λ cs. record { text = cs } };
}

impl Label {
    /// The label with these characters. `BadLabel` exactly where they are none.
    pub fn of(alloc: Global, text: &str) -> Result<Label, LabelFault>
        ensures ok { IfOk result (λ label. label ≡ chars text.now) }
        ensures bad { IsErrOf result LabelFault.BadLabel ↔ (IsLabel (chars text.now) → ⊥) }
    {
        if !is_label(text) {
            return Err(LabelFault::BadLabel);
        }
        let text = Text::of(alloc, text)?;
        Ok(Label { text })
    }

    /// The same characters. Takes no memory.
    pub fn text(&self) -> &str
        ensures chars { chars result.now ≡ self.now }
        ensures bytes { result.now ≡ encode_utf8_all self.now }
        ensures scalars { all_scalars self.now ≡ true }
        ensures label { IsLabel self.now }
    {
        self.text.as_str()
    }

    /// An equal label.
    pub fn copy(&self, alloc: Global) -> Result<Label, NoMemory>
        ensures { IfOk result (λ label. label ≡ self.now) }
    {
        let text = Text::of(alloc, self.text.as_str())?;
        Ok(Label { text })
    }
}

impl PartialEq for Label {
    ghost eq = { text_eq };

    ghost laws = { Prim.search (comparing, rules) };

    fn eq(&self, other: &Label) -> bool
        ensures value { result ≡ text_eq self.now other.now }
        ensures same { IsTrue result ↔ (self.now ≡ other.now) }
    {
        self.text == other.text
    }
}

/// Whether the text is a first character of a label, and then PN_CHARS and
/// dots, of which none is the last.
fn is_label(text: &str) -> bool
    ensures { IsTrue result ↔ IsLabel (chars text.now) }
{
    begins_as_label(text) && are_inner(text) && !ends_in_dot(text)
}

fn begins_as_label(text: &str) -> bool
    ensures { result ≡ begins_with is_label_start (chars text.now) }
{
    match text.chars().next() {
        Some(c) => is_label_start(c),
        None => false,
    }
}

fn is_label_start(c: char) -> bool
    ensures { result ≡ is_label_start c }
{
    is_start(c) || c.is_ascii_digit()
}

fn ends_in_dot(text: &str) -> bool
    ensures { result ≡ ends_in_dot (chars text.now) }
{
    text.ends_with('.')
}
