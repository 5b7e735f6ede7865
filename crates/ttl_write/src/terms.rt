//! How terms are written.

ghost use Rattle.std.specs.Prelude.{◌≡◌, ◌++◌, flat_map, OnOk, IsErrOf};
ghost use Rattle.std.specs.Str.{chars};
ghost use Rattle.owl_writing.specs.Limits.{IsTooLong};
ghost use Rattle.owl_writing.specs.declared.fault.WriteFault.{WriteFault};
ghost use Rattle.ttl_write.specs.Formed.{IsFormedTerm};
ghost use Rattle.ttl_write.specs.Text.{character_text, literal_text, string_text, term_text};

use owl_atom::{Literal, Prefixes};
use owl_writing::{Draft, WriteFault};
use rdf_graph::Term;

/// What is known of every term.
pub fn known(term: &Term)
    ensures { IsFormedTerm term.now }
{
    match term {
        Term::Iri(iri) => {
            iri.text();
        }
        Term::Blank(label) => {
            label.text();
        }
        Term::Literal(literal) => {
            literal.datatype();
        }
    }
}

/// Adds a term: an IRI, a blank node or a literal.
pub fn add_term(draft: &mut Draft, prefixes: &Prefixes, term: &Term) -> Result<(), WriteFault>
    ensures ok { OnOk result (draft.new ≡ draft.old ++ term_text prefixes.now term.now) }
    ensures too_long { IsErrOf result WriteFault.TooLong
        → IsTooLong (draft.old ++ term_text prefixes.now term.now) }
{
    match term {
        Term::Iri(iri) => draft.add_iri(prefixes, iri),
        Term::Blank(label) => draft.add_label(label),
        Term::Literal(literal) => add_literal(draft, prefixes, literal),
    }
}

/// Adds a literal: a string alone, with its language tag, or with its datatype.
#[tactic(auto, using(owl_characters::proofs::Utf8Laws::size_append))]
fn add_literal(draft: &mut Draft, prefixes: &Prefixes, literal: &Literal) -> Result<(), WriteFault>
    ensures ok { OnOk result (draft.new ≡ draft.old ++ literal_text prefixes.now literal.now) }
    ensures too_long { IsErrOf result WriteFault.TooLong
        → IsTooLong (draft.old ++ literal_text prefixes.now literal.now) }
{
    add_string(draft, literal.lexical())?;
    draft.add_literal_end(prefixes, literal)
}

/// Adds a string with its quotes and escapes.
#[tactic(auto, using(owl_characters::proofs::Utf8Laws::size_append))]
fn add_string(draft: &mut Draft, form: &str) -> Result<(), WriteFault>
    ensures ok { OnOk result (draft.new ≡ draft.old ++ string_text (chars form.now)) }
    ensures too_long { IsErrOf result WriteFault.TooLong
        → IsTooLong (draft.old ++ string_text (chars form.now)) }
{
    draft.add_ascii("\"")?;
    add_escaped(draft, form)?;
    draft.add_ascii("\"")
}

/// Adds the characters of a string, with escapes for those that can't stand between quotes.
fn add_escaped(draft: &mut Draft, form: &str) -> Result<(), WriteFault>
    ensures ok { OnOk result (draft.new ≡ draft.old ++ flat_map character_text (chars form.now)) }
    ensures too_long { IsErrOf result WriteFault.TooLong
        → IsTooLong (draft.old ++ flat_map character_text (chars form.now)) }
{
    for c in form.chars() {
        add_character(draft, c)?;
    }
    Ok(())
}

fn add_character(draft: &mut Draft, c: char) -> Result<(), WriteFault>
    ensures ok { OnOk result (draft.new ≡ draft.old ++ character_text c) }
    ensures too_long { IsErrOf result WriteFault.TooLong
        → IsTooLong (draft.old ++ character_text c) }
{
    match c {
        '"' => draft.add_ascii("\\\""),
        '\\' => draft.add_ascii("\\\\"),
        '\n' => draft.add_ascii("\\n"),
        '\r' => draft.add_ascii("\\r"),
        _ => draft.push(c),
    }
}
