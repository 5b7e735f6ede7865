//! How what leaves hold is written.

ghost use Rattle.std.specs.Prelude.{◌≡◌, ◌++◌, flat_map, OnOk, IsErrOf};
ghost use Rattle.std.specs.Io.{StartsWith};
ghost use Rattle.std.specs.Str.{chars};
ghost use Rattle.std.specs.Fmt.{decimal};
ghost use Rattle.owl_tokens.specs.Tokens.{character_spelling};
ghost use Rattle.owl_writing.specs.Limits.{IsTooLong};
ghost use Rattle.owl_writing.specs.declared.fault.WriteFault.{WriteFault};
ghost use Rattle.written_trees.specs.Atoms.{atom_text, literal_text, string_text};

use owl_atom::{Literal, Prefixes};
use owl_tree::Atom;
use owl_writing::{Draft, WriteFault};

/// Adds what a leaf holds. Where this is refused, some of it may stand behind the text that was
/// there.
pub fn add_atom(draft: &mut Draft, prefixes: &Prefixes, atom: &Atom) -> Result<(), WriteFault>
    ensures ok { OnOk result (draft.new ≡ draft.old ++ atom_text prefixes.now atom.now) }
    ensures too_long { IsErrOf result WriteFault.TooLong → IsTooLong (draft.old ++ atom_text prefixes.now atom.now) }
    ensures kept { StartsWith draft.new draft.old }
{
    match atom {
        Atom::Iri(iri) => draft.add_iri(prefixes, iri),
        Atom::Label(label) => draft.add_label(label),
        Atom::Literal(literal) => add_literal(draft, prefixes, literal),
        Atom::Number(number) => add_number(draft, *number),
    }
}

/// Adds a literal: a string alone, with its language tag, or with its datatype.
#[tactic(auto, using(owl_characters::proofs::Utf8Laws::size_append))]
fn add_literal(draft: &mut Draft, prefixes: &Prefixes, literal: &Literal) -> Result<(), WriteFault>
    ensures ok { OnOk result (draft.new ≡ draft.old ++ literal_text prefixes.now literal.now) }
    ensures too_long { IsErrOf result WriteFault.TooLong → IsTooLong (draft.old ++ literal_text prefixes.now literal.now) }
    ensures kept { StartsWith draft.new draft.old }
{
    add_string(draft, literal.lexical())?;
    draft.add_literal_end(prefixes, literal)
}

/// Adds a string with its quotes and escapes.
#[tactic(auto, using(owl_characters::proofs::Utf8Laws::size_append))]
fn add_string(draft: &mut Draft, form: &str) -> Result<(), WriteFault>
    ensures ok { OnOk result (draft.new ≡ draft.old ++ string_text (chars form.now)) }
    ensures too_long { IsErrOf result WriteFault.TooLong → IsTooLong (draft.old ++ string_text (chars form.now)) }
    ensures kept { StartsWith draft.new draft.old }
{
    draft.add_ascii("\"")?;
    add_escaped(draft, form)?;
    draft.add_ascii("\"")
}

/// Adds the characters of a string, with a backslash before a quote or a backslash.
#[tactic(auto, using(owl_characters::proofs::Utf8Laws::size_append))]
fn add_escaped(draft: &mut Draft, form: &str) -> Result<(), WriteFault>
    ensures ok { OnOk result (draft.new ≡ draft.old ++ flat_map character_spelling (chars form.now)) }
    ensures too_long { IsErrOf result WriteFault.TooLong → IsTooLong (draft.old ++ flat_map character_spelling (chars form.now)) }
    ensures kept { StartsWith draft.new draft.old }
{
    for c in form.chars() {
        add_character(draft, c)?;
    }
    Ok(())
}

#[tactic(auto, using(owl_characters::proofs::Utf8Laws::size_append))]
fn add_character(draft: &mut Draft, c: char) -> Result<(), WriteFault>
    ensures ok { OnOk result (draft.new ≡ draft.old ++ character_spelling c) }
    ensures too_long { IsErrOf result WriteFault.TooLong → IsTooLong (draft.old ++ character_spelling c) }
    ensures kept { StartsWith draft.new draft.old }
{
    if c == '"' || c == '\\' {
        draft.push('\\')?;
    }
    draft.push(c)
}

fn add_number(draft: &mut Draft, number: u64) -> Result<(), WriteFault>
    ensures ok { OnOk result (draft.new ≡ draft.old ++ decimal number) }
    ensures too_long { IsErrOf result WriteFault.TooLong → IsTooLong (draft.old ++ decimal number) }
    ensures kept { StartsWith draft.new draft.old }
{
    let digits = format!(in draft.allocator(); "{number}")?;
    draft.add_ascii(digits.as_str())
}
