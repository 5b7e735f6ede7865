//! The table of prefixes that stands in a text.

ghost use Rattle.std.specs.Prelude.{◌≡◌, filter, map, not, IfOk, OnOk};
ghost use Rattle.std.specs.Str.{chars};
ghost use Rattle.man_text.specs.Text.{is_keyword, manchester_prefixes, unmarked};
ghost use Rattle.owl_characters.specs.Names.{IsPrefixName};
ghost use Rattle.owl_writing.specs.Tables.{HaveIris, with_prefix, written_prefixes};

use man_grammar::class_of;
use owl_atom::{Iri, Prefixes};
use owl_characters::{NoMemory, Text};
use owl_tokens::Token;
use owl_writing::written_prefixes;
use std::alloc::Global;

/// The number of the last class of keywords that have a colon.
const LAST_KEYWORD: u8 = 30;

/// The prefixes that are written, without those that have the name of a keyword
/// (section 2.1).
///
/// It shortens IRIs by their index (`Prefixes::order_by_iri`). Refused only where
/// memory runs out.
pub fn manchester_prefixes(alloc: Global, prefixes: &Prefixes) -> Result<Prefixes, NoMemory>
    ensures table { IfOk result (λ table. table ≡ manchester_prefixes prefixes.now) }
    ensures iris { IfOk result (λ _. HaveIris (written_prefixes prefixes.now)) }
{
    let written = written_prefixes(alloc, prefixes)?;
    let mut table = without_keywords(alloc, &written)?;
    // Each name of the document is shortened by this table.
    table.order_by_iri()?;
    Ok(table)
}

/// These prefixes without those that have the name of a keyword.
fn without_keywords(alloc: Global, prefixes: &Prefixes) -> Result<Prefixes, NoMemory>
    ensures table { IfOk result (λ table. table
        ≡ map unmarked (filter (λ p. not (is_keyword p.name)) prefixes.now)) }
    ensures iris { IfOk result (λ _. HaveIris prefixes.now) }
{
    let mut table = Prefixes::empty(alloc);
    for place in 0..prefixes.len() {
        let (name, iri) = prefixes.at(place);
        // What an IRI holds is one.
        iri.text();
        if !is_keyword(alloc, name)? {
            set_iri(&mut table, name, iri.copy(alloc)?)?;
        }
    }
    Ok(table)
}

/// Whether the name is that of a keyword, as which a token with the name and a
/// colon is read.
fn is_keyword(alloc: Global, name: &str) -> Result<bool, NoMemory>
    ensures { IfOk result (λ is. is ≡ is_keyword (chars name.now)) }
{
    let token = Token::Name(Text::of(alloc, name)?, Text::new(alloc));
    Ok(class_of(&token) <= LAST_KEYWORD)
}

/// Gives a name this IRI.
fn set_iri(prefixes: &mut Prefixes, name: &str, iri: Iri) -> Result<(), NoMemory>
    requires { IsPrefixName (chars name.now) }
    ensures { OnOk result (prefixes.new ≡ with_prefix (chars name.now) iri prefixes.old) }
{
    // The names of a table ascend, before and after.
    prefixes.len();
    prefixes.set(name, iri)?;
    prefixes.len();
    Ok(())
}
