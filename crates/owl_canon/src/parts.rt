//! How numbers, texts and what leaves hold are written.

#![tactic(auto, using(crate::proofs::Putting::takes_then, crate::proofs::Putting::stops_more, crate::proofs::Putting::stops_then))]

ghost use Rattle.std.specs.Prelude.{◌≡◌, ◌<◌, ◌^◌, ◌++◌, ◌∷◌, [], length, IfErr, IfSome, OnOk};
ghost use Rattle.std.specs.Option.{option_map};
ghost use Rattle.std.specs.Str.{chars};
ghost use Rattle.owl_tree.specs.declared.atom.Atom.{Atom};
ghost use Rattle.owl_canon.specs.Bytes.{atom_bytes, number_bytes, optional_bytes, text_bytes};
ghost use Rattle.owl_canon.specs.Limits.{HasTexts, IsText};
ghost use Rattle.owl_canon.specs.Sinks.{Stops, Takes};

use crate::fault::WriteFault;
use crate::sink::Sink;
use owl_atom::{Iri, Literal};
use owl_tree::Atom;

/// Writes a number: 8 bytes, the highest first.
#[tactic(auto, unfolding(crate::specs::Bytes::number_bytes))]
pub fn put_number(sink: &mut Sink, number: u64) -> Result<(), WriteFault>
    ensures taken { OnOk result (Takes sink.old (number_bytes number) sink.new) }
    ensures stopped { IfErr result (Stops sink.old (number_bytes number)) }
{
    sink.put(&number.to_be_bytes())
}

/// Writes how many bytes there are, and these.
fn put_bytes(sink: &mut Sink, bytes: &[u8]) -> Result<(), WriteFault>
    ensures taken { OnOk result (Takes sink.old (number_bytes (length bytes.now) ++ bytes.now) sink.new) }
    ensures stopped { IfErr result (Stops sink.old (number_bytes (length bytes.now) ++ bytes.now)) }
    ensures few { length bytes.now < 2 ^ 64 }
{
    put_number(sink, bytes.len() as u64)?;
    sink.put(bytes)
}

/// Writes a text: the number of its bytes, and these.
pub fn put_text(sink: &mut Sink, text: &str) -> Result<(), WriteFault>
    ensures taken { OnOk result (Takes sink.old (text_bytes (chars text.now)) sink.new) }
    ensures stopped { IfErr result (Stops sink.old (text_bytes (chars text.now))) }
    ensures text { IsText (chars text.now) }
{
    put_bytes(sink, text.as_bytes())
}

/// Writes the byte 1 and the text, where there is one, and else the byte 0.
pub fn put_optional(sink: &mut Sink, text: Option<&str>) -> Result<(), WriteFault>
    ensures taken { OnOk result (Takes sink.old (optional_bytes (option_map (λ text. chars text.now) text.entry)) sink.new) }
    ensures stopped { IfErr result (Stops sink.old (optional_bytes (option_map (λ text. chars text.now) text.entry))) }
    ensures text { OnOk result (IfSome (option_map (λ text. chars text.now) text.entry) IsText) }
{
    match text {
        Some(text) => {
            sink.put(&[1])?;
            put_text(sink, text)
        }
        None => sink.put(&[0]),
    }
}

/// Writes the byte 1 and the IRI, where there is one, and else the byte 0.
pub fn put_optional_iri(sink: &mut Sink, iri: &Option<Iri>) -> Result<(), WriteFault>
    ensures taken { OnOk result (Takes sink.old (optional_bytes iri.now) sink.new) }
    ensures stopped { IfErr result (Stops sink.old (optional_bytes iri.now)) }
    ensures text { OnOk result (IfSome iri.now IsText) }
{
    match iri {
        Some(iri) => put_optional(sink, Some(iri.text())),
        None => put_optional(sink, None),
    }
}

/// Writes what a leaf holds.
pub fn put_atom(sink: &mut Sink, atom: &Atom) -> Result<(), WriteFault>
    ensures taken { OnOk result (Takes sink.old (atom_bytes atom.now) sink.new) }
    ensures stopped { IfErr result (Stops sink.old (atom_bytes atom.now)) }
    ensures texts { OnOk result (HasTexts atom.now) }
{
    // A number has 64 bits.
    atom.made();
    match atom {
        Atom::Iri(iri) => put_text(sink, iri.text()),
        Atom::Label(label) => put_text(sink, label.text()),
        Atom::Literal(literal) => put_literal(sink, literal),
        Atom::Number(number) => put_number(sink, *number),
    }
}

/// Writes a literal: its lexical form, its datatype, and its language tag.
fn put_literal(sink: &mut Sink, literal: &Literal) -> Result<(), WriteFault>
    ensures taken { OnOk result (Takes sink.old (atom_bytes (Atom.Literal literal.now)) sink.new) }
    ensures stopped { IfErr result (Stops sink.old (atom_bytes (Atom.Literal literal.now))) }
    ensures texts { OnOk result (HasTexts (Atom.Literal literal.now)) }
{
    put_text(sink, literal.lexical())?;
    put_text(sink, literal.datatype().text())?;
    put_optional(sink, literal.tag())
}
