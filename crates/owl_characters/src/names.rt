//! The classes of characters of which names are made.

ghost use Rattle.std.specs.Prelude.{◌≡◌, Bool, List, ℕ};
ghost use Rattle.owl_characters.specs.Iri.{AllAre, is_iri_character};
ghost use Rattle.owl_characters.specs.Names.{base_ranges, in_ranges, is_base, is_part, is_start, part_ranges, start_ranges, SpellsLocal};

/// The ranges of PN_CHARS_BASE.
const BASE: [(char, char); 14] = [
    ('A', 'Z'),
    ('a', 'z'),
    ('\u{C0}', '\u{D6}'),
    ('\u{D8}', '\u{F6}'),
    ('\u{F8}', '\u{2FF}'),
    ('\u{370}', '\u{37D}'),
    ('\u{37F}', '\u{1FFF}'),
    ('\u{200C}', '\u{200D}'),
    ('\u{2070}', '\u{218F}'),
    ('\u{2C00}', '\u{2FEF}'),
    ('\u{3001}', '\u{D7FF}'),
    ('\u{F900}', '\u{FDCF}'),
    ('\u{FDF0}', '\u{FFFD}'),
    ('\u{10000}', '\u{EFFFF}'),
];

/// What PN_CHARS_U has beside these.
const START: [(char, char); 1] = [('_', '_')];

/// What PN_CHARS has beside these.
const PART: [(char, char); 5] = [
    ('-', '-'),
    ('0', '9'),
    ('\u{B7}', '\u{B7}'),
    ('\u{300}', '\u{36F}'),
    ('\u{203F}', '\u{2040}'),
];

/// Whether the character is in PN_CHARS_BASE (RDF 1.1 Turtle, section 6.5).
pub fn is_base(c: char) -> bool
    ensures { result ≡ is_base c }
{
    in_ranges(&BASE, c)
}

/// Whether the character is in PN_CHARS_U (RDF 1.1 Turtle, section 6.5).
pub fn is_start(c: char) -> bool
    ensures { result ≡ is_start c }
{
    is_base(c) || in_ranges(&START, c)
}

/// Whether the character is in PN_CHARS (RDF 1.1 Turtle, section 6.5).
pub fn is_part(c: char) -> bool
    ensures { result ≡ is_part c }
{
    is_start(c) || in_ranges(&PART, c)
}

/// Whether a range has the character.
fn in_ranges(ranges: &[(char, char)], c: char) -> bool
    ensures { result ≡ in_ranges ranges.now c }
{
    ranges.iter().any(|range| range.0 <= c && c <= range.1)
}

/// A law: a local part stands for a text of which each character may stand in
/// an IRI (RDF 1.1 Turtle, section 6.5, and RFC 3987).
pub fn local_parts_fit_iris()
    ensures { (spelling text : List ℕ) → SpellsLocal spelling text → AllAre is_iri_character text }
{}
