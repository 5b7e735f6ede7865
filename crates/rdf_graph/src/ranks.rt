//! Ranks of terms: numbers that put most terms in order with no look at their
//! texts. No contract speaks of them, since what they put in order is put in
//! order once more by the terms themselves, which a list that ascends already
//! makes cheap.

ghost use Rattle.std.specs.Prelude.{◌≤◌, length as count_of};

use crate::term::Term;
use crate::triple::Triple;

/// How many bytes of a text a rank holds, beside its kind.
const HELD: usize = 15;

/// The bytes that the texts of all terms of a kind begin with.
#[derive(Clone, Copy, Debug)]
struct Shared<'a> {
    iris: Option<&'a [u8]>,
    labels: Option<&'a [u8]>,
    forms: Option<&'a [u8]>,
}

/// How many bytes of a text of each kind a rank passes over.
#[derive(Clone, Copy, Debug)]
pub struct Fronts {
    iris: usize,
    labels: usize,
    forms: usize,
}

impl Fronts {
    /// The fronts of the subjects.
    pub fn of_subjects(triples: &[Triple]) -> Fronts {
        let mut shared = Shared::new();
        for triple in triples {
            shared = shared.with(&triple.subject);
        }
        shared.lengths()
    }

    /// The fronts of the objects.
    pub fn of_objects(triples: &[Triple]) -> Fronts {
        let mut shared = Shared::new();
        for triple in triples {
            shared = shared.with(&triple.object);
        }
        shared.lengths()
    }

    /// The rank of a term: its kind, and the first bytes of its text behind the
    /// front.
    pub fn rank(&self, term: &Term) -> u128 {
        match term {
            Term::Iri(iri) => number(0, iri.text().as_bytes(), self.iris),
            Term::Blank(label) => number(1, label.text().as_bytes(), self.labels),
            Term::Literal(literal) => number(2, literal.lexical().as_bytes(), self.forms),
        }
    }
}

impl<'a> Shared<'a> {
    fn new() -> Shared<'a> {
        Shared {
            iris: None,
            labels: None,
            forms: None,
        }
    }

    /// With one term more.
    fn with(self, term: &'a Term) -> Shared<'a> {
        match term {
            Term::Iri(iri) => Shared {
                iris: front(self.iris, iri.text().as_bytes()),
                ..self
            },
            Term::Blank(label) => Shared {
                labels: front(self.labels, label.text().as_bytes()),
                ..self
            },
            Term::Literal(literal) => Shared {
                forms: front(self.forms, literal.lexical().as_bytes()),
                ..self
            },
        }
    }

    fn lengths(&self) -> Fronts {
        Fronts {
            iris: length(self.iris),
            labels: length(self.labels),
            forms: length(self.forms),
        }
    }
}

fn length(front: Option<&[u8]>) -> usize {
    match front {
        Some(front) => front.len(),
        None => 0,
    }
}

/// What a front and a text both begin with; the text, where there is no front.
fn front<'a>(front: Option<&'a [u8]>, text: &'a [u8]) -> Option<&'a [u8]> {
    match front {
        Some(front) if text.starts_with(front) => Some(front),
        Some(front) => Some(&front[..same(front, text)]),
        None => Some(text),
    }
}

/// How many bytes are the same at the beginning.
fn same(a: &[u8], b: &[u8]) -> usize
    ensures { result ≤ count_of a.now }
{
    let most = a.len().min(b.len());
    for count in 0..most {
        if a[count] != b[count] {
            return count;
        }
    }
    most
}

/// The kind, and then the bytes of the text behind the first ones, as a number.
fn number(kind: u8, text: &[u8], front: usize) -> u128 {
    let rest = text.get(front..).unwrap_or(&[]);
    let held = rest.len().min(HELD);
    let mut rank = kind as u128;
    for byte in &rest[..held] {
        rank = rank << 8 | *byte as u128;
    }
    rank << (8 * (HELD - held))
}
