//! A shelf in memory.

ghost use Rattle.std.specs.Prelude.{◌≡◌, ◌<◌, ◌≤◌, ◌^◌, ◌++◌, ◌∷◌, ◌+◌, ◌↔◌, ◌⊎◌, ℕ, List, [], None, Some, true, length, take, min, position, unwrap_or, IsTrue, IfOk, OnOk, OnErr, IsErr};
ghost use Rattle.std.specs.Str.{bytes_eq, encode_utf8_all};
ghost use Rattle.owl_port.specs.Outside.{Rose, SameElsewhere, before, raised};
ghost use Rattle.owl_port.specs.MemShelf.{document_in, left_in, faults_in, left_on, faults_on};

use crate::document::Document;
use crate::outside::{Failed, Shelf};
use crate::turn::Turns;
use owl_characters::{NoMemory, Text};
use std::alloc::Global;
use std::marker::Model;

/// Documents in memory, which gives what it is told to, in pieces of a chosen
/// size, and fails at a chosen read.
///
/// Names are compared by their bytes.
#[derive(Debug, Drop)]
pub struct MemShelf {
    documents: Vec<Document>,
    most: usize,
    turns: Turns,
}

impl Model for MemShelf {
    ghost use Rattle.std.specs.Prelude.{◌<◌};
    ghost use Rattle.owl_port.specs.MemShelf.{Shelved};

    ghost Value = { Shelved };

    ghost view = { λ s. record {
      documents = s.documents.items;
      most = s.most;
      made = s.turns.made;
      failing = s.turns.failing;
    } };

    ghost invariant = { λ s. 0 < s.most };
}

impl MemShelf {
    /// A shelf with no documents, which fills the whole buffer where it can.
    pub fn new(alloc: Global) -> MemShelf
        ensures { result ≡ record { documents = []; most = usize.MAX; made = 0; failing = None } }
    {
        MemShelf {
            documents: Vec::new(alloc),
            most: usize::MAX,
            turns: Turns::new(),
        }
    }

    /// Puts a document under the name, in place of an earlier one. At want of
    /// memory the shelf stays as it was.
    pub fn add(&mut self, name: Text, bytes: Vec<u8>) -> Result<(), NoMemory>
        ensures left { OnOk result (left_on self.new (encode_utf8_all name) ≡ Some bytes.items) }
        ensures faults { OnOk result (faults_on self.new (encode_utf8_all name) ≡ 0) }
        ensures others { SameElsewhere (encode_utf8_all name) (left_on self.old) (left_on self.new) }
        ensures counts { SameElsewhere (encode_utf8_all name) (faults_on self.old) (faults_on self.new) }
        ensures settings { (self.new.most ≡ self.old.most) × (self.new.made ≡ self.old.made)
            × (self.new.failing ≡ self.old.failing) }
        ensures err { OnErr result (self.new ≡ self.old) }
    {
        keep(&mut self.documents, Document::new(name, bytes))
    }

    /// Each later read gives at most so many bytes.
    pub fn piece(&mut self, most: usize)
        requires { 0 < most }
        ensures { self.new ≡ record self.old { most = most } }
    {
        self.most = most;
    }

    /// The read with this number fails, counted from 1 since the shelf was
    /// made, and no other one that was chosen before. Reads after number
    /// 2^64 - 1 have no number.
    pub fn fail_at(&mut self, call: u64)
        ensures { self.new ≡ record self.old { failing = Some call } }
    {
        self.turns.failing = Some(call);
    }
}

impl Shelf for MemShelf {
    ghost use Rattle.std.specs.Prelude.{true};
    ghost use Rattle.owl_port.specs.MemShelf.{left_on, faults_on};

    ghost tells = { λ _. true };

    ghost left = { left_on };

    ghost faults = { faults_on };

    fn read(&mut self, name: &str, into: &mut [u8]) -> Result<usize, Failed>
        requires { 0 < length into.old }

        // It fails at the chosen read, and where it lacks the name.
        ensures fails { IsErr result ↔ ((self.old.failing ≡ Some (self.old.made + 1))
            ⊎ (left_on self.old name.now ≡ None)) }
        ensures lacks { left_on self.old name.now ≡ None → IsErr result }

        // It gives as much as the buffer, the piece and the name have.
        ensures count { let left = unwrap_or (left_on self.old name.now) [] in
            IfOk result (λ n. n ≡ min (min (length into.old) self.old.most) (length left)) }
        ensures bound { IfOk result (λ n. n ≤ length into.new) }
        ensures bytes { IfOk result (λ n. left_on self.old name.now ≡ before (take n into.new) (left_on self.new name.now)) }
        ensures end { IfOk result (λ n. n ≡ 0 → left_on self.old name.now ≡ Some []) }

        // A failed read is counted, and nothing else of the name changes.
        ensures failed { OnErr result (left_on self.new name.now ≡ left_on self.old name.now) }
        ensures raised { OnErr result (faults_on self.new name.now ≡ raised (faults_on self.old name.now)) }
        ensures kept { OnOk result (faults_on self.new name.now ≡ faults_on self.old name.now) }
        ensures faults { faults_on self.old name.now ≤ faults_on self.new name.now }
        ensures cause { OnErr result (Rose (faults_on self.old name.now) (faults_on self.new name.now)) }

        // The other names, the number of the next read, and the settings.
        ensures others { SameElsewhere name.now (left_on self.old) (left_on self.new) }
        ensures counts { SameElsewhere name.now (faults_on self.old) (faults_on self.new) }
        ensures made { self.new.made ≡ raised self.old.made }
        ensures settings { (self.new.most ≡ self.old.most) × (self.new.failing ≡ self.old.failing) }
    {
        let fails = self.turns.next();
        let most = self.most;
        read_from(&mut self.documents, name, into, most, fails)
    }
}

/// The place of the document with this name.
fn place_of(documents: &[Document], name: &str) -> Option<usize>
    ensures { result ≡ position (λ d. bytes_eq d.name name.now) documents.now }
{
    documents
        .iter()
        .position(|document| document.name() == name)
}

/// Keeps a document, in place of the one of its name.
fn keep(documents: &mut Vec<Document>, document: Document) -> Result<(), NoMemory>
    ensures kept { OnOk result (document_in documents.new.items document.name ≡ Some document) }
    ensures others { SameElsewhere document.name (document_in documents.old.items) (document_in documents.new.items) }
    ensures err { OnErr result (documents.new.items ≡ documents.old.items) }
{
    match place_of(documents, document.name()) {
        Some(place) => {
            documents[place] = document;
            Ok(())
        }
        None => append(documents, document),
    }
}

/// Keeps a document of a name that is not there.
fn append(documents: &mut Vec<Document>, document: Document) -> Result<(), NoMemory>
    ensures ok { OnOk result (documents.new.items ≡ documents.old.items ++ document ∷ []) }
    ensures err { OnErr result (documents.new.items ≡ documents.old.items) }
{
    match documents.push(document) {
        Ok(()) => Ok(()),
        Err(_) => Err(NoMemory),
    }
}

/// What a read gives that is told whether to fail.
fn read_from(
    documents: &mut Vec<Document>,
    name: &str,
    into: &mut [u8],
    most: usize,
    fails: bool,
) -> Result<usize, Failed>
    ensures failed { IsErr result ↔ (IsTrue fails ⊎ (left_in documents.old.items name.now ≡ None)) }
    ensures count { let left = unwrap_or (left_in documents.old.items name.now) [] in
        IfOk result (λ n. n ≡ min (min (length into.old) most) (length left)) }
    ensures bytes { IfOk result (λ n.
        left_in documents.old.items name.now
        ≡ before (take n into.new) (left_in documents.new.items name.now)) }
    ensures kept { OnErr result (left_in documents.new.items name.now ≡ left_in documents.old.items name.now) }
    ensures quiet { OnOk result (faults_in documents.new.items name.now ≡ faults_in documents.old.items name.now) }
    ensures raised { OnErr result (faults_in documents.new.items name.now
        ≡ raised (faults_in documents.old.items name.now)) }
    ensures grows { faults_in documents.old.items name.now ≤ faults_in documents.new.items name.now }
    ensures others { SameElsewhere name.now (document_in documents.old.items) (document_in documents.new.items) }
{
    match place_of(documents, name) {
        None => Err(Failed),
        Some(place) => read_one(&mut documents[place], into, most, fails),
    }
}

/// What a read of one document gives.
fn read_one(
    document: &mut Document,
    into: &mut [u8],
    most: usize,
    fails: bool,
) -> Result<usize, Failed>
    ensures failed { IsErr result ↔ IsTrue fails }
    ensures name { document.new.name ≡ document.old.name }
    ensures count { IfOk result (λ n. n ≡ min (min (length into.old) most) (length document.old.left)) }
    ensures bytes { IfOk result (λ n. document.old.left ≡ take n into.new ++ document.new.left) }
    ensures kept { OnErr result (document.new.left ≡ document.old.left) }
    ensures quiet { OnOk result (document.new.faults ≡ document.old.faults) }
    ensures raised { OnErr result (document.new.faults ≡ raised document.old.faults) }
    ensures grows { document.old.faults ≤ document.new.faults }
{
    if fails {
        document.fail();
        Err(Failed)
    } else {
        Ok(document.give(into, most))
    }
}
