//! Why documents are not read.

ghost use Rattle.std.specs.Prelude.{◌≡◌};
ghost use Rattle.owl_documents.specs.Reading.{trouble_of, trouble_of_bytes, trouble_of_header};

use owl_canon::CanonFault;
use owl_reader::ReadFault;
use rdf_scans::OutlineFault;

/// Why a document is refused.
#[derive(Debug, Drop)]
pub enum Refusal {
    /// It has more than 2^27 bytes.
    DocumentBytes,
    /// With those before it there are more than 2^28 bytes.
    AllBytes,
    /// The reader of its syntax refuses it.
    Unreadable(ReadFault),
    /// Its graph has no header of an ontology.
    Headless(OutlineFault),
    /// Its bytes are the canonical bytes of no ontology.
    NotCanon,
}

/// Why a document is not read.
#[derive(Debug, Drop)]
pub enum Trouble {
    /// The shelf failed, or has no such document.
    ReadFailed,
    /// The document is refused.
    Refused(Refusal),
    /// Memory ran out.
    Memory,
}

/// Why documents are not read, and at which place among them.
#[derive(Debug, Drop)]
pub struct Stop {
    pub document: usize,
    pub trouble: Trouble,
}

impl From<ReadFault> for Trouble {
    ghost from_gives = { λ fault e. e ≡ trouble_of fault };

    fn from(fault: ReadFault) -> Trouble {
        match fault {
            ReadFault::Memory => Trouble::Memory,
            _ => Trouble::Refused(Refusal::Unreadable(fault)),
        }
    }
}

impl From<OutlineFault> for Trouble {
    ghost from_gives = { λ fault e. e ≡ trouble_of_header fault };

    fn from(fault: OutlineFault) -> Trouble {
        match fault {
            OutlineFault::Memory => Trouble::Memory,
            _ => Trouble::Refused(Refusal::Headless(fault)),
        }
    }
}

impl From<CanonFault> for Trouble {
    ghost from_gives = { λ fault e. e ≡ trouble_of_bytes fault };

    fn from(fault: CanonFault) -> Trouble {
        match fault {
            CanonFault::NotCanon => Trouble::Refused(Refusal::NotCanon),
            CanonFault::Memory => Trouble::Memory,
        }
    }
}
