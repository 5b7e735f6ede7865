//! A declaration that is needed.

ghost use Rattle.std.specs.Prelude.{◌≡◌};
ghost use Rattle.std.specs.Cmp.{partial_equiv_from_equiv, partial_order_from_own_ties, partial_order_from_total};
ghost use Rattle.std.specs.Ordering.{as_partial_cmp, eq_by_cmp};
ghost use Rattle.std.proofs.Common.{refl};
ghost use Rattle.owl_kind.specs.Order.{kind_number};
ghost use Rattle.owl_declare.specs.NeedOrder.{need_cmp, needs_alike, needs_total};

use owl_kind::Kind;
use rdf_terms::Iri;
use std::cmp::Ordering;

/// An IRI, and the kind that it has to be declared as. Needs are ordered by kind, in the
/// order of its variants, and then by the bytes of the IRI.
#[derive(Debug, Drop)]
pub struct Need {
    pub kind: Kind,
    pub iri: Iri,
}

impl PartialEq for Need {
    ghost eq = { eq_by_cmp need_cmp };

    ghost laws = { partial_equiv_from_equiv needs_alike };

    fn eq(&self, other: &Need) -> bool {
        self.cmp(other).is_eq()
    }
}

impl Eq for Need {
    ghost laws = { needs_alike };
}

impl PartialOrd for Need {
    ghost partial_cmp = { as_partial_cmp need_cmp };

    ghost laws = { partial_order_from_own_ties (partial_order_from_total needs_total) (λ a b. refl) };

    fn partial_cmp(&self, other: &Need) -> Option<Ordering> {
        Some(self.cmp(other))
    }
}

impl Ord for Need {
    ghost cmp = { need_cmp };

    ghost total = { needs_total };

    ghost matches_partial_cmp = { λ a b. refl };

    ghost matches_eq = { λ a b. refl };

    fn cmp(&self, other: &Need) -> Ordering {
        number(self.kind)
            .cmp(&number(other.kind))
            .then(self.iri.cmp(&other.iri))
    }
}

/// The place of the kind among its variants.
fn number(kind: Kind) -> u8
    ensures { result ≡ kind_number kind }
{
    match kind {
        Kind::Class => 0,
        Kind::Datatype => 1,
        Kind::ObjectProperty => 2,
        Kind::DataProperty => 3,
        Kind::AnnotationProperty => 4,
        Kind::Individual => 5,
    }
}
