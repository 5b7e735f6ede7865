//! Refusals of what lies below, as faults of a token.

ghost use Rattle.std.specs.Prelude.{◌≡◌};
ghost use Rattle.ttl_read.specs.Refusals.{of_expanding, of_graph, of_label, of_literal, of_resolving};

use owl_atom::{ExpandFault, IriFault, LabelFault, LiteralFault};
use owl_reader::{Reason, TokenFault};
use rdf_graph::GraphFault;

/// Where a reference is resolved against a base.
pub fn of_resolving(fault: IriFault) -> TokenFault
    ensures { result ≡ of_resolving fault }
{
    match fault {
        IriFault::BadIri => TokenFault::Defect(Reason::BadIri),
        IriFault::Memory => TokenFault::Memory,
    }
}

pub fn of_expanding(fault: ExpandFault) -> TokenFault
    ensures { result ≡ of_expanding fault }
{
    match fault {
        ExpandFault::UnknownPrefix => TokenFault::Defect(Reason::UnknownPrefix),
        ExpandFault::Memory => TokenFault::Memory,
    }
}

pub fn of_literal(fault: LiteralFault) -> TokenFault
    ensures { result ≡ of_literal fault }
{
    match fault {
        LiteralFault::BadLiteral => TokenFault::Defect(Reason::BadLiteral),
        LiteralFault::Memory => TokenFault::Memory,
    }
}

/// Each label of a token is one.
pub fn of_label(fault: LabelFault) -> TokenFault
    ensures { result ≡ of_label fault }
{
    match fault {
        LabelFault::BadLabel => TokenFault::Defect(Reason::NotHere),
        LabelFault::Memory => TokenFault::Memory,
    }
}

pub fn of_graph(fault: GraphFault) -> TokenFault
    ensures { result ≡ of_graph fault }
{
    match fault {
        GraphFault::TooMany => TokenFault::TooMany,
        GraphFault::Memory => TokenFault::Memory,
    }
}
