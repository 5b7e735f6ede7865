//! Refusals of what lies below, as faults of a token.

ghost use Rattle.std.specs.Prelude.{◌≡◌};
ghost use Rattle.fss_acts.specs.Refusals.{of_declaring, of_literal, of_making};

use owl_atom::{DeclareFault, LiteralFault};
use owl_maker::MakeFault;
use owl_reader::{Reason, TokenFault};

pub fn of_making(fault: MakeFault) -> TokenFault
    ensures { result ≡ of_making fault }
{
    match fault {
        MakeFault::TooDeep => TokenFault::TooDeep,
        MakeFault::TooHeavy => TokenFault::TooHeavy,
        MakeFault::EmptyKey => TokenFault::Defect(Reason::EmptyKey),
        MakeFault::Memory => TokenFault::Memory,
    }
}

pub fn of_declaring(fault: DeclareFault) -> TokenFault
    ensures { result ≡ of_declaring fault }
{
    match fault {
        DeclareFault::PrefixTwice => TokenFault::Defect(Reason::PrefixTwice),
        DeclareFault::PrefixFixed => TokenFault::Defect(Reason::PrefixFixed),
        DeclareFault::Memory => TokenFault::Memory,
    }
}

pub fn of_literal(fault: LiteralFault) -> TokenFault
    ensures { result ≡ of_literal fault }
{
    match fault {
        LiteralFault::BadLiteral => TokenFault::Defect(Reason::BadLiteral),
        LiteralFault::Memory => TokenFault::Memory,
    }
}
