//! Refusals of what lies below, as faults of a token.

ghost use Rattle.std.specs.Prelude.{◌≡◌};
ghost use Rattle.man_read.specs.Refusals.{of_declaring, of_expanding};

use owl_atom::{DeclareFault, ExpandFault};
use owl_reader::{Reason, TokenFault};

pub fn of_expanding(fault: ExpandFault) -> TokenFault
    ensures { result ≡ of_expanding fault }
{
    match fault {
        ExpandFault::UnknownPrefix => TokenFault::Defect(Reason::UnknownPrefix),
        ExpandFault::Memory => TokenFault::Memory,
    }
}

pub fn of_declaring(fault: DeclareFault) -> TokenFault
    ensures { result ≡ of_declaring fault }
{
    match fault {
        DeclareFault::PrefixTwice => TokenFault::Defect(Reason::PrefixTwice),
        DeclareFault::PrefixFixed => TokenFault::Defect(Reason::PrefixFixed),
        DeclareFault::Memory => TokenFault::Memory,
    }
}
