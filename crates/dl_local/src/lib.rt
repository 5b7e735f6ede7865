//! What single trees break of OWL 2 DL (Structural Specification, section 11 and the
//! sections that it names).
#![tactic(auto)]

mod faults;
mod leaves;
mod nodes;
mod parts;
mod pass;

pub use faults::{Local, LocalFaults};
pub use parts::{axiom_is_at_fault, header_is_at_fault};
pub use pass::local_faults;
