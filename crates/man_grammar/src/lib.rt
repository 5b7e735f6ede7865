//! Manchester Syntax as a grammar with its table, and what its acts do.
#![tactic(auto)]

mod act;
mod class;
mod classes;
mod laws;
mod manchester;
mod table;

pub use act::Act;
pub use class::Class;
pub use classes::class_of;
pub use laws::{
    defects_are_of_no_document, documents_are_read_one_way, one_first_defect, table_is_of_page,
};
pub use manchester::Manchester;
