//! Functional-Style Syntax as a grammar: the classes of its tokens, its rules,
//! and what is done on the way.
#![tactic(auto)]

mod acts;
mod classes;
mod functional;
mod laws;
mod table;

pub use acts::Act;
pub use classes::class_of;
pub use functional::Functional;
pub use laws::{
    acts_are_done_one_way, acts_are_ready, acts_are_told_apart, acts_go_by_tables,
    declarations_come_first, documents_are_done_in_parts, documents_derive_as_written,
    documents_do_as_written, events_are_done_in_steps, fed_documents_are_written,
    makers_look_as_made, one_table_serves, trees_derive_as_written, undoable_is_unwritten,
};
