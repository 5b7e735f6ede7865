//! Tests of arenas, and of documents that are begun.
#![tactic(auto)]

#[cfg(test)]
mod arena;
#[cfg(test)]
mod builder;
