//! Tests of what the nodes of a graph stand for, for what no row reaches.
#![tactic(auto)]

#[cfg(test)]
mod nodes;
