//! Tests of atoms, tables of prefixes, datatypes, documents that are read whole,
//! and refusals as texts.
#![tactic(auto)]

#[cfg(test)]
mod atoms;
#[cfg(test)]
mod datatypes;
#[cfg(test)]
mod prefixes;
#[cfg(test)]
mod printed;
#[cfg(test)]
mod shelves;
