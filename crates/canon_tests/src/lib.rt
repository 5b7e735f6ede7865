//! Tests of canonical bytes, with bytes and digests that were made by hand.
#![tactic(auto)]

#[cfg(test)]
mod reading;
#[cfg(test)]
mod writing;
