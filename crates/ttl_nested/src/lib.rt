//! What it means that blank nodes are written in brackets and as collections, and that such a text reads back to the same
//! graph.
#![tactic(auto)]
