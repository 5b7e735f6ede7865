//! What the profiles of OWL 2 share: where a rule may be broken, and the list of
//! those places where it is.
#![tactic(auto)]
