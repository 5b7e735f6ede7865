//! The rules of the profiles.

ghost use Rattle.std.specs.Prelude.{Some};
ghost use Rattle.owl_doc.specs.Rules.{rule_name};

use std::fmt;

/// A rule of OWL 2 DL or of one of the profiles, by its number. It prints as
/// `DL-1` and so on.
#[derive(Clone, Copy, Debug, PartialEq, Eq, PartialOrd, Ord)]
pub enum Rule {
    Dl(u8),
    El(u8),
    Ql(u8),
    Rl(u8),
}

impl fmt::Display for Rule {
    ghost output = { λ rule. Some (rule_name rule) };

    fn fmt<W: fmt::Write>(&self, f: &mut fmt::Formatter<W>) -> fmt::Result {
        match self {
            Rule::Dl(number) => write!(f, "DL-{number}"),
            Rule::El(number) => write!(f, "EL-{number}"),
            Rule::Ql(number) => write!(f, "QL-{number}"),
            Rule::Rl(number) => write!(f, "RL-{number}"),
        }
    }
}
