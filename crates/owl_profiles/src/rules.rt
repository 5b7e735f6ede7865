//! The rules of the profiles.

ghost use Rattle.std.specs.Prelude.{◌≡◌};
ghost use Rattle.owl_profiles.specs.Rules.{axiom_name, axiom_rules};

use owl_doc::Rule;
use profile_sorts::Sort;

/// A profile besides OWL 2 DL.
#[derive(Clone, Copy, Debug, PartialEq, Eq)]
pub enum Profile {
    El,
    Ql,
    Rl,
}

/// A rule of a profile on axioms.
#[derive(Clone, Copy, Debug)]
pub enum AxiomRule {
    /// The rule with this name: each axiom is of the sort.
    Sort(Rule, Sort),
    /// The last property of a chain has the ranges of the property that the chain
    /// implies (section 2.2.6).
    ChainRanges,
}

impl AxiomRule {
    /// The name of the rule.
    pub(crate) fn name(self) -> Rule
        ensures { result ≡ axiom_name self }
    {
        match self {
            AxiomRule::Sort(rule, _) => rule,
            AxiomRule::ChainRanges => Rule::El(7),
        }
    }
}

impl Profile {
    /// The rules in the order of their numbers.
    #[tactic(auto, unfolding(crate::specs::Rules::axiom_rules))]
    pub(crate) fn rules(self) -> &'static [AxiomRule]
        ensures { result.now ≡ axiom_rules self }
    {
        match self {
            Profile::El => &[
                AxiomRule::Sort(Rule::El(1), Sort::ElAxiom),
                AxiomRule::Sort(Rule::El(2), Sort::ElClasses),
                AxiomRule::Sort(Rule::El(3), Sort::ElRanges),
                AxiomRule::Sort(Rule::El(4), Sort::SharedDatatypes),
                AxiomRule::Sort(Rule::El(5), Sort::ElProperties),
                AxiomRule::Sort(Rule::El(6), Sort::Named),
                AxiomRule::ChainRanges,
            ],
            Profile::Ql => &[
                AxiomRule::Sort(Rule::Ql(1), Sort::QlAxiom),
                AxiomRule::Sort(Rule::Ql(2), Sort::QlClasses),
                AxiomRule::Sort(Rule::Ql(3), Sort::Ranges),
                AxiomRule::Sort(Rule::Ql(4), Sort::SharedDatatypes),
                AxiomRule::Sort(Rule::Ql(5), Sort::Named),
            ],
            Profile::Rl => &[
                AxiomRule::Sort(Rule::Rl(1), Sort::RlAxiom),
                AxiomRule::Sort(Rule::Rl(2), Sort::RlClasses),
                AxiomRule::Sort(Rule::Rl(3), Sort::Ranges),
                AxiomRule::Sort(Rule::Rl(4), Sort::RlDatatypes),
                AxiomRule::Sort(Rule::Rl(5), Sort::RlProperties),
            ],
        }
    }
}
