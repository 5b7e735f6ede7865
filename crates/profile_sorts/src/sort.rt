//! Sorts of trees.

ghost use Rattle.std.specs.Prelude.{◌≡◌, ◌<◌};
ghost use Rattle.profile_sorts.specs.Sets.{number_of};

/// A sort of trees, by a grammar of one of the profiles EL, QL and RL (OWL 2 Profiles,
/// sections 2.2, 3.2 and 4.2), or by what the profile asks of all that stands in an
/// axiom.
#[derive(Clone, Copy, Debug)]
pub enum Sort {
    /// Every tree.
    Anything,
    /// `owl:Thing`.
    Thing,
    /// A class.
    Class,
    /// An object property expression, and no chain.
    Property,
    /// The number 0 or 1 (section 4.2.3).
    ZeroOrOne,
    /// Each data range in it is one of QL and RL (sections 3.2.4 and 4.2.4).
    Ranges,
    /// Each datatype of the datatype map in it is one of EL and QL (sections
    /// 2.2.1 and 3.2.1).
    SharedDatatypes,
    /// No anonymous individual stands in it (sections 2.2.1 and 3.2.1).
    Named,
    /// An axiom of EL, by its kind (section 2.2.5).
    ElAxiom,
    /// Each class expression in it is one of EL (section 2.2.3).
    ElClasses,
    /// Each data range in it is one of EL (section 2.2.4).
    ElRanges,
    /// Each object property expression in it is a property (section 2.2.2).
    ElProperties,
    /// An axiom of QL, by its kind (section 3.2.5).
    QlAxiom,
    /// Class expressions stand in it where QL lets them (section 3.2.5).
    QlClasses,
    /// A subclass expression of QL (section 3.2.3).
    QlSub,
    /// A superclass expression of QL (section 3.2.3).
    QlSuper,
    /// An axiom of RL, by its kind (section 4.2.5).
    RlAxiom,
    /// Class expressions stand in it where RL lets them (section 4.2.5).
    RlClasses,
    /// A subclass expression of RL (section 4.2.3).
    RlSub,
    /// A subclass expression of RL, or `owl:Thing` (section 4.2.3).
    RlFiller,
    /// A superclass expression of RL (section 4.2.3).
    RlSuper,
    /// An equivalent class expression of RL (section 4.2.3).
    RlEquivalent,
    /// No datatype in it is `owl:real` or `owl:rational` (section 4.2.1).
    RlDatatypes,
    /// No top and no bottom property stands in it (section 4.2.1).
    RlProperties,
}

impl Sort {
    /// How many sorts there are.
    pub(crate) const COUNT: u32 = 24;

    /// The number of the sort, from 0 to 23.
    #[tactic(auto, unfolding(crate::specs::Sets::number_of))]
    pub(crate) fn number(self) -> u32
        ensures number { result ≡ number_of self }
        ensures below { result < 24 }
    {
        self as u32
    }

    /// The sort with this number.
    #[tactic(auto, unfolding(crate::specs::Sets::number_of))]
    pub(crate) fn numbered(number: u32) -> Sort
        requires { number < 24 }
        ensures { number_of result ≡ number }
    {
        match number {
            0 => Sort::Anything,
            1 => Sort::Thing,
            2 => Sort::Class,
            3 => Sort::Property,
            4 => Sort::ZeroOrOne,
            5 => Sort::Ranges,
            6 => Sort::SharedDatatypes,
            7 => Sort::Named,
            8 => Sort::ElAxiom,
            9 => Sort::ElClasses,
            10 => Sort::ElRanges,
            11 => Sort::ElProperties,
            12 => Sort::QlAxiom,
            13 => Sort::QlClasses,
            14 => Sort::QlSub,
            15 => Sort::QlSuper,
            16 => Sort::RlAxiom,
            17 => Sort::RlClasses,
            18 => Sort::RlSub,
            19 => Sort::RlFiller,
            20 => Sort::RlSuper,
            21 => Sort::RlEquivalent,
            22 => Sort::RlDatatypes,
            _ => Sort::RlProperties,
        }
    }
}
