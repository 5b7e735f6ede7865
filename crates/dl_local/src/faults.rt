//! What single trees are tested for.

ghost use Rattle.std.specs.Prelude.{◌≡◌, ◌&&◌, ◌||◌};
ghost use Rattle.std.specs.List.{list_any};
ghost use Rattle.dl_local.specs.declared.faults.Local.{Local};
ghost use Rattle.dl_local.specs.Faults.{counts, faults_of, has};

use dl_rules::is_remark;
use owl_arena::ExprId;
use owl_tree::Tag;

/// What single trees are tested for.
#[derive(Clone, Copy, Debug, PartialEq, Eq)]
pub enum Local {
    /// A class, datatype or property that is neither declared nor built in.
    Undeclared,
    /// A reserved IRI of an entity that is not built in so.
    Misnamed,
    /// A datatype that may not be used.
    Datatype,
    /// A literal with no lexical form of its datatype.
    Form,
    /// A facet that the datatype doesn't have, or a data range of several arguments.
    Range,
    /// The top data property.
    TopData,
    /// A property that has to be simple, and is not.
    NotSimple,
    /// An anonymous individual where individuals have to be named.
    Anonymous,
}

/// For which of these some tree, of one and those below it, is at fault.
#[derive(Clone, Copy, Debug)]
pub struct LocalFaults {
    pub(crate) undeclared: bool,
    pub(crate) misnamed: bool,
    pub(crate) datatype: bool,
    pub(crate) form: bool,
    pub(crate) range: bool,
    pub(crate) top_data: bool,
    pub(crate) not_simple: bool,
    pub(crate) anonymous: bool,
}

impl LocalFaults {
    /// No faults.
    const NONE: LocalFaults = LocalFaults {
        undeclared: false,
        misnamed: false,
        datatype: false,
        form: false,
        range: false,
        top_data: false,
        not_simple: false,
        anonymous: false,
    };

    /// Whether some tree is at fault for this.
    pub fn has(self, test: Local) -> bool
        ensures { result ≡ has self test }
    {
        match test {
            Local::Undeclared => self.undeclared,
            Local::Misnamed => self.misnamed,
            Local::Datatype => self.datatype,
            Local::Form => self.form,
            Local::Range => self.range,
            Local::TopData => self.top_data,
            Local::NotSimple => self.not_simple,
            Local::Anonymous => self.anonymous,
        }
    }

    /// These faults and the others.
    pub(crate) fn or(self, other: LocalFaults) -> LocalFaults
        ensures { (test : Local) → has result test ≡ (has self test || has other test) }
    {
        LocalFaults {
            undeclared: self.undeclared | other.undeclared,
            misnamed: self.misnamed | other.misnamed,
            datatype: self.datatype | other.datatype,
            form: self.form | other.form,
            range: self.range | other.range,
            top_data: self.top_data | other.top_data,
            not_simple: self.not_simple | other.not_simple,
            anonymous: self.anonymous | other.anonymous,
        }
    }

    /// Those of these faults that count where a node has this tag.
    pub(crate) fn counted(self, tag: Tag) -> LocalFaults
        ensures { (test : Local) → has result test ≡ (counts test tag && has self test) }
    {
        if !is_remark(tag) {
            return self;
        }
        LocalFaults {
            undeclared: self.undeclared,
            misnamed: self.misnamed,
            datatype: false,
            form: false,
            range: false,
            top_data: false,
            not_simple: false,
            anonymous: false,
        }
    }
}

/// The faults of the tree in this place: none, where there is no tree.
pub fn faults_of(found: &[LocalFaults], id: ExprId) -> LocalFaults
    ensures { result ≡ faults_of found.now id }
{
    found.get(id.place()).copied().unwrap_or(LocalFaults::NONE)
}

/// The faults of all of these trees.
pub fn faults_of_all(found: &[LocalFaults], ids: &[ExprId]) -> LocalFaults
    ensures { (test : Local) → has result test
        ≡ list_any (λ id. has (faults_of found.now id) test) ids.now }
{
    let mut faults = LocalFaults::NONE;
    'ids: for id in ids {
        faults = faults.or(faults_of(found, *id));
    }
    faults
}

/// Whether some of these trees is at fault for this.
pub fn some_has(found: &[LocalFaults], ids: &[ExprId], test: Local) -> bool
    ensures { result ≡ list_any (λ id. has (faults_of found.now id) test) ids.now }
{
    ids.iter().any(|id| faults_of(found, *id).has(test))
}
