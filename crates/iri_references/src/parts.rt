//! The parts of a reference.

ghost use Rattle.std.specs.Prelude.{◌≡◌};
ghost use Rattle.std.specs.Str.{chars};
ghost use Rattle.iri_references.specs.References.{parts_of};

use crate::cuts::{cut, cut_authority};
use crate::scan::{begins_with_slash, is_empty};

/// The parts of a reference without a scheme, or of what stands behind the
/// scheme of an IRI (RFC 3986, section 3 and appendix B).
#[derive(Clone, Copy)]
pub struct Parts<'a> {
    /// What stands behind a leading `//`, up to the next slash.
    pub authority: Option<&'a str>,
    /// What stands before the query and the fragment, but for the authority.
    pub path: &'a str,
    /// What stands behind the first `?` in front of the fragment.
    pub query: Option<&'a str>,
    /// What stands behind the first `#`.
    pub fragment: Option<&'a str>,
}

impl<'a> Parts<'a> {
    ghost use Rattle.iri_references.specs.Views.{has_own_path, keeps_path, parts_seen};

    /// The parts of this text.
    pub fn of(text: &'a str) -> Parts<'a>
        ensures { parts_seen result ≡ parts_of (chars text.now) }
    {
        let (text, fragment) = cut(text, '#');
        let (hierarchy, query) = cut(text, '?');
        let (authority, path) = cut_authority(hierarchy);
        Parts {
            authority,
            path,
            query,
            fragment,
        }
    }

    /// Whether they are at most a query and a fragment.
    pub fn keeps_path(&self) -> bool
        ensures { result ≡ keeps_path (parts_seen self.now) }
    {
        self.authority.is_none() && is_empty(self.path)
    }

    /// Whether the path is put behind no other.
    pub fn has_own_path(&self) -> bool
        ensures { result ≡ has_own_path (parts_seen self.now) }
    {
        self.authority.is_some() || begins_with_slash(self.path)
    }
}
