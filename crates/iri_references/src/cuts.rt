//! Texts that are cut at a mark.

ghost use Rattle.std.specs.Prelude.{◌≡◌, ◌++◌, ◌<◌, IfSome};
ghost use Rattle.std.specs.Str.{chars};
ghost use Rattle.iri_references.specs.References.{authority_of, before, behind, from_mark, path_of, slash};
ghost use Rattle.iri_references.specs.Resolution.{through_last_slash};
ghost use Rattle.iri_references.specs.Views.{seen};

/// What stands before the first mark, or all of the text, and what stands
/// behind the mark, where there is one.
pub fn cut(text: &str, mark: char) -> (&str, Option<&str>)
    requires { mark < 128 }
    ensures before { chars result.0.now ≡ before mark (chars text.now) }
    ensures behind { seen result.1 ≡ behind mark (chars text.now) }
{
    match text.split_once(mark) {
        Some((front, back)) => (front, Some(back)),
        None => (text, None),
    }
}

/// What stands before the first slash, or all of the text, and the rest.
pub fn cut_at_slash(text: &str) -> (&str, &str)
    ensures before { chars result.0.now ≡ before slash (chars text.now) }
    ensures from { chars result.1.now ≡ from_mark slash (chars text.now) }
{
    match text.find('/') {
        Some(place) => text.split_at(place),
        None => (text, ""),
    }
}

/// The authority and the path of what stands before the query.
pub fn cut_authority(hierarchy: &str) -> (Option<&str>, &str)
    ensures authority { seen result.0 ≡ authority_of (chars hierarchy.now) }
    ensures path { chars result.1.now ≡ path_of (chars hierarchy.now) }
{
    match hierarchy.strip_prefix("//") {
        Some(rest) => {
            let (authority, path) = cut_at_slash(rest);
            (Some(authority), path)
        }
        None => (None, hierarchy),
    }
}

/// The path up to and with its last slash, or nothing where it has none.
pub fn through_last_slash(path: &str) -> &str
    ensures { chars result.now ≡ through_last_slash (chars path.now) }
{
    match path.rfind('/') {
        Some(place) => &path[..=place],
        None => "",
    }
}

/// What stands behind this front of a text, where it is one.
pub fn behind_front<'a>(text: &'a str, front: &str) -> Option<&'a str>
    ensures { IfSome result (λ rest. chars text.now ≡ chars front.now ++ chars rest.now) }
{
    text.strip_prefix(front)
}

/// What stands before this end of a text, where it is one.
pub fn before_end<'a>(text: &'a str, end: &str) -> Option<&'a str>
    ensures { IfSome result (λ front. chars text.now ≡ chars front.now ++ chars end.now) }
{
    text.strip_suffix(end)
}
