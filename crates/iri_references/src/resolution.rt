//! What a reference stands for, against a base (RFC 3986, section 5.2).

ghost use Rattle.std.specs.Prelude.{◌≡◌, ◌++◌, false, IfOk, OnOk, string_bytes};
ghost use Rattle.std.specs.Str.{chars};
ghost use Rattle.owl_characters.specs.Iri.{AllAre, is_iri_character};
ghost use Rattle.iri_references.specs.Resolution.{absolute, front_of, marked, merged, recomposed, resolved_without_scheme, target};
ghost use Rattle.iri_references.specs.Views.{keeps_path, parts_seen, seen};

use crate::cuts::{cut, through_last_slash};
use crate::dot_segments::without_dot_segments;
use crate::parts::Parts;
use crate::scan::{has_scheme, is_empty};
use owl_characters::{NoMemory, Text};
use rdf_terms::Iri;
use std::alloc::Global;

/// The IRI that a reference is without a base: it has to have a scheme. Its
/// characters are such as an IRI may have.
pub fn absolute(alloc: Global, reference: &str) -> Result<Option<Iri>, NoMemory>
    requires { AllAre is_iri_character (chars reference.now) }
    ensures { IfOk result (λ iri. iri ≡ absolute (chars reference.now)) }
{
    if has_scheme(reference) {
        Ok(Some(Iri::known(alloc, reference)?))
    } else {
        Ok(None)
    }
}

/// The characters that a reference without a scheme stands for.
pub fn resolved_without_scheme(alloc: Global, base: &str, reference: &str) -> Result<Text, NoMemory>
    ensures { IfOk result (λ text.
        text ≡ resolved_without_scheme (chars base.now) (chars reference.now)) }
{
    let (scheme, rest) = cut(base, ':');
    let base = Parts::of(rest.unwrap_or(""));
    let reference = Parts::of(reference);
    if reference.keeps_path() {
        let target = Parts {
            query: reference.query.or(base.query),
            fragment: reference.fragment,
            ..base
        };
        return recomposed(alloc, scheme, &target);
    }
    let path = target_path(alloc, &base, &reference)?;
    let target = Parts {
        authority: reference.authority.or(base.authority),
        path: path.as_str(),
        ..reference
    };
    recomposed(alloc, scheme, &target)
}

/// The path that a reference stands for where it has an authority or a path
/// (section 5.2.2).
fn target_path(alloc: Global, base: &Parts<'_>, reference: &Parts<'_>) -> Result<String, NoMemory>
    requires { keeps_path (parts_seen reference.now) ≡ false }
    ensures { IfOk result (λ path. chars (string_bytes path)
        ≡ (target (parts_seen base.now) (parts_seen reference.now)).path) }
{
    if reference.has_own_path() {
        return without_dot_segments(alloc, reference.path);
    }
    let path = merged(alloc, base, reference.path)?;
    without_dot_segments(alloc, path.as_str())
}

/// A relative path put behind the base's (section 5.2.3).
fn merged(alloc: Global, base: &Parts<'_>, path: &str) -> Result<Text, NoMemory>
    ensures { IfOk result (λ text. text ≡ merged (parts_seen base.now) (chars path.now)) }
{
    let front = front_of(base);
    let mut text = Text::with_capacity(alloc, front.len().saturating_add(path.len()))?;
    text.push_str(front)?;
    text.push_str(path)?;
    Ok(text)
}

/// What a relative path is put behind.
fn front_of<'a>(base: &Parts<'a>) -> &'a str
    ensures { chars result.now
        ≡ front_of (seen base.now.authority) (chars base.now.path.now) }
{
    if base.authority.is_some() && is_empty(base.path) {
        return "/";
    }
    through_last_slash(base.path)
}

/// The text of an IRI with this scheme and these parts (section 5.3).
fn recomposed(alloc: Global, scheme: &str, parts: &Parts<'_>) -> Result<Text, NoMemory>
    ensures { IfOk result (λ text. text ≡ recomposed (chars scheme.now) (parts_seen parts.now)) }
{
    let mut text = Text::of(alloc, scheme)?;
    text.push(':')?;
    push_part(&mut text, "//", parts.authority)?;
    text.push_str(parts.path)?;
    push_part(&mut text, "?", parts.query)?;
    push_part(&mut text, "#", parts.fragment)?;
    Ok(text)
}

/// Puts a part at the end with the mark in front of it, where there is one.
fn push_part(text: &mut Text, mark: &str, part: Option<&str>) -> Result<(), NoMemory>
    ensures { OnOk result (text.new ≡ text.old ++ marked (chars mark.now) (seen part.entry)) }
{
    if let Some(part) = part {
        text.push_str(mark)?;
        text.push_str(part)?;
    }
    Ok(())
}
