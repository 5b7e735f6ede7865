//! Paths without their dot segments (RFC 3986, section 5.2.4).

ghost use Rattle.std.specs.Prelude.{◌≡◌, ◌++◌, IfOk, OnOk, false, string_bytes};
ghost use Rattle.std.specs.Str.{chars};
ghost use Rattle.std.specs.List.{list_any};
ghost use Rattle.iri_references.specs.References.{before, slash};
ghost use Rattle.iri_references.specs.DotSegments.{is_dot_segment, is_double_dot, is_single_dot, last_slash, segments_of, with_segment, with_segments, without_dot_segments, without_last_segment};
ghost use Rattle.iri_references.specs.Views.{seen, segments_behind};

use crate::cuts::cut;
use owl_characters::NoMemory;
use std::alloc::{AllocError, Global};

/// The path without its dot segments.
pub fn without_dot_segments(alloc: Global, path: &str) -> Result<String, NoMemory>
    ensures { IfOk result (λ output.
        chars (string_bytes output) ≡ without_dot_segments (chars path.now)) }
{
    let (front, others) = cut(without_front_dots(path), '/');
    let mut output = String::with_capacity(alloc, path.len())?;
    output.push_str(front)?;
    add_segments(&mut output, others)?;
    Ok(output)
}

/// The path without the dot segments in front of any slash (rules A and D).
fn without_front_dots(path: &str) -> &str
    ensures same { without_dot_segments (chars result.now) ≡ without_dot_segments (chars path.now) }
    ensures front { is_dot_segment (before slash (chars result.now)) ≡ false }
{
    let mut path = path;
    loop {
        let (segment, others) = cut(path, '/');
        if !is_dot_segment(segment) {
            return path;
        }
        match others {
            Some(others) => path = others,
            None => return "",
        }
    }
}

/// Adds the segments of a text that stands behind a slash, where there is one.
fn add_segments(output: &mut String, behind: Option<&str>) -> Result<(), AllocError>
    ensures { OnOk result (chars (string_bytes output.new)
        ≡ with_segments (chars (string_bytes output.old)) (segments_behind (seen behind.entry))) }
{
    let mut rest = behind;
    while let Some(text) = rest {
        let (segment, others) = cut(text, '/');
        add_segment(output, segment, others.is_none())?;
        rest = others;
    }
    Ok(())
}

/// Adds a segment that stands behind a slash (rules B, C and E).
fn add_segment(output: &mut String, segment: &str, is_last: bool) -> Result<(), AllocError>
    ensures { OnOk result (chars (string_bytes output.new)
        ≡ with_segment (chars (string_bytes output.old)) (chars segment.now) is_last) }
{
    if is_single_dot(segment) {
        return add_last_slash(output, is_last);
    }
    if is_double_dot(segment) {
        remove_last_segment(output);
        return add_last_slash(output, is_last);
    }
    output.push('/')?;
    output.push_str(segment)
}

/// Adds the slash that a dot segment leaves at the end of a path.
fn add_last_slash(output: &mut String, is_last: bool) -> Result<(), AllocError>
    ensures { OnOk result (chars (string_bytes output.new)
        ≡ chars (string_bytes output.old) ++ last_slash is_last) }
{
    if is_last { output.push('/') } else { Ok(()) }
}

/// Removes the last segment, and the slash in front of it, if there is one.
fn remove_last_segment(output: &mut String)
    ensures { chars (string_bytes output.new)
        ≡ without_last_segment (chars (string_bytes output.old)) }
{
    let end = output.as_str().rfind('/').unwrap_or(0);
    output.truncate(end);
}

/// Whether a segment of the path is a dot segment.
pub fn has_dot_segment(path: &str) -> bool
    ensures { result ≡ list_any is_dot_segment (segments_of (chars path.now)) }
{
    let mut rest = Some(path);
    while let Some(text) = rest {
        let (segment, others) = cut(text, '/');
        if is_dot_segment(segment) {
            return true;
        }
        rest = others;
    }
    false
}

fn is_dot_segment(segment: &str) -> bool
    ensures { result ≡ is_dot_segment (chars segment.now) }
{
    is_single_dot(segment) || is_double_dot(segment)
}

fn is_single_dot(segment: &str) -> bool
    ensures { result ≡ is_single_dot (chars segment.now) }
{
    segment == "."
}

fn is_double_dot(segment: &str) -> bool
    ensures { result ≡ is_double_dot (chars segment.now) }
{
    segment == ".."
}
