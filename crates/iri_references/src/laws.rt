//! A law of the definitions.

ghost use Rattle.std.specs.Prelude.{◌≡◌, ◌↔◌, ℕ, List, []};
ghost use Rattle.iri_references.specs.DotSegmentRules.{Removes};
ghost use Rattle.iri_references.specs.DotSegments.{without_dot_segments};

/// A law: a path without its dot segments is what the loop of RFC 3986,
/// section 5.2.4, makes of it, and nothing else.
pub fn dot_segments_go_by_the_rules()
    ensures { (path result : List ℕ)
        → Removes path [] result ↔ (result ≡ without_dot_segments path) }
{}
