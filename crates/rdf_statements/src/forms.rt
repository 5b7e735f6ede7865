//! The axioms that triples are, and that nodes stand for.

ghost use Rattle.std.specs.Prelude.{◌≡◌, IfOk, IfSome, IsNone};
ghost use Rattle.std.specs.List.{AllByRecursion};
ghost use Rattle.rdf_graph.specs.declared.term.Term.TheVariants.{Blank};
ghost use Rattle.rdf_meaning.specs.Denotation.{Bearer, of_node, of_triple};
ghost use Rattle.rdf_meaning.specs.Nodes.{of_subject, role_of};
ghost use Rattle.rdf_roles.specs.Refusals.{AreNodesFormed};
ghost use Rattle.rdf_roles.specs.Tables.{IsTableOf};
ghost use Rattle.rdf_statements.specs.Forms.{AreKids, ArePlacesOf, IsAxiomForm, IsGivenAt, IsNoAxiom, StandAtPart};

use crate::form::{AxiomForm, Kid};
use crate::kids::kids_of_term;
use crate::places::{Places, term_at};
use owl_characters::NoMemory;
use rdf_graph::{Term, Triple};
use rdf_meaning::{Part, Role, axiom_rows};
use rdf_nodes::Source;
use rdf_rows::{NodeWords, site_of};
use rdf_scans::is_same_site;
use rdf_terms::Label;

/// What the triple is made of as an axiom, by a row of its site whose parts stand
/// for something (Mapping to RDF Graphs, tables 16 and 17).
pub fn form_of_triple(source: &Source, triple: &Triple) -> Result<Option<AxiomForm>, NoMemory>
    requires { IsTableOf source.now.graph.now source.now.roles.now }
    ensures form { IfOk result (λ found. IfSome found (
        IsAxiomForm source.now.graph.now source.now.kinds.now source.now.roles.now
        (of_triple triple.now))) }
    ensures none { AreNodesFormed source.now.graph.now → IfOk result (λ found. IsNone found →
        IsNoAxiom source.now.graph.now source.now.kinds.now (of_triple triple.now)) }
{
    let predicate = Term::Iri(triple.predicate.copy(source.alloc)?);
    let places = Places {
        triples: &[],
        subject: Some(&triple.subject),
        predicate: Some(&predicate),
        object: Some(&triple.object),
    };
    form_at_site(source, &places, triple)
}

/// So, with the terms at the triple's places.
fn form_at_site(
    source: &Source,
    places: &Places,
    triple: &Triple,
) -> Result<Option<AxiomForm>, NoMemory>
    requires table { IsTableOf source.now.graph.now source.now.roles.now }
    requires places { ArePlacesOf source.now.graph.now (of_triple triple.now) places.now }
    ensures form { IfOk result (λ found. IfSome found (
        IsAxiomForm source.now.graph.now source.now.kinds.now source.now.roles.now
        (of_triple triple.now))) }
    ensures none { AreNodesFormed source.now.graph.now → IfOk result (λ found. IsNone found →
        IsNoAxiom source.now.graph.now source.now.kinds.now (of_triple triple.now)) }
{
    let site = site_of(triple);
    for row in axiom_rows() {
        if is_same_site(row.site, site) {
            if let Some(kids) = kids_of_row(source, places, row.parts)? {
                return Ok(Some(AxiomForm { tag: row.tag, kids }));
            }
        }
    }
    Ok(None)
}

/// What the node is made of as an axiom, by the row that it fits and whose parts
/// stand for something (Mapping to RDF Graphs, tables 16 and 17).
pub fn form_of_node(source: &Source, label: &Label) -> Result<Option<AxiomForm>, NoMemory>
    requires { IsTableOf source.now.graph.now source.now.roles.now }
    ensures form { IfOk result (λ found. IfSome found (
        IsAxiomForm source.now.graph.now source.now.kinds.now source.now.roles.now
        (of_node (Blank label.now)))) }
    ensures none { AreNodesFormed source.now.graph.now → IfOk result (λ found. IsNone found →
        IsNoAxiom source.now.graph.now source.now.kinds.now (of_node (Blank label.now))) }
{
    let node = Term::Blank(label.copy(source.alloc)?);
    let places = Places {
        triples: source.graph.about(&node),
        subject: None,
        predicate: None,
        object: None,
    };
    form_of_role(source, &places, &node, source.roles.role(label))
}

/// So of a node of the role, with the terms at its places.
fn form_of_role(
    source: &Source,
    places: &Places,
    node: &Term,
    role: Role,
) -> Result<Option<AxiomForm>, NoMemory>
    requires table { IsTableOf source.now.graph.now source.now.roles.now }
    requires places { ArePlacesOf source.now.graph.now (of_node node.now) places.now }
    requires triples { places.now.triples.now ≡ of_subject source.now.graph.now node.now }
    requires role { role ≡ role_of source.now.graph.now node.now }
    ensures form { IfOk result (λ found. IfSome found (
        IsAxiomForm source.now.graph.now source.now.kinds.now source.now.roles.now
        (of_node node.now))) }
    ensures none { AreNodesFormed source.now.graph.now → IfOk result (λ found. IsNone found →
        IsNoAxiom source.now.graph.now source.now.kinds.now (of_node node.now)) }
{
    let _node = node;
    let words = NodeWords::of(places.triples);
    for row in axiom_rows() {
        if words.fit(role, row) {
            if let Some(kids) = kids_of_row(source, places, row.parts)? {
                return Ok(Some(AxiomForm { tag: row.tag, kids }));
            }
        }
    }
    Ok(None)
}

/// The kids that stand at the parts of a row.
fn kids_of_row(
    source: &Source,
    places: &Places,
    parts: &[Part],
) -> Result<Option<Vec<Kid>>, NoMemory>
    requires { IsTableOf source.now.graph.now source.now.roles.now }
    ensures kids { (b : Bearer) → ArePlacesOf source.now.graph.now b places.now →
        IfOk result (λ found. IfSome found (λ kids.
        AreKids source.now.graph.now source.now.kinds.now source.now.roles.now b parts.now
        kids.items)) }
    ensures none { (b : Bearer) → ArePlacesOf source.now.graph.now b places.now →
        AreNodesFormed source.now.graph.now → IfOk result (λ found. IsNone found →
        AllByRecursion (IsGivenAt source.now.graph.now source.now.kinds.now b) parts.now → ⊥) }
{
    let mut kids = Vec::new(source.alloc);
    let mut rest = parts;
    while let Some((part, behind)) = rest.split_first() {
        let Some(mut more) = kids_at(source, places, part)? else {
            return Ok(None);
        };
        kids.append(&mut more)?;
        rest = behind;
    }
    Ok(Some(kids))
}

/// The kids that stand at the part.
fn kids_at(source: &Source, places: &Places, part: &Part) -> Result<Option<Vec<Kid>>, NoMemory>
    requires { IsTableOf source.now.graph.now source.now.roles.now }
    ensures kids { (b : Bearer) → ArePlacesOf source.now.graph.now b places.now →
        IfOk result (λ found. IfSome found (λ kids.
        StandAtPart source.now.graph.now source.now.kinds.now source.now.roles.now b part.now
        kids.items)) }
    ensures none { (b : Bearer) → ArePlacesOf source.now.graph.now b places.now →
        AreNodesFormed source.now.graph.now → IfOk result (λ found. IsNone found →
        IsGivenAt source.now.graph.now source.now.kinds.now b part.now → ⊥) }
{
    match term_at(places, part.place) {
        Some(term) => kids_of_term(source, part.want, term),
        None => Ok(None),
    }
}
