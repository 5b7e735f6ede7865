//! Of how many triples nodes are the object.

ghost use Rattle.std.specs.Prelude.{◌≡◌, ◌<◌, ◌+◌, ◌++◌, ◌∷◌, [], IfOk, List, Some, length, slice_get, take};
ghost use Rattle.rdf_graph.specs.declared.triple.Triple.{Triple};
ghost use Rattle.rdf_roles.specs.Tables.{IsTableOf};
ghost use Rattle.ttl_levels.specs.NestTables.{AreNamed, IsNamedSo};

use rdf_graph::{Graph, Term};
use rdf_roles::Roles;
use std::alloc::{AllocError, Global};

/// Of how many triples a node is the object.
#[derive(Clone, Copy, Debug)]
pub enum Named {
    Never,
    /// With the place of the triple.
    Once(usize),
    More,
}

impl Named {
    /// Of one triple more, which stands at this place.
    fn once_more(self, place: usize) -> Named
        ensures { (g before : List Triple) (t : Triple) → slice_get g place ≡ Some t
            → IsNamedSo g before t.object self → IsNamedSo g (before ++ t ∷ []) t.object result }
    {
        match self {
            Named::Never => Named::Once(place),
            Named::Once(_) => Named::More,
            Named::More => Named::More,
        }
    }
}

/// Of how many triples of the graph each node is the object, by the numbers of nodes.
pub fn names_of(alloc: Global, graph: &Graph, roles: &Roles) -> Result<Vec<Named>, AllocError>
    requires { IsTableOf graph.now roles.now }
    ensures { IfOk result (λ names. AreNamed graph.now graph.now names.items) }
{
    let mut names = vec![in alloc; Named::Never; roles.len()]?;
    for place in 0..graph.len() {
        name_again(graph, roles, place, &mut names);
    }
    Ok(names)
}

/// Notes of what the triple at this place has as its object.
fn name_again(graph: &Graph, roles: &Roles, place: usize, names: &mut Vec<Named>)
    requires table { IsTableOf graph.now roles.now }
    requires place { place < length graph.now }
    requires named { AreNamed graph.now (take place graph.now) names.old.items }
    ensures { AreNamed graph.now (take (place + 1) graph.now) names.new.items }
{
    let Term::Blank(label) = &graph.at(place).object else {
        return;
    };
    let Some(number) = roles.number(label) else {
        return;
    };
    let named = names[number];
    names[number] = named.once_more(place);
}
