//! Laws of orders.

ghost use Rattle.std.specs.Prelude.{ℕ, List};
ghost use Rattle.directed_graphs.specs.Cycles.{IsOnCycle, IsOrder};

/// Law: where the nodes of a graph have an order, none is on a cycle.
pub fn ordered_nodes_are_on_no_cycle()
    ensures { (edges : List (List ℕ)) (nodes : List ℕ) → IsOrder edges nodes
        → (node : ℕ) → IsOnCycle edges node → ⊥ }
{}
