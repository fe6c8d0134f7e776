// The pairs of one root row of a comparison for a kind of walk: one sweep of each graph from its roots serves all groups of leaves, and what is found of each is held.
#![tactic(auto)]

ghost use Rattle.std.specs.Prelude.{◌≡◌, ◌&&◌, eqb};
ghost use Rattle.model.specs.Answers.{verdict_number};
ghost use Rattle.pairing.specs.Pairs.{tables_of};
ghost use Rattle.rowpairs.specs.RowPairs.{RowSweepable, RowSwept, HeldRow, RowHoldable, PairsHeld, RowReady};

use arrivals::sweep_root;
use grouping::{group_count, group_row};
use holding::hold;
use model::{Verdict, WalkKind};
use pairing::{impl_node, spec_node};
use pairs::pair_found;
use totals::Found;

// Sweeps both graphs for a kind of walk from the roots of a root row. What stands in `spare` afterwards is space that was worked in.
fn sweep_row(
    spec_nodes: &[i64],
    spec_edges: &[i64],
    impl_nodes: &[i64],
    impl_edges: &[i64],
    root_pairs: &[i64],
    spec_plan: &[usize],
    impl_plan: &[usize],
    spec_state: &mut [i64],
    impl_state: &mut [i64],
    spare: &mut [i64],
    root_row: usize,
    kind: WalkKind,
)
    requires { RowSweepable (λ leaves. tables_of spec_nodes.now spec_edges.now impl_nodes.now impl_edges.now root_pairs.now leaves) root_row
        spec_plan.now impl_plan.now spec_state.old impl_state.old spare.old }
    ensures { RowSwept kind
        (λ leaves. tables_of spec_nodes.now spec_edges.now impl_nodes.now impl_edges.now
        root_pairs.now leaves) root_row spec_plan.now impl_plan.now
        spec_state.new impl_state.new spare.new }
{
    let spec_root = spec_node(root_pairs, root_row);
    sweep_root(
        spec_nodes, spec_edges, spec_plan, spec_root, kind, spec_state, spare,
    );
    let impl_root = impl_node(root_pairs, root_row);
    sweep_root(
        impl_nodes, impl_edges, impl_plan, impl_root, kind, impl_state, spare,
    );
}

// Whether the lowest bit address is still asked for behind a pair: it was for the pair, and the pair is equal.
fn still_asked(asked: bool, found: Found) -> bool
    ensures { result ≡ asked && eqb (verdict_number found.verdict) 0 }
{
    asked && found.verdict == Verdict::Equal
}

// Finds the pairs of a root row, group by group, once both graphs are swept for a kind of walk from its roots, and holds what is found of each. A group is told by its lowest
// row. The address of a pair is asked for where `asked`, while no pair of the row was unequal: that of a later one is not kept.
fn hold_pairs(
    spec_nodes: &[i64],
    spec_edges: &[i64],
    impl_nodes: &[i64],
    impl_edges: &[i64],
    leaf_pairs: &[i64],
    links: &[usize],
    spec_plan: &[usize],
    impl_plan: &[usize],
    spec_state: &mut [i64],
    impl_state: &mut [i64],
    spare: &mut [i64],
    asked: bool,
    held: &mut [i64],
)
    requires { RowHoldable (λ roots. tables_of spec_nodes.now spec_edges.now impl_nodes.now impl_edges.now roots leaf_pairs.now)
        spec_plan.now impl_plan.now links.now spec_state.old impl_state.old spare.old held.old }
    ensures { PairsHeld
        (λ roots. tables_of spec_nodes.now spec_edges.now impl_nodes.now impl_edges.now roots
        leaf_pairs.now) spec_plan.now impl_plan.now links.now
        spec_state.old impl_state.old spare.old asked held.new }
{
    let mut wanted = asked;
    for group in 0..group_count(links) {
        let lowest = group_row(links, group);
        let found = pair_found(
            spec_nodes, spec_edges, impl_nodes, impl_edges, leaf_pairs, links, spec_plan,
            impl_plan, spec_state, impl_state, spare, lowest, wanted,
        );
        hold(held, group, found);
        wanted = still_asked(wanted, found);
    }
}

// Sweeps both graphs for a kind of walk from the roots of a root row, and holds what is found of its pairs. What stands in the states and in `spare` afterwards is space that was worked in.
pub fn hold_row(
    spec_nodes: &[i64],
    spec_edges: &[i64],
    impl_nodes: &[i64],
    impl_edges: &[i64],
    root_pairs: &[i64],
    leaf_pairs: &[i64],
    links: &[usize],
    spec_plan: &[usize],
    impl_plan: &[usize],
    spec_state: &mut [i64],
    impl_state: &mut [i64],
    spare: &mut [i64],
    root_row: usize,
    kind: WalkKind,
    asked: bool,
    held: &mut [i64],
)
    requires { RowReady (tables_of spec_nodes.now spec_edges.now impl_nodes.now impl_edges.now root_pairs.now leaf_pairs.now) root_row
        spec_plan.now impl_plan.now links.now spec_state.old impl_state.old spare.old held.old }
    ensures { HeldRow kind
        (tables_of spec_nodes.now spec_edges.now impl_nodes.now impl_edges.now
        root_pairs.now leaf_pairs.now) root_row links.now asked held.new }
{
    sweep_row(
        spec_nodes, spec_edges, impl_nodes, impl_edges, root_pairs, spec_plan, impl_plan,
        spec_state, impl_state, spare, root_row, kind,
    );
    hold_pairs(
        spec_nodes, spec_edges, impl_nodes, impl_edges, leaf_pairs, links, spec_plan, impl_plan,
        spec_state, impl_state, spare, asked, held,
    );
}
