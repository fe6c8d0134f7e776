// One pair of a comparison for a kind of walk: the list of its specification leaf and that of its group are asked of two graphs that are swept for the kind from its
// roots, and are judged.
#![tactic(auto)]

ghost use Rattle.pairing.specs.Pairs.{tables_of};
ghost use Rattle.pairs.specs.Found.{Findable, FoundAnyRoot};

use groups::{list_at, list_group};
use judging::judge;
use pairing::spec_node;
use reporting::Lengths;
use sorting::ROW_WIDTH;
use totals::Found;

// What is found of one pair for the kind of walk that both graphs are swept for, from the roots of its root row: the list of the specification leaf and that of the group of
// `leaf_row`, its lowest, are asked, and the two are judged; where `asked` the lowest address at which they differ is looked for. What stands in `spare` afterwards is space that was
// worked in.
pub fn pair_found(
    spec_nodes: &[i64],
    spec_edges: &[i64],
    impl_nodes: &[i64],
    impl_edges: &[i64],
    leaf_pairs: &[i64],
    links: &[usize],
    spec_plan: &[usize],
    impl_plan: &[usize],
    spec_state: &mut [i64],
    impl_state: &mut [i64],
    spare: &mut [i64],
    leaf_row: usize,
    asked: bool,
) -> Found
    requires { Findable (λ roots. tables_of spec_nodes.now spec_edges.now impl_nodes.now impl_edges.now roots leaf_pairs.now) leaf_row
        spec_plan.now impl_plan.now links.now spec_state.old impl_state.old spare.old }
    ensures { FoundAnyRoot
        (λ roots. tables_of spec_nodes.now spec_edges.now impl_nodes.now impl_edges.now roots
        leaf_pairs.now) leaf_row spec_plan.now impl_plan.now links.now
        spec_state.old impl_state.old spare.old
        spec_state.new impl_state.new spare.new asked result }
{
    let spec_leaf = spec_node(leaf_pairs, leaf_row);
    let spec = list_at(
        spec_nodes, spec_edges, spec_plan, spec_leaf, spec_state, spare,
    );
    let implementation = list_group(
        impl_nodes, impl_edges, impl_plan, leaf_pairs, links, leaf_row, impl_state, spare,
    );
    let spec_at = ROW_WIDTH * spec.row;
    let impl_at = ROW_WIDTH * implementation.row;
    let judged = judge(
        &mut spec_state[spec_at..],
        spec.count,
        &mut impl_state[impl_at..],
        implementation.count,
        spare,
        asked,
    );
    let verdict = judged.verdict;
    Found {
        verdict,
        lengths: Lengths {
            spec: spec.count,
            implementation: implementation.count,
        },
        address: judged.address,
    }
}
