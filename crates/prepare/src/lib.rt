// What comes before a comparison: all checks of its tables, the plans of both graphs, and the links of groups.
#![tactic(auto)]

ghost use Rattle.std.specs.Prelude.{◌≡◌, length};
ghost use Rattle.forward.specs.Forward.{plan_room};
ghost use Rattle.grouping.specs.Links.{link_room};
ghost use Rattle.pairing.specs.Pairs.{tables_of};
ghost use Rattle.prepare.specs.Prepared.{Prepared};

use depth::check_graph_with;
use forward::plan_graph;
use grouping::link_banks;
use model::{IMPL_NODES, MAX_EDGES, Reason, SPEC_NODES};
use paircheck::check_pairing;
use pairing::{IMPL_COLUMN, SPEC_COLUMN};
use pathlimit::check_paths;

// Checks the tables of a comparison, makes for each graph the plan of the edges that lead to its paired leaves, and links the groups of leaf pairs. The work space of the first graph, and that of
// the second, has its edges in order, then the counts of its paths; a plan is work space before it is made. Where the tables are refused, what stands in
// the plans and the links is space that was worked in.
pub fn prepare(
    spec_nodes: &[i64],
    spec_edges: &[i64],
    impl_nodes: &[i64],
    impl_edges: &[i64],
    root_pairs: &[i64],
    leaf_pairs: &[i64],
    spec_plan: &mut [usize],
    impl_plan: &mut [usize],
    links: &mut [usize],
) -> Result<(), Reason>
    requires { (length spec_plan.old ≡ plan_room) × (length impl_plan.old ≡ plan_room) × (length links.old ≡ link_room) }
    ensures { Prepared
        (tables_of spec_nodes.now spec_edges.now impl_nodes.now impl_edges.now
        root_pairs.now leaf_pairs.now)
        result spec_plan.new impl_plan.new links.new }
{
    let mut first = [0usize; MAX_EDGES];
    let mut second = [0usize; MAX_EDGES];
    check_graph_with(spec_nodes, spec_edges, SPEC_NODES, spec_plan, &mut first)?;
    check_graph_with(impl_nodes, impl_edges, IMPL_NODES, impl_plan, &mut second)?;
    check_pairing(
        spec_nodes, spec_edges, impl_nodes, impl_edges, root_pairs, leaf_pairs,
    )?;
    plan_graph(
        spec_nodes,
        spec_edges,
        &first,
        leaf_pairs,
        SPEC_COLUMN,
        spec_plan,
    );
    plan_graph(
        impl_nodes,
        impl_edges,
        &second,
        leaf_pairs,
        IMPL_COLUMN,
        impl_plan,
    );
    link_banks(leaf_pairs, links);
    check_paths(
        spec_nodes,
        spec_edges,
        impl_nodes,
        impl_edges,
        root_pairs,
        leaf_pairs,
        spec_plan,
        impl_plan,
        links,
        &mut first,
        &mut second,
    )
}
