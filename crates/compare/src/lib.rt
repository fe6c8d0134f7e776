// The comparison of two graphs: its tables are checked, then all pairs are surveyed.
#![tactic(auto)]

ghost use Rattle.pairing.specs.Pairs.{tables_of};
ghost use Rattle.compare.specs.Promises.{ComparePromise};

use forward::PLAN_ROOM;
use grouping::LINK_ROOM;
use model::{Comparison, Reason};
use prepare::prepare;
use survey::survey;

// More bytes than the lines of all pairs have.
const NO_LIMIT: usize = 4294967296;

// Compares a specification graph with an implementation graph for the roots and leaves that belong together, where leaf pairs with one specification leaf are one
// group: the counts of equal, partial and different pairs, the whole verdict, and the first unequal pair in visiting order with its lowest differing bit address; or the refusal.
pub fn compare(
    spec_nodes: &[i64],
    spec_edges: &[i64],
    impl_nodes: &[i64],
    impl_edges: &[i64],
    root_pairs: &[i64],
    leaf_pairs: &[i64],
) -> Result<Comparison, Reason>
    ensures { ComparePromise
        (tables_of spec_nodes.now spec_edges.now impl_nodes.now impl_edges.now
        root_pairs.now leaf_pairs.now)
        result }
{
    let mut spec_plan = [0usize; PLAN_ROOM];
    let mut impl_plan = [0usize; PLAN_ROOM];
    let mut links = [0usize; LINK_ROOM];
    prepare(
        spec_nodes,
        spec_edges,
        impl_nodes,
        impl_edges,
        root_pairs,
        leaf_pairs,
        &mut spec_plan,
        &mut impl_plan,
        &mut links,
    )?;
    let mut lines = [0usize; 1];
    let kept = survey(
        spec_nodes, spec_edges, impl_nodes, impl_edges, root_pairs, leaf_pairs, &links, &spec_plan,
        &impl_plan, NO_LIMIT, &mut lines,
    );
    Ok(kept.result)
}
