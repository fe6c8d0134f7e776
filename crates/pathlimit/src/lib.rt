// Refusal 10: the first pair in visiting order with more than MAX_PATHS paths. One count of the paths from a root in each graph serves all groups.
#![tactic(auto)]

ghost use Rattle.std.specs.Prelude.{◌≡◌, ◌/◌, ◌≤◌, ◌<◌, length};
ghost use Rattle.model.specs.Limits.{pair_width, max_nodes};
ghost use Rattle.model.specs.Rows.{pair_rows};
ghost use Rattle.model.specs.Compare.{lowest_rows};
ghost use Rattle.model.specs.Checks.{first_refusal};
ghost use Rattle.model.specs.Calls.{answer};
ghost use Rattle.model.specs.Answers.{checked_answer};
ghost use Rattle.tables.specs.Tables.{pair_at};
ghost use Rattle.pairing.specs.Pairs.{tables_of};
ghost use Rattle.pathlimit.specs.Inputs.{Plans};
ghost use Rattle.pathlimit.specs.Counting.{Countable, Counted};
ghost use Rattle.pathlimit.specs.Checks.{check_paths, check_row, check_counts, check_group, GroupsCounted};

use forward::{planned_count, planned_row};
use grouping::{group_count, group_row, group_total};
use model::{IMPL_EDGES, MAX_PATHS, NODE_WIDTH, PAIR_WIDTH, ROOT_STRIDE, Reason, SPEC_EDGES};
use pairing::{impl_node, spec_node};
use reach::{add_paths, start_counts};
use tables::{edge_from, edge_to};

// Sets counts[v], for each node v whose entering edges the plan has, to the number of paths from the root to v, or to MAX_PATHS + 1 where there are
// more than MAX_PATHS. One pass over the edges of the plan, each behind all edges that enter the node it leaves. An edge from a node without a path
// adds none.
fn count_from(nodes: &[i64], edges: &[i64], plan: &[usize], root: usize, counts: &mut [usize])
    requires { Countable nodes.now edges.now plan.now root counts.old }
    ensures { Counted nodes.now edges.now plan.now root counts.new }
{
    start_counts(counts, nodes.len() / NODE_WIDTH, root);
    for i in 0..planned_count(plan) {
        let e = planned_row(plan, i);
        let more = counts[edge_from(edges, e)];
        add_paths(counts, edge_to(edges, e), more);
    }
}

// Refusal 10 of a pair at this place in visiting order, by the counts of its paths. The specification comes first.
fn check_counts(place: usize, spec_count: usize, impl_count: usize) -> Result<(), Reason>
    ensures { checked_answer result ≡ answer (check_counts place spec_count impl_count) tt }
{
    if spec_count > MAX_PATHS {
        return Err(Reason::ManyPaths {
            table: SPEC_EDGES,
            row: place,
        });
    }
    if impl_count > MAX_PATHS {
        return Err(Reason::ManyPaths {
            table: IMPL_EDGES,
            row: place,
        });
    }
    Ok(())
}

// Refusal 10 of a root row with the groups one after the other, by the counts of the paths from its roots: at the specification leaf of a group, and at its banks
// together. A group is told by its lowest row.
fn check_groups(
    leaf_pairs: &[i64],
    links: &[usize],
    root_row: usize,
    spec_counts: &[usize],
    impl_counts: &[usize],
) -> Result<(), Reason>
    requires { GroupsCounted leaf_pairs.now links.now root_row spec_counts.now impl_counts.now }
    ensures { checked_answer result
        ≡ answer (first_refusal (check_group (pair_rows leaf_pairs.now) spec_counts.now impl_counts.now root_row)
        (lowest_rows (pair_rows leaf_pairs.now))) tt }
{
    for k in 0..group_count(links) {
        let leaf_row = group_row(links, k);
        let spec_leaf = spec_node(leaf_pairs, leaf_row);
        let place = root_row * ROOT_STRIDE + leaf_row;
        let impl_count = group_total(leaf_pairs, links, leaf_row, impl_counts);
        check_counts(place, spec_counts[spec_leaf], impl_count)?;
    }
    Ok(())
}

// Refusal 10 of a root row: the paths from its two roots are counted, then the groups are checked.
fn check_row(
    spec_nodes: &[i64],
    spec_edges: &[i64],
    impl_nodes: &[i64],
    impl_edges: &[i64],
    root_pairs: &[i64],
    leaf_pairs: &[i64],
    spec_plan: &[usize],
    impl_plan: &[usize],
    links: &[usize],
    root_row: usize,
    spec_counts: &mut [usize],
    impl_counts: &mut [usize],
) -> Result<(), Reason>
    requires { Plans (tables_of spec_nodes.now spec_edges.now impl_nodes.now impl_edges.now root_pairs.now leaf_pairs.now)
        spec_plan.now impl_plan.now links.now
        × (max_nodes ≤ length spec_counts.old) × (max_nodes ≤ length impl_counts.old) × (root_row < length root_pairs.now / pair_width) }
    ensures { checked_answer result
        ≡ answer (check_row
        (tables_of spec_nodes.now spec_edges.now impl_nodes.now impl_edges.now
        root_pairs.now leaf_pairs.now)
        (pair_at root_pairs.now root_row)) tt }
{
    let spec_root = spec_node(root_pairs, root_row);
    let impl_root = impl_node(root_pairs, root_row);
    count_from(spec_nodes, spec_edges, spec_plan, spec_root, spec_counts);
    count_from(impl_nodes, impl_edges, impl_plan, impl_root, impl_counts);
    check_groups(leaf_pairs, links, root_row, spec_counts, impl_counts)
}

// Refusal 10: the first pair in visiting order with more than MAX_PATHS paths, the specification first. Where neither plan has an edge no path leads
// to a paired leaf. What `spec_counts` and `impl_counts` held does not matter.
pub fn check_paths(
    spec_nodes: &[i64],
    spec_edges: &[i64],
    impl_nodes: &[i64],
    impl_edges: &[i64],
    root_pairs: &[i64],
    leaf_pairs: &[i64],
    spec_plan: &[usize],
    impl_plan: &[usize],
    links: &[usize],
    spec_counts: &mut [usize],
    impl_counts: &mut [usize],
) -> Result<(), Reason>
    requires { Plans (tables_of spec_nodes.now spec_edges.now impl_nodes.now impl_edges.now root_pairs.now leaf_pairs.now)
        spec_plan.now impl_plan.now links.now
        × (max_nodes ≤ length spec_counts.old) × (max_nodes ≤ length impl_counts.old) }
    ensures { checked_answer result
        ≡ answer (check_paths
        (tables_of spec_nodes.now spec_edges.now impl_nodes.now impl_edges.now
        root_pairs.now leaf_pairs.now)) tt }
{
    if planned_count(spec_plan) + planned_count(impl_plan) == 0 {
        return Ok(());
    }
    for root_row in 0..root_pairs.len() / PAIR_WIDTH {
        check_row(
            spec_nodes,
            spec_edges,
            impl_nodes,
            impl_edges,
            root_pairs,
            leaf_pairs,
            spec_plan,
            impl_plan,
            links,
            root_row,
            spec_counts,
            impl_counts,
        )?;
    }
    Ok(())
}
