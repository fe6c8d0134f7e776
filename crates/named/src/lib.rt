// The refusals of a root and a leaf that a call names: they are a root and a leaf of the graph, and no more paths lead from one to the other than
// may be.
#![tactic(auto)]

ghost use Rattle.std.specs.Prelude.{◌≡◌, List, ℤ};
ghost use Rattle.integers.specs.Integers.{eq_z};
ghost use Rattle.lists.specs.Lists.{any};
ghost use Rattle.model.specs.Rows.{edge_rows};
ghost use Rattle.model.specs.Graph.{graph_of};
ghost use Rattle.model.specs.Checks.{is_root, is_leaf, check_named};
ghost use Rattle.named.specs.Naming.{kind_of, Nameable, Counted};

use model::{
    BLOCK, EDGE_WIDTH, LEAF_PAIRS, MAX_PATHS, NODE_WIDTH, ROOT_PAIRS, Reason, SEGMENT, SPACE,
    SPEC_EDGES,
};

// Whether some edge of the table enters v.
fn entered(edges: &[i64], v: i64) -> bool
    ensures { result ≡ any (λ e. eq_z e.to v) (edge_rows edges.now) }
{
    for e in 0..edges.len() / EDGE_WIDTH {
        if edges[EDGE_WIDTH * e + 1] == v {
            return true;
        }
    }
    false
}

// The kind of node v, or none where v is no node row.
fn kind_at(nodes: &[i64], v: i64) -> Option<i64>
    ensures { (es : List ℤ) → result ≡ kind_of (graph_of nodes.now es) v }
{
    if !tables::is_row(v, nodes.len() / NODE_WIDTH) {
        return None;
    }
    Some(nodes[NODE_WIDTH * v as usize])
}

// Whether v is the row of a root: a space or segment that no edge enters.
fn is_root(nodes: &[i64], edges: &[i64], v: i64) -> bool
    ensures { result ≡ is_root (graph_of nodes.now edges.now) v }
{
    let Some(kind) = kind_at(nodes, v) else {
        return false;
    };
    if kind != SPACE && kind != SEGMENT {
        return false;
    }
    !entered(edges, v)
}

// Whether v is the row of a leaf: a block.
fn is_leaf(nodes: &[i64], v: i64) -> bool
    ensures { (es : List ℤ) → result ≡ is_leaf (graph_of nodes.now es) v }
{
    kind_at(nodes, v) == Some(BLOCK)
}

// Refusals 7 and 10 of a root and a leaf of a graph that is taken. Counts the paths to the leaf.
pub fn check_named(
    nodes: &[i64],
    edges: &[i64],
    order: &[usize],
    root: i64,
    leaf: i64,
    counts: &mut [usize],
) -> Result<(), Reason>
    requires { Nameable nodes.now edges.now order.now counts.old }
    ensures { Counted (check_named (graph_of nodes.now edges.now) root leaf)
        nodes.now edges.now leaf counts.old result counts.new }
{
    if !is_root(nodes, edges, root) {
        return Err(Reason::NotRootOrLeaf {
            table: ROOT_PAIRS,
            row: 0,
        });
    }
    if !is_leaf(nodes, leaf) {
        return Err(Reason::NotRootOrLeaf {
            table: LEAF_PAIRS,
            row: 0,
        });
    }
    reach::count_paths(nodes, edges, order, leaf as usize, counts);
    let paths = counts[root as usize];
    if paths > MAX_PATHS {
        return Err(Reason::ManyPaths {
            table: SPEC_EDGES,
            row: 0,
        });
    }
    Ok(())
}
