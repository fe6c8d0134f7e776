// What list, walk and batch are asked for: a root and a leaf of a graph, checked, and their bitmapping list for a kind of walk in a work buffer.
#![tactic(auto)]

ghost use Rattle.std.specs.Prelude.{◌*◌, ◌≤◌, length};
ghost use Rattle.model.specs.Limits.{record_width, max_nodes, max_paths};
ghost use Rattle.named.specs.Naming.{Counted};
ghost use Rattle.asked.specs.Asking.{check_asked, ListedAsked};

use model::{MAX_EDGES, MAX_NODES, Reason, WalkKind};

// Refusals 1 to 7 and 10 of a root and a leaf of a graph. Counts the paths to the leaf.
pub fn check_asked(
    nodes: &[i64],
    edges: &[i64],
    root: i64,
    leaf: i64,
    counts: &mut [usize],
) -> Result<(), Reason>
    requires { max_nodes ≤ length counts.old }
    ensures { Counted (check_asked nodes.now edges.now root leaf)
        nodes.now edges.now leaf counts.old result counts.new }
{
    let mut rest = [0usize; MAX_EDGES];
    let mut order = [0usize; MAX_EDGES];
    depth::check_graph_with(nodes, edges, 0, &mut rest, &mut order)?;
    named::check_named(nodes, edges, &order, root, leaf, counts)
}

// The bitmapping list of a root and a leaf for walks of this kind: its records in order, three numbers each, in the front of `work`, and how many they are. Else the first
// of refusals 1 to 7 and 10.
pub fn list_asked(
    nodes: &[i64],
    edges: &[i64],
    root: i64,
    leaf: i64,
    kind: WalkKind,
    work: &mut [i64],
) -> Result<usize, Reason>
    requires { record_width * max_paths ≤ length work.old }
    ensures { ListedAsked kind nodes.now edges.now root leaf result work.new }
{
    let mut counts = [0usize; MAX_NODES];
    check_asked(nodes, edges, root, leaf, &mut counts)?;
    Ok(listing::list_pair(
        nodes,
        edges,
        root as usize,
        leaf as usize,
        kind,
        &counts,
        work,
    ))
}
