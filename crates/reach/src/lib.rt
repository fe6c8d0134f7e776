// Counts of the paths to a leaf, and the edges that can still reach it, linked by the node that they leave.
#![tactic(auto)]

ghost use Rattle.std.specs.Prelude.{◌≡◌, ◌++◌, ◌+◌, ◌≤◌, ◌<◌, pos, length, get_or, set, replicate, drop};
ghost use Rattle.model.specs.Limits.{max_paths};
ghost use Rattle.model.specs.Graph.{graph_of};
ghost use Rattle.reach.specs.Counting.{stopped, counts_over, Countable};
ghost use Rattle.reach.specs.Links.{Linkable, Linked};

use model::{EDGE_WIDTH, MAX_PATHS, NODE_WIDTH};
use tables::{edge_from, edge_to};

// Sets the counts of the first `count` nodes to what they are before a pass: 1 at the node from which paths are counted, 0 at the others.
pub fn start_counts(counts: &mut [usize], count: usize, node: usize)
    requires { (node < count) × (count ≤ length counts.old) }
    ensures { counts.new ≡ set (replicate count 0 ++ drop count counts.old) node 1 }
{
    counts[..count].fill(0);
    counts[node] = 1;
}

// Adds `more` to the count of node v, which stops one past the limit. Where `more` is 0 nothing is written.
pub fn add_paths(counts: &mut [usize], v: usize, more: usize)
    requires { (v < length counts.old) × (get_or counts.old v 0 ≤ max_paths + 1) × (more ≤ max_paths + 1) }
    ensures { counts.new ≡ set counts.old v (stopped (get_or counts.old v 0 + more)) }
{
    if more != 0 {
        counts[v] = (counts[v] + more).min(MAX_PATHS + 1);
    }
}

// Sets counts[v], for each node v, to the number of paths from v to the leaf, or to MAX_PATHS + 1 where there are more than MAX_PATHS.
// One pass over the edges in an order that has each edge behind all edges that leave the node it enters. An edge into a node without a path adds
// none.
pub fn count_paths(nodes: &[i64], edges: &[i64], order: &[usize], leaf: usize, counts: &mut [usize])
    requires { Countable nodes.now edges.now order.now leaf counts.old }
    ensures { counts.new
        ≡ counts_over (graph_of nodes.now edges.now) (pos leaf) counts.old }
{
    start_counts(counts, nodes.len() / NODE_WIDTH, leaf);
    for &e in &order[..edges.len() / EDGE_WIDTH] {
        let more = counts[edge_to(edges, e)];
        add_paths(counts, edge_from(edges, e), more);
    }
}

// Sets head[v], for each node v, to the first edge that leaves v and enters a node whose count is not 0, and next[e], for each edge e, to the
// first such edge behind e that leaves the same node; to the number of edges where there is none. One pass, from the last edge to the first.
pub fn link_edges(
    nodes: &[i64],
    edges: &[i64],
    counts: &[usize],
    head: &mut [usize],
    next: &mut [usize],
)
    requires { Linkable nodes.now edges.now counts.now head.old next.old }
    ensures { Linked counts.now (graph_of nodes.now edges.now) head.old next.old head.new next.new }
{
    let count = edges.len() / EDGE_WIDTH;
    head[..nodes.len() / NODE_WIDTH].fill(count);
    for e in (0..count).rev() {
        let from = edge_from(edges, e);
        let to = edge_to(edges, e);
        next[e] = head[from];
        if counts[to] != 0 {
            head[from] = e;
        }
    }
}
