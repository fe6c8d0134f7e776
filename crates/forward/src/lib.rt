// The plan of a graph for a comparison, made once: the edges that lead to a paired leaf, from the roots down, and for each node the edges that enter it.
#![tactic(auto)]

ghost use Rattle.std.specs.Prelude.{◌≡◌, ◌+◌, ◌≤◌, ◌<◌, length, get_or, set};
ghost use Rattle.lists.specs.Lists.{◌∈◌};
ghost use Rattle.forward.specs.Forward.{head_at, next_at, planned_count, plan_room, Planned, LeadingTo, nodes_in, Plannable};
ghost use Rattle.forward.specs.Passes.{Marking, Markable, BackwardRows, Spread, leading_rows, plan_with, HeadsSet, Linkable, EnteringLinked};

use model::{EDGE_WIDTH, MAX_NODES, NODE_WIDTH, PAIR_WIDTH};
use pairing::pair_node;
use tables::{edge_from, edge_to};

// The numbers of a plan, and where its parts begin.
pub const PLAN_ROOM: usize = 7201;

const HEAD_AT: usize = 2600;

const NEXT_AT: usize = 4600;

const COUNT_AT: usize = 7200;

// How many edges a plan has in forward order.
pub fn planned_count(plan: &[usize]) -> usize
    requires { length plan.now ≡ plan_room }
    ensures { result ≡ planned_count plan.now }
{
    plan[COUNT_AT]
}

// Edge row i of those in forward order.
pub fn planned_row(plan: &[usize], i: usize) -> usize
    requires { i < length plan.now }
    ensures { result ≡ get_or plan.now i 0 }
{
    plan[i]
}

// The first edge row that enters node v, the number of edges where there is none.
pub fn first_entering(plan: &[usize], v: usize) -> usize
    requires { head_at + v < length plan.now }
    ensures { result ≡ get_or plan.now (head_at + v) 0 }
{
    plan[HEAD_AT + v]
}

// The edge row behind row e that enters the same node, the number of edges where there is none.
pub fn next_entering(plan: &[usize], e: usize) -> usize
    requires { next_at + e < length plan.now }
    ensures { result ≡ get_or plan.now (next_at + e) 0 }
{
    plan[NEXT_AT + e]
}

// Marks the nodes in a column of a pair table.
fn mark_leaves(pairs: &[i64], column: usize, marks: &mut [bool])
    requires { Markable pairs.now column marks.old }
    ensures { Marking marks.new (λ v. v ∈ nodes_in column pairs.now) }
{
    for k in 0..pairs.len() / PAIR_WIDTH {
        marks[pair_node(pairs, column, k)] = true;
    }
}

// Marks every node that leads to a marked one. One pass over the edges in an order that has each edge behind all edges that leave the node it enters.
fn mark_leading(edges: &[i64], order: &[usize], marks: &mut [bool])
    requires { BackwardRows edges.now order.now (length marks.old) }
    ensures { Spread edges.now marks.old marks.new }
{
    for &e in &order[..edges.len() / EDGE_WIDTH] {
        let from = edge_from(edges, e);
        let to = edge_to(edges, e);
        if marks[to] {
            marks[from] = true;
        }
    }
}

// Stores the rows of the edges that enter a marked node in front of a plan, in the order from the roots down, and how many they are.
fn store_leading(edges: &[i64], order: &[usize], marks: &[bool], plan: &mut [usize])
    requires backward_rows { BackwardRows edges.now order.now (length marks.now) }
    requires plan_len { length plan.old ≡ plan_room }
    ensures { plan.new ≡ plan_with (leading_rows edges.now order.now marks.now) plan.old }
{
    let mut leading = 0;
    for i in (0..edges.len() / EDGE_WIDTH).rev() {
        let e = order[i];
        let to = edge_to(edges, e);
        if marks[to] {
            plan[leading] = e;
            leading += 1;
        }
    }
    plan[COUNT_AT] = leading;
}

// Sets the heads of the first `count` nodes to `value`.
fn set_heads(plan: &mut [usize], count: usize, value: usize)
    requires { head_at + count ≤ length plan.old }
    ensures { HeadsSet count value plan.old plan.new }
{
    plan[HEAD_AT..HEAD_AT + count].fill(value);
}

// Makes edge e, which enters node `to`, the first of those that enter it.
fn link_first(plan: &mut [usize], e: usize, to: usize)
    requires { (head_at + to < length plan.old) × (next_at + e < length plan.old) }
    ensures { plan.new ≡ set (set plan.old (next_at + e) (get_or plan.old (head_at + to) 0)) (head_at + to) e }
{
    plan[NEXT_AT + e] = plan[HEAD_AT + to];
    plan[HEAD_AT + to] = e;
}

// Links the edges that enter each node, from the last edge to the first.
fn link_entering(nodes: &[i64], edges: &[i64], plan: &mut [usize])
    requires { Linkable nodes.now edges.now plan.old }
    ensures { EnteringLinked nodes.now edges.now plan.old plan.new }
{
    let count = edges.len() / EDGE_WIDTH;
    set_heads(plan, nodes.len() / NODE_WIDTH, count);
    for e in (0..count).rev() {
        link_first(plan, e, edge_to(edges, e));
    }
}

// Makes the plan of a graph for the leaves in a column of a pair table.
pub fn plan_graph(
    nodes: &[i64],
    edges: &[i64],
    order: &[usize],
    pairs: &[i64],
    column: usize,
    plan: &mut [usize],
)
    requires { Plannable nodes.now edges.now order.now pairs.now column plan.old }
    ensures planned { Planned nodes.now edges.now plan.new }
    ensures leading_to { LeadingTo nodes.now edges.now (nodes_in column pairs.now) plan.new }
{
    let mut marks = [false; MAX_NODES];
    mark_leaves(pairs, column, &mut marks);
    mark_leading(edges, order, &mut marks);
    link_entering(nodes, edges, plan);
    store_leading(edges, order, &marks, plan);
}
