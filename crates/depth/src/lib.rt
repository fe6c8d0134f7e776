// The edges of a graph in the order from the leaves up, and the check of one graph.
#![tactic(auto)]

ghost use Rattle.std.specs.Prelude.{◌≡◌, ◌+◌, ◌≤◌, ◌<◌, length, take};
ghost use Rattle.std.proofs.lemmas.List.Edits.{sets};
ghost use Rattle.model.specs.Limits.{max_edges};
ghost use Rattle.model.specs.Calls.{check_answer};
ghost use Rattle.model.specs.Answers.{checked_answer};
ghost use Rattle.depth.specs.Check.{GraphChecked};
ghost use Rattle.depth.specs.Passes.{up_to, EndsWithin, stamped, enters_stamped, SplitInto, Orderable, Unpeeled, OrderedInto};

use model::{EDGE_WIDTH, MAX_CHAIN, MAX_EDGES, MAX_NODES, Reason};

// What the edges of a graph are: ordered from the leaves up, or with a chain of more than 64 edges, or with a cycle. No Result: edges with a long chain are ordered too.
#[derive(Clone, Copy)]
pub enum Chained {
    Ordered,
    LongChain,
    Cycle,
}

// Puts the numbers 0 .. count - 1 at the front of `rows`.
fn number_rows(rows: &mut [usize], count: usize)
    requires { count ≤ length rows.old }
    ensures { rows.new ≡ sets rows.old 0 (up_to count) }
{
    for (i, row) in rows[..count].iter_mut().enumerate() {
        *row = i;
    }
}

// Stamps every node that one of the first `left` edge rows of `rest` leaves.
fn stamp_starts(edges: &[i64], rest: &[usize], left: usize, stamp: usize, marks: &mut [usize])
    requires { (left ≤ length rest.now) × EndsWithin edges.now (length marks.old) (take left rest.now) }
    ensures { marks.new ≡ stamped edges.now stamp (take left rest.now) marks.old }
{
    for e in &rest[..left] {
        marks[tables::edge_from(edges, *e)] = stamp;
    }
}

// Keeps, of the first `left` edge rows of `rest`, those that enter a stamped node at its front, and moves the others to `order` from `at` on.
// Gives the number of those that it keeps.
fn split_rows(
    edges: &[i64],
    marks: &[usize],
    stamp: usize,
    rest: &mut [usize],
    left: usize,
    order: &mut [usize],
    at: usize,
) -> usize
    requires { (left ≤ length rest.old) × EndsWithin edges.now (length marks.now) (take left rest.old) × (at + left ≤ length order.old) }
    ensures { SplitInto (enters_stamped edges.now stamp marks.now) left rest.old order.old at result rest.new order.new }
{
    let mut kept = 0;
    for i in 0..left {
        let e = rest[i];
        if marks[tables::edge_to(edges, e)] == stamp {
            rest[kept] = e;
            kept += 1;
        } else {
            order[at + i - kept] = e;
        }
    }
    kept
}

// Orders the edges in rounds. A round moves to `order` the edge rows that no edge left over follows; it costs the edges that are left over.
// Where a round moves none, the edges left over have a cycle.
fn peel(edges: &[i64], rest: &mut [usize], marks: &mut [usize], order: &mut [usize]) -> Chained
    requires { Unpeeled edges.now rest.old marks.old (length order.old) }
    ensures { OrderedInto edges.now order.old result order.new }
{
    let count = edges.len() / EDGE_WIDTH;
    let mut left = count;
    let mut round = 0;
    while 0 < left {
        round += 1;
        stamp_starts(edges, rest, left, round, marks);
        let kept = split_rows(edges, marks, round, rest, left, order, count - left);
        if kept == left {
            return Chained::Cycle;
        }
        left = kept;
    }
    if MAX_CHAIN < round {
        Chained::LongChain
    } else {
        Chained::Ordered
    }
}

// Orders the edges of an edge table from the leaves up: `order` begins with their rows, those first that no edge follows. What stands in `rest` afterwards is
// space that was worked in.
fn order_edges(edges: &[i64], rest: &mut [usize], order: &mut [usize]) -> Chained
    requires { Orderable edges.now (length order.old) × (max_edges ≤ length rest.old) }
    ensures { OrderedInto edges.now order.old result order.new }
{
    let mut marks = [0usize; MAX_NODES];
    number_rows(rest, edges.len() / EDGE_WIDTH);
    peel(edges, rest, &mut marks, order)
}

// The check of one graph whose node table is `table`: refusals 1 to 6. Where its rows are good, `order` begins with its edges in order. What stands in `rest`
// afterwards is space that was worked in.
pub fn check_graph_with(
    nodes: &[i64],
    edges: &[i64],
    table: usize,
    rest: &mut [usize],
    order: &mut [usize],
) -> Result<(), Reason>
    requires { (table < 100) × (max_edges ≤ length rest.old) × (max_edges ≤ length order.old) }
    ensures { GraphChecked table nodes.now edges.now order.old result order.new }
{
    tables::check_rows(nodes, edges, table)?;
    match order_edges(edges, rest, order) {
        Chained::Cycle => Err(Reason::Cycle { table }),
        Chained::LongChain => Err(Reason::LongChain { table }),
        Chained::Ordered => Ok(()),
    }
}

// The check of one graph: taken, or refused. Its tables are 0 and 1.
pub fn check_graph(nodes: &[i64], edges: &[i64]) -> Result<(), Reason>
    ensures { checked_answer result ≡ check_answer nodes.now edges.now }
{
    let mut rest = [0usize; MAX_EDGES];
    let mut order = [0usize; MAX_EDGES];
    check_graph_with(nodes, edges, 0, &mut rest, &mut order)
}
