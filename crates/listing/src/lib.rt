// The walk of one bit address and the listing of the runs of all paths, from a root to a leaf, for a kind of walk. Both are one recursion over the edges that can
// still reach the leaf, with the remaining chain length falling at each call.
#![tactic(auto)]

ghost use Rattle.std.specs.Prelude.{◌≡◌, true, List, [], ◌∷◌, map, ℕ, ◌+◌, ◌*◌, ◌≤◌, ◌<◌, ℤ, pos, ◌-ℤ◌, length, get_or, take};
ghost use Rattle.model.specs.declared.WalkKind.{WalkKind};
ghost use Rattle.model.specs.Limits.{edge_width};
ghost use Rattle.model.specs.Rows.{Node, Edge};
ghost use Rattle.model.specs.Graph.{Graph, graph_of, NodeRow, node};
ghost use Rattle.model.specs.Runs.{list_of};
ghost use Rattle.model.specs.Calls.{numbers_of, leaf_bits};
ghost use Rattle.model.specs.Quantities.{Subtractable};
ghost use Rattle.model.specs.Taken.{TakenTables};
ghost use Rattle.tables.specs.Tables.{edge_at};
ghost use Rattle.extents.specs.Extents.{GoodRow};
ghost use Rattle.sorting.specs.declared.Row.{Row};
ghost use Rattle.sorting.specs.Rows.{row_width};
ghost use Rattle.listing.specs.Listing.{LinkedTo, Ready, Appended, bit_record, Crossed, WalkerLaws};

use model::{Bits, EDGE_WIDTH, MAX_CHAIN, MAX_EDGES, MAX_NODES, MAX_NUMBERS, WalkKind};
use runs::Run;
use sorting::Row;

// What walks to a leaf by walks of a kind: a run of bit addresses, or one bit address. Over an edge it becomes another, or ends; at the leaf it gives a row.
trait Walker: Copy {
    // its numbers are small enough to compute with
    ghost IsSmall: { Self → Type 0 };

    // it may stand on a node, by walks of a kind
    ghost MayStand: { WalkKind → Node → Self → Type 0 };

    // its row at a leaf
    ghost row_of: { Node → Self → Row };

    // the rows that it gives from a node on, and over one edge
    ghost rows: { WalkKind → ℕ → Graph → ℤ → ℤ → Self → List Row };

    ghost rows_over: { WalkKind → ℕ → Graph → ℤ → Self → Edge → List Row };

    // Its row at the leaf.
    fn leaf_row(self, nodes: &[i64], leaf: usize) -> Row
        requires { GoodRow nodes.now leaf × IsSmall self }
        ensures { (es : List ℤ) → result ≡ row_of (node (graph_of nodes.now es) (pos leaf)) self };

    // What it becomes over edge e, or nothing where it ends there.
    fn over(self, nodes: &[i64], edges: &[i64], e: usize, kind: WalkKind) -> Option<Self>
        requires { TakenTables nodes.now edges.now
            × (edge_width * e + edge_width ≤ length edges.now)
            × IsSmall self }
        ensures { Crossed MayStand rows rows_over kind (graph_of nodes.now edges.now) (edge_at edges.now e) self result };
}

impl Walker for Run {
    ghost use Rattle.runs.specs.Clipping.{run_of, SmallRun};
    ghost use Rattle.listing.specs.Listing.{run_row, run_rows, runs_over};

    ghost IsSmall = { λ r. SmallRun (run_of r) };

    ghost MayStand = { λ _ _ r. SmallRun (run_of r) };

    ghost row_of = { λ n r. run_row n (run_of r) };

    ghost rows = { λ kind k g v l r. run_rows kind k g v l (run_of r) };

    ghost rows_over = { λ kind k g l r e. runs_over kind k g l (run_of r) e };

    // Displacement, first and last bit of its record.
    fn leaf_row(self, nodes: &[i64], leaf: usize) -> Row {
        let bit = extents::leaf_bit(nodes, leaf, self.low);
        Row {
            first: self.root.less(bit).0,
            second: self.root.0,
            third: self.root.plus(self.high.less(self.low)).0,
        }
    }

    // The step over the edge: what is left of it.
    fn over(self, nodes: &[i64], edges: &[i64], e: usize, kind: WalkKind) -> Option<Run> {
        steps::step(nodes, edges, e, self, kind)
    }
}

impl Walker for Bits {
    ghost use Rattle.model.specs.Calls.{stands_on};
    ghost use Rattle.extents.specs.Extents.{SmallAddress};
    ghost use Rattle.listing.specs.Listing.{arrival_row, arrival_rows, arrivals_over};

    ghost IsSmall = { λ a. SmallAddress a.0 };

    ghost MayStand = { λ kind n a. (stands_on kind n a.0 ≡ true) × SmallAddress a.0 };

    ghost row_of = { λ n a. arrival_row n a.0 };

    ghost rows = { λ kind k g v l a. arrival_rows kind k g v l a.0 };

    ghost rows_over = { λ kind k g l a e. arrivals_over kind k g l a.0 e };

    // Its leaf bit, and 0 twice.
    fn leaf_row(self, nodes: &[i64], leaf: usize) -> Row {
        Row {
            first: extents::leaf_bit(nodes, leaf, self).0,
            second: 0,
            third: 0,
        }
    }

    // As a run does, it is moved by the bit offset, and then it stands on the node entered or ends.
    fn over(self, nodes: &[i64], edges: &[i64], e: usize, kind: WalkKind) -> Option<Bits> {
        let moved = extents::moved(nodes, edges, e, self);
        let to = tables::edge_to(edges, e);
        if !extents::stands(nodes, to, moved, kind) {
            return None;
        }
        Some(moved)
    }
}

// A leaf bit, as a pair row gives it.
pub fn leaf_bit(number: i64) -> Bits
    ensures { result.0 ≡ number }
{
    Bits::of(number)
}

// The displacement of a record with its leaf bits so much higher.
pub fn raised_displacement(displacement: i64, at: Bits) -> Bits
    requires { Subtractable displacement at.0 }
    ensures { result.0 ≡ displacement -ℤ at.0 }
{
    Bits::of(displacement).difference(at)
}

// Stores a row behind the first n rows of `out`. Returns how many rows stand there then.
pub fn append_row(out: &mut [i64], n: usize, row: Row) -> usize
    requires { row_width * n + row_width ≤ length out.old }
    ensures { Appended (row ∷ []) out.old out.new n result }
{
    sorting::put_row(out, n, row);
    n + 1
}

// The edge that a pass along the links goes on with behind edge e.
fn edge_behind(next: &[usize], e: usize) -> usize
    requires { e < length next.now }
    ensures { result ≡ get_or next.now e 0 }
{
    next[e]
}

// Walks what may stand on node v to the leaf by walks of this kind, over at most `left` edges: a row for each that arrives, behind the first n rows of `out`. Returns
// how many rows stand there then. Goes over the linked edges alone.
fn walk_from<W: Walker>(
    nodes: &[i64],
    edges: &[i64],
    head: &[usize],
    next: &[usize],
    leaf: usize,
    v: usize,
    walker: W,
    left: usize,
    kind: WalkKind,
    out: &mut [i64],
    n: usize,
) -> usize
    requires laws { WalkerLaws W.IsSmall W.MayStand W.row_of W.rows W.rows_over }
    requires start { LinkedTo nodes.now edges.now leaf head.now next.now
        × NodeRow (graph_of nodes.now edges.now) (pos v)
        × W.MayStand kind (node (graph_of nodes.now edges.now) (pos v)) walker
        × (row_width * (n + length (W.rows kind left (graph_of nodes.now edges.now) (pos v) (pos leaf) walker)) ≤ length out.old) }
    ensures { Appended (W.rows kind left (graph_of nodes.now edges.now) (pos v) (pos leaf) walker) out.old out.new n result }
{
    if v == leaf {
        return append_row(out, n, walker.leaf_row(nodes, leaf));
    }
    if left == 0 {
        return n;
    }
    let mut m = n;
    // The edges that leave a node are linked, each to the next: no range has them.
    let mut e = head[v];
    while e < edges.len() / EDGE_WIDTH {
        if let Some(entered) = walker.over(nodes, edges, e, kind) {
            let to = tables::edge_to(edges, e);
            m = walk_from(
                nodes,
                edges,
                head,
                next,
                leaf,
                to,
                entered,
                left - 1,
                kind,
                out,
                m,
            );
        }
        e = edge_behind(next, e);
    }
    m
}

// Lists the bitmapping list of a root and a leaf for walks of this kind, in n log n steps for n paths, each of at most MAX_CHAIN edges: its records stand
// in front of `work`, first, last and displacement of each. Returns how many they are: none where the root is closed to the kind. What stands behind them is space that was worked in.
pub fn list_pair(
    nodes: &[i64],
    edges: &[i64],
    root: usize,
    leaf: usize,
    kind: WalkKind,
    counts: &[usize],
    work: &mut [i64],
) -> usize
    requires { Ready nodes.now edges.now root leaf counts.now work.old }
    ensures value { result ≡ length (list_of kind (graph_of nodes.now edges.now) (pos root) (pos leaf)) }
    ensures work_after { take (row_width * result) work.new ≡ numbers_of (list_of kind (graph_of nodes.now edges.now) (pos root) (pos leaf)) }
{
    let root_open = extents::is_open(nodes, root, kind);
    if !root_open {
        return 0;
    }
    let mut head = [0usize; MAX_NODES];
    let mut next = [0usize; MAX_EDGES];
    let mut spare = [0i64; MAX_NUMBERS];
    reach::link_edges(nodes, edges, counts, &mut head, &mut next);
    let run = extents::whole(nodes, root);
    let left = MAX_CHAIN;
    let n = walk_from(
        nodes, edges, &head, &next, leaf, root, run, left, kind, work, 0,
    );
    normalisation::normalise(work, n, &mut spare)
}

// Walks a bit address from a root to a leaf by walks of this kind: the distinct leaf bits, ascending, stand in front of `work`, each as the displacement of a record of
// bit 0. Returns how many they are. What stands behind them is space that was worked in.
pub fn walk_pair(
    nodes: &[i64],
    edges: &[i64],
    root: usize,
    leaf: usize,
    address: i64,
    kind: WalkKind,
    counts: &[usize],
    work: &mut [i64],
) -> usize
    requires { Ready nodes.now edges.now root leaf counts.now work.old }
    ensures value { result ≡ length (leaf_bits kind (graph_of nodes.now edges.now) (pos root) (pos leaf) address) }
    ensures work_after { take (row_width * result) work.new
        ≡ numbers_of (map bit_record (leaf_bits kind (graph_of nodes.now edges.now) (pos root) (pos leaf) address)) }
{
    let bit = Bits::of(address);
    if !extents::stands(nodes, root, bit, kind) {
        return 0;
    }
    let mut head = [0usize; MAX_NODES];
    let mut next = [0usize; MAX_EDGES];
    let mut spare = [0i64; MAX_NUMBERS];
    reach::link_edges(nodes, edges, counts, &mut head, &mut next);
    let n = walk_from(
        nodes, edges, &head, &next, leaf, root, bit, MAX_CHAIN, kind, work, 0,
    );
    normalisation::normalise(work, n, &mut spare)
}
