// The bits of nodes and edges: first and last bit, those on which a kind of walk may stand, bit offset; and one bit address over an edge, in the order of the step: it is `moved`, and then `stands` or ends.
#![tactic(auto)]

ghost use Rattle.std.specs.Prelude.{◌≡◌, true, List, ◌↔◌, ◌+◌, ◌*◌, ◌≤◌, ℤ, pos, ◌-ℤ◌, length};
ghost use Rattle.model.specs.Limits.{edge_width};
ghost use Rattle.model.specs.Graph.{graph_of, node, first_bit, bit_offset};
ghost use Rattle.model.specs.Runs.{is_open};
ghost use Rattle.model.specs.Calls.{stands_on};
ghost use Rattle.model.specs.Taken.{AllOpen, TakenTables};
ghost use Rattle.tables.specs.Tables.{edge_at};
ghost use Rattle.runs.specs.Clipping.{run_of};
ghost use Rattle.extents.specs.Extents.{SmallAddress, ExtentOf, OpenExtent, bits_of, GoodRow};

use model::{Bits, NODE_WIDTH, READ_ONLY, READ_WRITE, WRITE_ONLY, WalkKind};
use runs::Run;

// The first and the last bit of a node.
#[derive(Clone, Copy)]
pub struct Extent {
    pub first: Bits,
    pub last: Bits,
}

// The first and the last bit of node v.
fn extent_of(nodes: &[i64], v: usize) -> Extent
    requires { GoodRow nodes.now v }
    ensures { (es : List ℤ) → ExtentOf (node (graph_of nodes.now es) (pos v)) result.first.0 result.last.0 }
{
    let row = tables::node_at(nodes, v);
    Extent {
        first: tables::node_first_bit(row),
        last: tables::node_last_bit(row),
    }
}

// Whether walks of this kind may stand on node v: a reading walk may not where it is write only, a writing walk not where it is read only.
pub fn is_open(nodes: &[i64], v: usize, kind: WalkKind) -> bool
    requires { GoodRow nodes.now v }
    ensures { (es : List ℤ) → result ≡ is_open kind (node (graph_of nodes.now es) (pos v)) }
{
    let row = tables::node_at(nodes, v);
    match kind {
        WalkKind::Reading => row.access != WRITE_ONLY,
        WalkKind::Writing => row.access != READ_ONLY,
    }
}

// The first and the last bit of node v on which a walk of this kind may stand: where the node is closed the last is the bit before the first.
fn open_extent(nodes: &[i64], v: usize, kind: WalkKind) -> Extent
    requires { GoodRow nodes.now v }
    ensures { (es : List ℤ) → OpenExtent kind (node (graph_of nodes.now es) (pos v)) result.first.0 result.last.0 }
{
    let extent = extent_of(nodes, v);
    if is_open(nodes, v, kind) {
        return extent;
    }
    Extent {
        last: extent.first.previous(),
        ..extent
    }
}

// The first and the last bit of the node that edge e enters on which a walk of this kind may stand.
pub fn entered_extent(nodes: &[i64], edges: &[i64], e: usize, kind: WalkKind) -> Extent
    requires { TakenTables nodes.now edges.now × (edge_width * e + edge_width ≤ length edges.now) }
    ensures { OpenExtent kind (node (graph_of nodes.now edges.now) (edge_at edges.now e).to) result.first.0 result.last.0 }
{
    open_extent(nodes, tables::edge_to(edges, e), kind)
}

// The bit offset of edge e: its offset in units of the node that it enters.
pub fn offset_of(nodes: &[i64], edges: &[i64], e: usize) -> Bits
    requires { TakenTables nodes.now edges.now × (edge_width * e + edge_width ≤ length edges.now) }
    ensures { result.0 ≡ bit_offset (graph_of nodes.now edges.now) (edge_at edges.now e) }
{
    let row = tables::edge_at(edges, e);
    let entered = tables::node_at(nodes, tables::edge_to(edges, e));
    tables::edge_bit_offset(row.offset, entered.unit)
}

// All bits of node v, whichever walks may stand on it.
pub fn whole(nodes: &[i64], v: usize) -> Run
    requires { GoodRow nodes.now v }
    ensures { (es : List ℤ) → run_of result ≡ bits_of (node (graph_of nodes.now es) (pos v)) }
{
    let Extent { first, last } = extent_of(nodes, v);
    Run {
        root: first,
        low: first,
        high: last,
    }
}

// Whether a walk of this kind may stand on node v with this bit address: the clip of one bit address (000, 2.15 and 2.16).
pub fn stands(nodes: &[i64], v: usize, a: Bits, kind: WalkKind) -> bool
    requires { GoodRow nodes.now v }
    ensures { (es : List ℤ) → result ≡ stands_on kind (node (graph_of nodes.now es) (pos v)) a.0 }
{
    let Extent { first, last } = open_extent(nodes, v, kind);
    first <= a && a <= last
}

// The bit address that a becomes over edge e: the shift of one bit address (000, 2.3 to 2.5).
pub fn moved(nodes: &[i64], edges: &[i64], e: usize, a: Bits) -> Bits
    requires { TakenTables nodes.now edges.now × (edge_width * e + edge_width ≤ length edges.now) × SmallAddress a.0 }
    ensures { result.0 ≡ a.0 -ℤ bit_offset (graph_of nodes.now edges.now) (edge_at edges.now e) }
{
    let offset = offset_of(nodes, edges, e);
    a.less(offset)
}

// The leaf bit of a bit address at a leaf, counted from the leaf's first bit.
pub fn leaf_bit(nodes: &[i64], leaf: usize, a: Bits) -> Bits
    requires { GoodRow nodes.now leaf × SmallAddress a.0 }
    ensures { (es : List ℤ) → result.0 ≡ a.0 -ℤ first_bit (node (graph_of nodes.now es) (pos leaf)) }
{
    a.less(extent_of(nodes, leaf).first)
}

// Whether every node of a table may be read and written.
pub fn all_open(nodes: &[i64]) -> bool
    ensures { (result ≡ true) ↔ ((es : List ℤ) → AllOpen (graph_of nodes.now es)) }
{
    for v in 0..nodes.len() / NODE_WIDTH {
        let row = tables::node_at(nodes, v);
        if row.access != READ_WRITE {
            return false;
        }
    }
    true
}
