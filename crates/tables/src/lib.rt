// The rows of flat tables, and the checks of a graph row by row.
#![tactic(auto)]

ghost use Rattle.std.specs.Prelude.{ℕ, ◌≡◌, ◌+◌, ◌*◌, ◌≤◌, ◌<◌, ◌^◌, pos, neg_ℤ, ◌*ℤ◌, ◌≤ℤ◌, length};
ghost use Rattle.model.specs.Limits.{node_width, edge_width, max_units};
ghost use Rattle.model.specs.Rows.{node_rows, edge_rows};
ghost use Rattle.model.specs.Graph.{Graph, graph_of, first_bit, last_bit};
ghost use Rattle.model.specs.Refusals.{BadNode, AddressUnit};
ghost use Rattle.model.specs.Checks.{first_refusal, check_shape, is_kind, is_unit, is_access, good_extent, good_node, check_node, is_row, good_offset, good_edge, check_edge};
ghost use Rattle.model.specs.Calls.{answer};
ghost use Rattle.model.specs.Answers.{checked_answer};
ghost use Rattle.tables.specs.Tables.{node_at, edge_at, node_of, edge_of, FirstRefused, check_rows};

use model::{
    BLOCK, Bits, EDGE_WIDTH, MAX_EDGES, MAX_NODES, MAX_UNITS, NODE_WIDTH, READ_ONLY, READ_WRITE,
    Reason, SEGMENT, SPACE, Units, WRITE_ONLY,
};

// A node row.
#[derive(Clone, Copy)]
pub struct NodeRow {
    pub kind: i64,
    pub base: Units,
    pub range: Units,
    pub unit: i64,
    pub access: i64,
}

// An edge row.
#[derive(Clone, Copy)]
pub struct EdgeRow {
    pub from: i64,
    pub to: i64,
    pub offset: Units,
}

// Row v of a node table.
pub fn node_at(nodes: &[i64], v: usize) -> NodeRow
    requires { node_width * v + node_width ≤ length nodes.now }
    ensures { node_of v result ≡ node_at nodes.now v }
{
    NodeRow {
        kind: nodes[NODE_WIDTH * v],
        base: Units::of(nodes[NODE_WIDTH * v + 1]),
        range: Units::of(nodes[NODE_WIDTH * v + 2]),
        unit: nodes[NODE_WIDTH * v + 3],
        access: nodes[NODE_WIDTH * v + 4],
    }
}

// Row e of an edge table.
pub fn edge_at(edges: &[i64], e: usize) -> EdgeRow
    requires { edge_width * e + edge_width ≤ length edges.now }
    ensures { edge_of e result ≡ edge_at edges.now e }
{
    EdgeRow {
        from: edges[EDGE_WIDTH * e],
        to: edges[EDGE_WIDTH * e + 1],
        offset: Units::of(edges[EDGE_WIDTH * e + 2]),
    }
}

// The node that edge e leaves, as an index.
pub fn edge_from(edges: &[i64], e: usize) -> usize
    requires { (edge_width * e + edge_width ≤ length edges.now) × (pos 0 ≤ℤ (edge_at edges.now e).from) }
    ensures { pos result ≡ (edge_at edges.now e).from }
{
    edges[EDGE_WIDTH * e] as usize
}

// The node that edge e enters, as an index.
pub fn edge_to(edges: &[i64], e: usize) -> usize
    requires { (edge_width * e + edge_width ≤ length edges.now) × (pos 0 ≤ℤ (edge_at edges.now e).to) }
    ensures { pos result ≡ (edge_at edges.now e).to }
{
    edges[EDGE_WIDTH * e + 1] as usize
}

// Refusal 1: the length is no multiple of the row width, or there are more rows than the limit.
#[tactic(auto, using(crate::proofs::Cells::cells), unfolding(model::specs::Calls::answer, model::specs::Checks::when, model::specs::Checks::check_shape))]
pub fn check_shape(t: &[i64], width: usize, most: usize, table: usize) -> Result<(), Reason>
    requires { (0 < width) × (width * most < 2 ^ 64) }
    ensures { checked_answer result ≡ answer (check_shape table width most t.now) tt }
{
    if t.len() % width != 0 || width * most < t.len() {
        return Err(Reason::Shape { table });
    }
    Ok(())
}

// Whether the number is a kind of node.
#[tactic(auto, using(crate::proofs::Cells::cells), unfolding(model::specs::Checks::is_kind))]
fn is_kind(kind: i64) -> bool
    ensures { result ≡ is_kind kind }
{
    matches!(kind, SPACE | SEGMENT | BLOCK)
}

// Whether the number is the bits of an address unit.
#[tactic(auto, using(crate::proofs::Cells::cells), unfolding(model::specs::Checks::is_unit))]
fn is_unit(unit: i64) -> bool
    ensures { result ≡ is_unit unit }
{
    matches!(unit, 8 | 16 | 32 | 64 | 128)
}

// Whether the number is an access.
#[tactic(auto, using(crate::proofs::Cells::cells), unfolding(model::specs::Checks::is_access))]
fn is_access(access: i64) -> bool
    ensures { result ≡ is_access access }
{
    matches!(access, READ_WRITE | READ_ONLY | WRITE_ONLY)
}

// Whether base and range of a node row keep their limits. Each is held to the highest end before they are added: the sum of any two might not fit.
fn good_extent(n: NodeRow) -> bool
    ensures { result ≡ good_extent (node_of 0 n) }
{
    (0..=MAX_UNITS).contains(&n.base.0)
        && (1..=MAX_UNITS).contains(&n.range.0)
        && n.base.plus(n.range).0 <= MAX_UNITS
}

// Whether a node row keeps the limits.
#[tactic(auto, using(crate::proofs::Cells::cells), unfolding(model::specs::Checks::good_node))]
pub fn good_node(n: NodeRow) -> bool
    ensures { result ≡ good_node (node_of 0 n) }
{
    is_kind(n.kind) && is_unit(n.unit) && is_access(n.access) && good_extent(n)
}

// Refusal 2 of row v of a node table.
#[tactic(auto, unfolding(model::specs::Calls::answer, model::specs::Checks::when, model::specs::Checks::check_node, model::specs::Checks::good_node, model::specs::Checks::good_extent))]
fn check_node(nodes: &[i64], v: usize, table: usize) -> Result<(), Reason>
    requires { node_width * v + node_width ≤ length nodes.now }
    ensures { checked_answer result ≡ answer (check_node table (node_at nodes.now v)) tt }
{
    if good_node(node_at(nodes, v)) {
        Ok(())
    } else {
        Err(Reason::Node { table, row: v })
    }
}

// The first refusal of rows 0 .. count - 1, each of which `check` takes or refuses.
fn first_refused<F: Fn(usize) -> Result<(), Reason>>(count: usize, check: F) -> Result<(), Reason>
    requires { (v : ℕ) → v < count → F.pre check v }
    ensures { FirstRefused (F.post check) count result }
{
    for v in 0..count {
        check(v)?;
    }
    Ok(())
}

// Refusal 2: the first node row that does not keep the limits.
pub fn check_nodes(nodes: &[i64], table: usize) -> Result<(), Reason>
    ensures { checked_answer result ≡ answer (first_refusal (check_node table) (node_rows nodes.now)) tt }
{
    first_refused(nodes.len() / NODE_WIDTH, |v| check_node(nodes, v, table))
}

// Whether v is a node row of a graph with so many nodes.
#[tactic(auto, using(crate::proofs::Cells::cells), unfolding(model::specs::Checks::is_row))]
pub fn is_row(v: i64, count: usize) -> bool
    ensures { (g : Graph) → length g.nodes ≡ count → result ≡ is_row g v }
{
    0 <= v && (v as usize) < count
}

// Whether the offset of an edge row keeps its limits.
#[tactic(auto, using(crate::proofs::Cells::cells), unfolding(model::specs::Checks::good_offset))]
fn good_offset(e: EdgeRow) -> bool
    ensures { (g : Graph) → result ≡ good_offset g (edge_of 0 e) }
{
    (-MAX_UNITS..=MAX_UNITS).contains(&e.offset.0)
}

// Whether an edge row keeps the limits in a graph with so many nodes.
#[tactic(auto, using(crate::proofs::Cells::cells), unfolding(model::specs::Checks::good_edge))]
pub fn good_edge(e: EdgeRow, count: usize) -> bool
    ensures { (g : Graph) → length g.nodes ≡ count → result ≡ good_edge g (edge_of 0 e) }
{
    is_row(e.from, count) && is_row(e.to, count) && good_offset(e)
}

// Refusals 3 and 4 of row e of an edge table.
fn check_edge(nodes: &[i64], edges: &[i64], e: usize, table: usize) -> Result<(), Reason>
    requires { edge_width * e + edge_width ≤ length edges.now }
    ensures { checked_answer result ≡ answer (check_edge table (graph_of nodes.now edges.now) (edge_at edges.now e)) tt }
{
    if !good_edge(edge_at(edges, e), nodes.len() / NODE_WIDTH) {
        return Err(Reason::Edge { table, row: e });
    }
    if nodes[NODE_WIDTH * edge_from(edges, e)] == BLOCK {
        return Err(Reason::FromBlock { table, row: e });
    }
    Ok(())
}

// Refusals 3 and 4: the first edge row that does not keep the limits, or leaves a block.
pub fn check_edges(nodes: &[i64], edges: &[i64], table: usize) -> Result<(), Reason>
    ensures { checked_answer result ≡ answer (first_refusal (check_edge table (graph_of nodes.now edges.now)) (edge_rows edges.now)) tt }
{
    first_refused(
        edges.len() / EDGE_WIDTH,
        |e| check_edge(nodes, edges, e, table),
    )
}

// Refusals 1 to 4 of a graph whose node table is `table` and whose edge table is the next.
pub fn check_rows(nodes: &[i64], edges: &[i64], table: usize) -> Result<(), Reason>
    requires { table < 100 }
    ensures { checked_answer result ≡ answer (check_rows table nodes.now edges.now) tt }
{
    check_shape(nodes, NODE_WIDTH, MAX_NODES, table)?;
    check_shape(edges, EDGE_WIDTH, MAX_EDGES, table + 1)?;
    check_nodes(nodes, table)?;
    check_edges(nodes, edges, table + 1)
}

// The first bit of a node row that keeps the limits.
#[tactic(auto, unfolding(model::specs::Graph::first_bit))]
pub fn node_first_bit(n: NodeRow) -> Bits
    requires { BadNode (node_of 0 n) → ⊥ }
    ensures { result.0 ≡ first_bit (node_of 0 n) }
{
    n.base.scaled(n.unit)
}

// The last bit of a node row that keeps the limits.
#[tactic(auto, unfolding(model::specs::Graph::last_bit))]
pub fn node_last_bit(n: NodeRow) -> Bits
    requires { BadNode (node_of 0 n) → ⊥ }
    ensures { result.0 ≡ last_bit (node_of 0 n) }
{
    n.base.plus(n.range).scaled(n.unit).previous()
}

// The bit offset of an edge that keeps the limits, whose node `to` has this unit.
pub fn edge_bit_offset(offset: Units, unit: i64) -> Bits
    requires { (neg_ℤ (pos max_units) ≤ℤ offset.0) × (offset.0 ≤ℤ pos max_units) × AddressUnit unit }
    ensures { result.0 ≡ offset.0 *ℤ unit }
{
    offset.scaled(unit)
}
