// The two tables of the specification graph, made from what is kept of the lines of a global address sheet. Ranges are held by number, 0 for a number
// that is not on the sheet: the spaces of the initiators and the sizes of the blocks. Rows are held by number too: roots those of the initiators, leaves those of the blocks.
#![tactic(auto)]

ghost use Rattle.std.specs.Prelude.{◌≡◌, List, [], ◌∷◌, ◌+◌, ◌≤◌, ◌<◌, ◌^◌, pos, ◌≤ℤ◌, length, get_or};
ghost use Rattle.std.proofs.lemmas.List.Edits.{sets};
ghost use Rattle.model.specs.Limits.{node_width, edge_width, sheet_numbers};
ghost use Rattle.model.specs.Sheet.{SheetLine, byte_node};
ghost use Rattle.model.specs.SheetCall.{made};
ghost use Rattle.sheettables.specs.Kept.{Kept};
ghost use Rattle.sheettables.specs.Parts.{line_count, index_at, Numbered, marked, Rowed, nodes_of, RowsWithin, edges_of};
ghost use Rattle.sheettables.specs.Made.{SheetMade, Tabled};

use model::{
    BLOCK, BYTE_BITS, EDGE_WIDTH, MAX_EDGES, NODE_WIDTH, READ_WRITE, Reason, SHEET_BYTES,
    SHEET_NUMBERS, SPACE, SPEC_EDGES, SheetSizes,
};

// The initiator or block number at a place of the lines, as an index.
fn number_at(lines: &[i64], at: usize) -> usize
    requires { (at < length lines.now) × (pos 0 ≤ℤ get_or lines.now at (pos 0)) }
    ensures { result ≡ index_at lines.now at }
{
    lines[at] as usize
}

// Gives the initiator of each line its space.
fn mark_initiators(lines: &[i64], spaces: &mut [i64])
    requires { Numbered lines.now × (length spaces.old ≡ sheet_numbers) }
    ensures { spaces.new ≡ marked lines.now (line_count lines.now) spaces.old }
{
    for k in 0..lines.len() / EDGE_WIDTH {
        spaces[number_at(lines, EDGE_WIDTH * k)] = SHEET_BYTES;
    }
}

// Gives each number its row: one row from `first` on for each number on the sheet, ascending; another number has the row of the next that is on it. Returns the
// row behind them.
fn number_rows(ranges: &[i64], first: usize, rows: &mut [usize]) -> usize
    requires { (length ranges.now ≡ sheet_numbers) × (length rows.old ≡ sheet_numbers) × (first ≤ sheet_numbers) }
    ensures { Rowed ranges.now first rows.new result }
{
    let mut row = first;
    for (v, range) in ranges.iter().enumerate() {
        rows[v] = row;
        if *range > 0 {
            row += 1;
        }
    }
    row
}

// Puts a node of base 0 and unit 8, which may be read and written, at a place of the node table.
fn put_node(nodes: &mut [i64], at: usize, kind: i64, range: i64)
    requires { at + node_width ≤ length nodes.old }
    ensures { nodes.new ≡ sets nodes.old at (byte_node kind range) }
{
    nodes[at..at + NODE_WIDTH].copy_from_slice(&[kind, 0, range, BYTE_BITS, READ_WRITE]);
}

// Puts a node for each number on the sheet, ascending, from a place of the node table on. Returns the place behind them.
fn put_nodes(ranges: &[i64], kind: i64, nodes: &mut [i64], at: usize) -> usize
    requires { (length ranges.now ≡ sheet_numbers) × (at + length (nodes_of kind ranges.now sheet_numbers) ≤ length nodes.old) }
    ensures next { result ≡ at + length (nodes_of kind ranges.now sheet_numbers) }
    ensures nodes { nodes.new ≡ sets nodes.old at (nodes_of kind ranges.now sheet_numbers) }
{
    let mut next = at;
    for &range in ranges {
        if range > 0 {
            put_node(nodes, next, kind, range);
            next += NODE_WIDTH;
        }
    }
    next
}

// Puts an edge at a place of the edge table.
fn put_edge(edges: &mut [i64], at: usize, from: usize, to: usize, base: i64)
    requires { (at + edge_width ≤ length edges.old) × (from < 2 ^ 63) × (to < 2 ^ 63) }
    ensures { edges.new ≡ sets edges.old at (pos from ∷ pos to ∷ base ∷ []) }
{
    edges[at..at + EDGE_WIDTH].copy_from_slice(&[from as i64, to as i64, base]);
}

// Puts the edge of each line, in line order: from the row of its initiator to the row of its block, with its base as offset.
fn put_edges(lines: &[i64], roots: &[usize], leaves: &[usize], edges: &mut [i64])
    requires { Numbered lines.now × RowsWithin roots.now × RowsWithin leaves.now × (length lines.now ≤ length edges.old) }
    ensures { edges.new
        ≡ sets edges.old 0 (edges_of roots.now leaves.now lines.now (line_count lines.now)) }
{
    for k in 0..lines.len() / EDGE_WIDTH {
        let at = EDGE_WIDTH * k;
        let from = roots[number_at(lines, at)];
        let to = leaves[number_at(lines, at + 1)];
        put_edge(edges, at, from, to, lines[at + 2]);
    }
}

// Puts both tables at the front of their buffers. Where either is longer than its buffer, the refusal, with both untouched.
fn put_tables(
    lines: &[i64],
    spaces: &[i64],
    sizes: &[i64],
    nodes: &mut [i64],
    edges: &mut [i64],
) -> Result<SheetSizes, Reason>
    requires { (ls : List SheetLine) × Tabled ls lines.now spaces.now sizes.now }
    ensures { (ls : List SheetLine) → Tabled ls lines.now spaces.now sizes.now
        → SheetMade (made (length nodes.old) (length edges.old) ls)
        nodes.old nodes.new edges.old edges.new result }
{
    let mut roots = [0usize; SHEET_NUMBERS];
    let mut leaves = [0usize; SHEET_NUMBERS];
    let initiators = number_rows(spaces, 0, &mut roots);
    let rows = number_rows(sizes, initiators, &mut leaves);
    let size = SheetSizes {
        nodes: NODE_WIDTH * rows,
        edges: lines.len(),
    };
    if nodes.len() < size.nodes || edges.len() < size.edges {
        return Err(Reason::LongOutput);
    }
    let next = put_nodes(spaces, SPACE, nodes, 0);
    put_nodes(sizes, BLOCK, nodes, next);
    put_edges(lines, &roots, &leaves, edges);
    Ok(size)
}

// Makes the two tables of a sheet from what is kept of its lines. Where there are more lines than a graph may have edges, or a table is longer than its
// buffer, the refusal, with both buffers untouched.
pub fn make_tables(
    lines: &[i64],
    sizes: &[i64],
    nodes: &mut [i64],
    edges: &mut [i64],
) -> Result<SheetSizes, Reason>
    requires { (ls : List SheetLine) × Kept ls lines.now sizes.now }
    ensures { (ls : List SheetLine) → Kept ls lines.now sizes.now
        → SheetMade (made (length nodes.old) (length edges.old) ls)
        nodes.old nodes.new edges.old edges.new result }
{
    if EDGE_WIDTH * MAX_EDGES < lines.len() {
        return Err(Reason::Shape { table: SPEC_EDGES });
    }
    let mut spaces = [0i64; SHEET_NUMBERS];
    mark_initiators(lines, &mut spaces);
    put_tables(lines, &spaces, sizes, nodes, edges)
}
