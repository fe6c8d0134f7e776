// A node table and an edge table as the first two tables of a map file, all rows on side 0, into a lent buffer. The node table has no column for access.
#![tactic(auto)]

ghost use Rattle.std.specs.Prelude.{◌∷◌, ◌++◌, ◌*◌, ◌≤◌, ◌<◌, pos, length};
ghost use Rattle.model.specs.Report.{line_of};
ghost use Rattle.model.specs.SheetCall.{graph_lines};
ghost use Rattle.report.specs.Put.{Put};
ghost use Rattle.graphlines.specs.Rows.{row_lines};

use model::{EDGE_WIDTH, NODE_WIDTH};

// Bytes of the buffer that two tables are printed into.
pub const PRINT_ROOM: usize = 262144;

// Numbers of a node row that are printed: all but its access.
const NODE_FRONT: usize = 4;

// Writes the line of a row on side 0.
fn put_row(out: &mut [u8], row: &[i64]) -> usize
    requires { (0 < length row.now) × (length (line_of (pos 0 ∷ row.now)) ≤ length out.old) }
    ensures { Put (line_of (pos 0 ∷ row.now)) out.old out.new result }
{
    let at = report::put_text(out, b"0 ");
    at + report::put_numbers(&mut out[at..], row)
}

// Writes the lines of the first n rows of a table, of each its first `front` numbers, each into what remains of the buffer.
fn put_rows(out: &mut [u8], table: &[i64], width: usize, front: usize, n: usize) -> usize
    requires { (0 < front) × (front ≤ width) × (width * n ≤ length table.now) × (length (row_lines width front table.now n) ≤ length out.old) }
    ensures { Put (row_lines width front table.now n) out.old out.new result }
{
    let mut at = 0;
    for i in 0..n {
        let start = width * i;
        at += put_row(&mut out[at..], &table[start..start + front]);
    }
    at
}

// Writes names and, into what remains of the buffer, the lines of the first n rows of a table, of each its first `front` numbers.
fn put_table(
    out: &mut [u8],
    names: &[u8],
    table: &[i64],
    width: usize,
    front: usize,
    n: usize,
) -> usize
    requires { (0 < front) × (front ≤ width) × (width * n ≤ length table.now) × (length (names.now ++ row_lines width front table.now n) ≤ length out.old) }
    ensures { Put (names.now ++ row_lines width front table.now n) out.old out.new result }
{
    let at = report::put_text(out, names);
    at + put_rows(&mut out[at..], table, width, front, n)
}

// Writes both tables below their names, with an empty line between them.
pub fn put_graph(nodes: &[i64], edges: &[i64], out: &mut [u8]) -> usize
    requires { length (graph_lines nodes.now edges.now) ≤ length out.old }
    ensures { Put (graph_lines nodes.now edges.now) out.old out.new result }
{
    let node_rows = nodes.len() / NODE_WIDTH;
    let at = put_table(
        out,
        b"side kind base range unit\n",
        nodes,
        NODE_WIDTH,
        NODE_FRONT,
        node_rows,
    );
    let edge_rows = edges.len() / EDGE_WIDTH;
    at + put_table(
        &mut out[at..],
        b"\nside from to offset\n",
        edges,
        EDGE_WIDTH,
        EDGE_WIDTH,
        edge_rows,
    )
}
