// Reads the global address sheet on standard input and prints its tables as the first two tables of a map file, or the refusal.
#![tactic(auto)]

ghost use Rattle.std.specs.Prelude.{◌≡◌, ◌≤◌, length, take};
ghost use Rattle.model.specs.SheetCall.{graph_lines, sheet_printed};
ghost use Rattle.report.specs.Put.{Put};
ghost use Rattle.graphlines.specs.Rows.{print_room};

use graphlines::PRINT_ROOM;
use input::TEXT_ROOM;
use model::{EDGE_WIDTH, MAX_EDGES, MAX_NODES, NODE_WIDTH, SheetSizes};

// Numbers of the largest tables.
const NODE_NUMBERS: usize = NODE_WIDTH * MAX_NODES;

const EDGE_NUMBERS: usize = EDGE_WIDTH * MAX_EDGES;

// Writes the tables of which so many numbers stand in these buffers.
fn put_tables(nodes: &[i64], edges: &[i64], sizes: SheetSizes, out: &mut [u8]) -> usize
    requires { (sizes.nodes ≤ length nodes.now) × (sizes.edges ≤ length edges.now)
        × (length (graph_lines (take sizes.nodes nodes.now) (take sizes.edges edges.now)) ≤ length out.old) }
    ensures { Put (graph_lines (take sizes.nodes nodes.now) (take sizes.edges edges.now)) out.old out.new result }
{
    graphlines::put_graph(&nodes[..sizes.nodes], &edges[..sizes.edges], out)
}

// Writes what is printed for a sheet, its tables or the refusal, and returns its length.
fn put_printed(text: &[u8], out: &mut [u8]) -> usize
    requires { length out.old ≡ print_room }
    ensures { Put (sheet_printed text.now) out.old out.new result }
{
    let mut nodes = [0i64; NODE_NUMBERS];
    let mut edges = [0i64; EDGE_NUMBERS];
    match sheet::read_sheet(text, &mut nodes, &mut edges) {
        Ok(sizes) => put_tables(&nodes, &edges, sizes, out),
        Err(reason) => refusals::put_reason(out, reason),
    }
}

// Writes what it is lent, which is what is printed for a sheet, to standard output. The contract alone names the sheet, and so differs
// from that in mapcheck. Where that cannot be written, it says so on standard error.
fn write_printed(rt: &(impl Print + Eprint), text: &[u8], out: &[u8])
    requires { out.now ≡ sheet_printed text.now }
{
    if let Err(error) = rt.write_all(out) {
        input::say_failed(rt, "standard output", error);
    }
}

// Prints what is printed for the sheet of the first n bytes.
fn print_sheet(rt: &(impl Print + Eprint), text: &[u8], n: usize)
    requires { n ≤ length text.now }
{
    let mut out = [0u8; PRINT_ROOM];
    let length = put_printed(&text[..n], &mut out);
    write_printed(rt, &text[..n], &out[..length]);
}

fn main(rt: HostRuntime) {
    let mut text = [0u8; TEXT_ROOM];
    match input::read_input(&mut rt.stdin(), &mut text) {
        Ok(n) => print_sheet(&rt, &text, n),
        Err(error) => input::say_failed(&rt, "standard input", error),
    }
}
