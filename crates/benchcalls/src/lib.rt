// The calls on tables and the reader of sheets through C linkage, for the benchmark and the tests of host/: a text holds at most 65,536 bytes, and some of
// the maps that are measured need more. The library that the design environment links has the text check alone.
#![tactic(auto)]

ghost use Rattle.std.specs.Prelude.{◌≡◌, pos, neg_ℤ};
ghost use Rattle.model.specs.Answers.{comparison_result, refusal_of};
ghost use Rattle.model.specs.Calls.{check_answer, walk_gives, walk_after, list_gives, list_after, compare_answer};
ghost use Rattle.batches.specs.Batch.{counts_result, batch_gives, batch_after};
ghost use Rattle.model.specs.SheetCall.{sheet_gives, sheet_nodes_after, sheet_edges_after};
ghost use Rattle.arrivals.specs.State.{kind_of};
ghost use Rattle.pairing.specs.Pairs.{tables_of};
ghost use Rattle.benchcalls.specs.Summary.{digits, packed, summary, taken, written, counted, batched, sheet_lengths, lengths, tables};

use batch::batch;
use bitmapping::{list, walk};
use compare::compare;
use depth::check_graph;
use model::{BatchCounts, Comparison, Reason, SheetSizes, WalkKind, verdict_number};
use refusals::{Refusal, negative_code};
use sheet::read_sheet;

// The highest count that 20 binary digits hold.
const MOST_COUNTED: usize = 1048575;

// What the counts of equal and partial pairs and the whole verdict count for in the answer.
const EQUAL_PLACE: usize = 1099511627776;

const PARTIAL_PLACE: usize = 1048576;

const VERDICT_PLACE: usize = 1152921504606846976;

// What the count of rows counts for in the answer of a batch.
const ROWS_PLACE: usize = 1048576;

// What the length of the node table counts for in the answer of the reader of sheets.
const NODES_PLACE: usize = 100000;

// The kind of walk that a caller's number stands for: 0 for those that read, any other for those that write.
fn kind_of(number: i64) -> WalkKind
    ensures { result ≡ kind_of number }
{
    if number == 0 {
        WalkKind::Reading
    } else {
        WalkKind::Writing
    }
}

// A count in 20 binary digits.
fn digits_of(count: usize) -> usize
    ensures { result ≡ digits count }
{
    count.min(MOST_COUNTED)
}

// A full result as one number.
fn packed_of(c: Comparison) -> i64
    ensures { result ≡ pos (packed (comparison_result c)) }
{
    let number = verdict_number(c.verdict);
    let equal = digits_of(c.equal);
    let partial = digits_of(c.partial);
    let different = digits_of(c.different);
    (number * VERDICT_PLACE + equal * EQUAL_PLACE + partial * PARTIAL_PLACE + different) as i64
}

// The number of a refusal, below zero.
fn refused_number(reason: Reason) -> i64
    ensures { result ≡ neg_ℤ (pos (refusal_of reason).number) }
{
    -(Refusal::from(reason).number as i64)
}

// The counts of a batch as one number.
fn counts_of(counts: BatchCounts) -> i64
    ensures { result ≡ pos (counted (counts_result counts)) }
{
    let rows = digits_of(counts.rows);
    let records = digits_of(counts.records);
    (rows * ROWS_PLACE + records) as i64
}

// The lengths of the two tables of a sheet as one number.
fn lengths_of(sizes: SheetSizes) -> i64
    ensures { result ≡ pos (lengths (sheet_lengths sizes)) }
{
    let nodes = digits_of(sizes.nodes);
    let edges = digits_of(sizes.edges);
    (nodes * NODES_PLACE + edges) as i64
}

// Checks one graph and gives the answer as one number.
#[unsafe(no_mangle)]
#[tactic(auto, unfolding(crate::specs::Summary::signed))]
pub extern "C" fn benchcalls_check(nodes: &[i64], edges: &[i64]) -> i64
    ensures { result ≡ taken (check_answer nodes.now edges.now) }
{
    check_graph(nodes, edges).map_or_else(refused_number, |()| 0)
}

// Lists the bitmapping list of a root and a leaf for a kind of walk and gives the answer as one number.
#[unsafe(no_mangle)]
#[tactic(auto, unfolding(crate::specs::Summary::signed))]
pub extern "C" fn benchcalls_list(
    nodes: &[i64],
    edges: &[i64],
    root: i64,
    leaf: i64,
    kind: i64,
    out: &mut [i64],
) -> i64
    ensures returned { result ≡ written (list_gives (kind_of kind) nodes.now edges.now root leaf out.old) }
    ensures buffer { out.new ≡ list_after (kind_of kind) nodes.now edges.now root leaf out.old }
{
    list(nodes, edges, root, leaf, kind_of(kind), out).map_or_else(
        refused_number,
        |n| digits_of(n) as i64,
    )
}

// Walks a bit address from a root to a leaf by walks of a kind and gives the answer as one number.
#[unsafe(no_mangle)]
#[tactic(auto, unfolding(crate::specs::Summary::signed))]
pub extern "C" fn benchcalls_walk(
    nodes: &[i64],
    edges: &[i64],
    root: i64,
    leaf: i64,
    address: i64,
    kind: i64,
    out: &mut [i64],
) -> i64
    ensures returned { result ≡ written (walk_gives (kind_of kind) nodes.now edges.now root leaf address out.old) }
    ensures buffer { out.new ≡ walk_after (kind_of kind) nodes.now edges.now root leaf address out.old }
{
    walk(nodes, edges, root, leaf, address, kind_of(kind), out).map_or_else(
        refused_number,
        |n| digits_of(n) as i64,
    )
}

// Walks a batch of bit addresses from a root to a leaf by walks of a kind and gives the answer as one number.
#[unsafe(no_mangle)]
#[tactic(auto, unfolding(crate::specs::Summary::signed))]
pub extern "C" fn benchcalls_batch(
    nodes: &[i64],
    edges: &[i64],
    root: i64,
    leaf: i64,
    addresses: &[i64],
    kind: i64,
    out: &mut [i64],
) -> i64
    ensures returned { result ≡ batched (batch_gives (kind_of kind) nodes.now edges.now root leaf addresses.now out.old) }
    ensures buffer { out.new ≡ batch_after (kind_of kind) nodes.now edges.now root leaf addresses.now out.old }
{
    batch(nodes, edges, root, leaf, addresses, kind_of(kind), out).map_or_else(
        refused_number,
        counts_of,
    )
}

// Compares two graphs and gives the answer as one number.
#[unsafe(no_mangle)]
#[tactic(auto, unfolding(crate::specs::Summary::signed))]
pub extern "C" fn benchcalls_compare(
    spec_nodes: &[i64],
    spec_edges: &[i64],
    impl_nodes: &[i64],
    impl_edges: &[i64],
    root_pairs: &[i64],
    leaf_pairs: &[i64],
) -> i64
    ensures { result
        ≡ summary
        (compare_answer
        (tables_of spec_nodes.now spec_edges.now impl_nodes.now impl_edges.now
        root_pairs.now leaf_pairs.now)) }
{
    compare(
        spec_nodes, spec_edges, impl_nodes, impl_edges, root_pairs, leaf_pairs,
    )
    .map_or_else(refused_number, packed_of)
}

// Reads a sheet and gives the answer as one number: how long both tables are, or the refusal with its table and row, below zero.
#[unsafe(no_mangle)]
pub extern "C" fn benchcalls_read_sheet(text: &[u8], nodes: &mut [i64], edges: &mut [i64]) -> i64
    ensures returned { result ≡ tables (sheet_gives text.now nodes.old edges.old) }
    ensures nodes { nodes.new ≡ sheet_nodes_after text.now nodes.old edges.old }
    ensures edges { edges.new ≡ sheet_edges_after text.now nodes.old edges.old }
{
    match read_sheet(text, nodes, edges) {
        Ok(sizes) => lengths_of(sizes),
        Err(reason) => negative_code(Refusal::from(reason)),
    }
}
