// The calls under test that are about one graph, each held against what the walk by single addresses says.
use crate::batched;
use crate::records::{MAX_RECORDS, RECORD_WIDTH, Record, Records};
use crate::tally::{Counted, Counts};
use crate::walks::{Asked, Reached, SLOTS, bits_at, reach};
use generator::draws::Draws;
use generator::graphs::{Graph, write};
use generator::maps::SMALLEST_UNIT;
use generator::numbers::number;
use generator::rows::Node;
use model::Reason;

// Addresses walked of each list, and those of them that lie outside every root.
const ADDRESSES: usize = 10;

pub(crate) const BELOW: i64 = -1;

pub(crate) const ABOVE: i64 = 36028797018963968;

// What a buffer holds past what a call writes.
pub(crate) const UNTOUCHED: i64 = -7;

// What the calls about one graph are held against: the graph, what is asked of it, what walks by single addresses reach, and the records of that.
#[derive(Clone, Copy)]
pub(crate) struct Case<'a> {
    pub(crate) graph: &'a Graph,
    pub(crate) asked: Asked,
    pub(crate) reached: &'a Reached,
    pub(crate) records: &'a Records,
}

impl Case<'_> {
    // The root that walks begin at.
    pub(crate) fn root(&self) -> Node {
        self.graph.map.node(self.asked.root)
    }
}

// One graph's check: every map here is taken.
pub(crate) fn try_check(graph: &Graph, counts: &mut Counts) {
    let tables = &graph.tables;
    let checked = depth::check_graph(tables.nodes(), tables.edges());
    counts.count(Counted::Checks);
    counts.expect(checked.is_ok(), "check");
}

// Whether a buffer has these numbers in front, and is left alone past them.
pub(crate) fn has_in_front(out: &[i64], numbers: &[i64]) -> bool {
    out.starts_with(numbers) && out.iter().skip(numbers.len()).all(|n| *n == UNTOUCHED)
}

// Whether a call that writes into a buffer gives these rows, so many, and leaves the rest of the buffer alone.
fn gives<F: FnOnce(&mut [i64]) -> Result<usize, Reason>>(
    rows: usize,
    numbers: &[i64],
    out: &mut [i64],
    call: F,
) -> bool
    requires { F.IsAlwaysCallable call }
{
    matches!(call(out), Ok(given) if given == rows) && has_in_front(out, numbers)
}

// The k-th address walked: the ends of the root and of the list, what lies past them, and some that are drawn by the number of the walk.
fn address_of(case: Case, k: usize, walk: usize) -> i64 {
    let root = case.root();
    let end = root.end_bit();
    let last = case.records.all().last().map_or(0, |record| record.last);
    match k {
        0 => number(root.first_bit()),
        1 => number(end.saturating_sub(1)),
        2 => number(end),
        3 => number(case.records.record(0).first),
        4 => number(last),
        5 => number(last.saturating_add(1)),
        6 => BELOW,
        7 => ABOVE,
        _ => number(Draws::new(walk).below(end)),
    }
}

// One walk from an address: the leaf bits are those of the reached set.
fn try_walk(case: Case, address: i64, counts: &mut Counts) {
    let bits = bits_at(case.reached, address);
    counts.count(Counted::Walks);
    counts.count_if(Counted::WalksToSeveral, bits.len() > 1);
    counts.count_if(Counted::WalksOutside, is_outside(case.root(), address));
    let Asked { root, leaf, kind } = case.asked;
    let tables = &case.graph.tables;
    let mut out = [UNTOUCHED; SLOTS];
    let holds = gives(bits.len(), bits, &mut out, |out| {
        bitmapping::walk(
            tables.nodes(),
            tables.edges(),
            number(root),
            number(leaf),
            address,
            kind,
            out,
        )
    });
    counts.expect(holds, "walk");
}

// Whether an address is none of a node's.
pub(crate) fn is_outside(node: Node, address: i64) -> bool {
    usize::try_from(address).map_or(true, |address| !node.has(address))
}

// Walks from some of the addresses of a list.
fn try_walks(case: Case, counts: &mut Counts) {
    for k in 0..ADDRESSES {
        let address = address_of(case, k, counts.of(Counted::Walks));
        try_walk(case, address, counts);
    }
}

// Counts two records that follow one another in a list by how they lie.
fn count_neighbours(record: Record, next: Record, counts: &mut Counts) {
    let here = record.first.saturating_add(next.leaf_first);
    let there = next.first.saturating_add(record.leaf_first);
    let behind = record.last.saturating_add(1);
    if here == there {
        let open = behind.saturating_add(SMALLEST_UNIT);
        counts.count_if(Counted::LikeUnitOpen, next.first == open);
    } else {
        counts.count_if(Counted::UnlikeTouching, next.first == behind);
        counts.count_if(Counted::UnlikeOverlapping, next.first < behind);
    }
}

// Counts a record by its displacement, and by the bits of the leaf that it lacks at its low or at its high end.
fn count_record(record: Record, leaf_bits: usize, counts: &mut Counts) {
    counts.count(Counted::Records);
    counts.count_if(
        Counted::NegativeDisplacements,
        record.first < record.leaf_first,
    );
    let low = record.leaf_first > 0;
    let high = record.leaf_last().saturating_add(1) < leaf_bits;
    counts.count_if(Counted::ClippedLow, low);
    counts.count_if(Counted::ClippedHigh, high);
    counts.count_if(Counted::ClippedBoth, low && high);
}

// Counts every record of a list.
fn count_records(case: Case, counts: &mut Counts) {
    let leaf_bits = case.graph.map.node(case.asked.leaf).bit_count();
    let records = case.records.all();
    for record in records {
        count_record(*record, leaf_bits, counts);
    }
    for (record, next) in records.iter().zip(records.iter().skip(1)) {
        count_neighbours(*record, *next, counts);
    }
}

// One list.
fn try_list(case: Case, counts: &mut Counts) {
    let Asked { root, leaf, kind } = case.asked;
    let tables = &case.graph.tables;
    let records = case.records.all();
    let mut list = [[UNTOUCHED; RECORD_WIDTH]; MAX_RECORDS];
    write(records, &mut list);
    let numbers = list[..records.len()].as_flattened();
    let mut out = [UNTOUCHED; RECORD_WIDTH * MAX_RECORDS];
    let holds = gives(records.len(), numbers, &mut out, |out| {
        bitmapping::list(
            tables.nodes(),
            tables.edges(),
            number(root),
            number(leaf),
            kind,
            out,
        )
    });
    counts.count(Counted::Lists);
    counts.expect(holds, "list");
}

// The list that is asked for, and walks and batches from some of its addresses. The reached set is left behind.
pub(crate) fn try_leaf(graph: &Graph, asked: Asked, reached: &mut Reached, counts: &mut Counts) {
    reach(&graph.map, asked, reached);
    let records = Records::of(reached);
    let case = Case {
        graph,
        asked,
        reached,
        records: &records,
    };
    count_records(case, counts);
    try_list(case, counts);
    try_walks(case, counts);
    batched::try_batches(case, counts);
}
