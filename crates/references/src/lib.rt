// References to what arrives at a node: moved and cut as the step over an edge does, by shift and then by clip, and the rows that they have of a list.
#![tactic(auto)]

ghost use Rattle.std.specs.Prelude.{◌≡◌, List, map, ◌+◌, ◌*◌, ◌≤◌, ◌<◌, ℤ, pos, length};
ghost use Rattle.model.specs.Limits.{edge_width};
ghost use Rattle.model.specs.Graph.{graph_of, bit_offset};
ghost use Rattle.model.specs.Taken.{TakenTables};
ghost use Rattle.normalisation.specs.Merging.{by_displacement, of_displacement};
ghost use Rattle.sorting.specs.Rows.{row_width, row_at, Ascending};
ghost use Rattle.tables.specs.Tables.{edge_at};
ghost use Rattle.runs.specs.Clipping.{run_of, living, living_of, SmallRun, SmallOffset};
ghost use Rattle.extents.specs.Extents.{GoodRow, SmallAddress};
ghost use Rattle.listing.specs.Listing.{Appended};
ghost use Rattle.references.specs.References.{reference_of, last_root, own, shifted, through, narrowed, NarrowedBy, unless_none, brought_of, record_run, run_record, cut_row, cut_rows, SmallRecord, records_at, Parted, least_of, past_of, Cuttable};

use listing::append_row;
use model::Bits;
use runs::{Run, clip, shift};
use sorting::{Row, row_at};

// A run from the owner in place of the root: what it has as root bits are bit addresses of the owner.
#[derive(Clone, Copy, PartialEq, Eq)]
pub struct Reference {
    pub owner: usize,
    pub run: Run,
}

// The least of some displacements, and the least past all of them.
#[derive(Clone, Copy)]
struct Displacements {
    least: Bits,
    past: Bits,
}

// The bit address of the owner that the highest bit of a run stands for.
fn last_root(run: Run) -> Bits
    requires { SmallRun (run_of run) }
    ensures { result.0 ≡ last_root (run_of run) }
{
    run.root.plus(run.high.less(run.low))
}

// The step over edge e into the part of the node entered that f refers to, from u, a reference to what arrives at the node left: shift by the bit offset, then clip
// at the first and the last bit of the node entered that f takes. What is left is shifted to the bit addresses that f has for them.
pub fn step_into(
    nodes: &[i64],
    edges: &[i64],
    e: usize,
    f: Reference,
    u: Reference,
) -> Option<Reference>
    requires { TakenTables nodes.now edges.now
        × (edge_width * e + edge_width ≤ length edges.now)
        × SmallRun (run_of f.run)
        × SmallRun (run_of u.run) }
    ensures { brought_of result ≡ unless_none (through (bit_offset (graph_of nodes.now edges.now) (edge_at edges.now e)) (reference_of f) (reference_of u)) }
{
    let part = f.run;
    let shifted = shift(u.run, extents::offset_of(nodes, edges, e));
    let run = clip(shifted, part.root, last_root(part))?;
    let offset = part.root.less(part.low);
    Some(Reference {
        owner: u.owner,
        run: shift(run, offset),
    })
}

// What a reference has of a record of its owner, both as runs: shifted to the bit addresses that the reference has for them, then clipped at its ends.
fn narrowed(part: Run, run: Run) -> Option<Run>
    requires { SmallRun (run_of part) × SmallRun (run_of run) }
    ensures result_value { living_of result ≡ living (narrowed (run_of part) (run_of run)) }
    ensures narrowed_by { NarrowedBy (run_of part) (run_of run) result }
{
    let shifted = shift(run, part.root.less(part.low));
    clip(shifted, part.low, part.high)
}

// Every bit address less the offset.
pub fn shifted(f: Reference, offset: Bits) -> Reference
    requires { SmallRun (run_of f.run) × SmallOffset offset.0 }
    ensures { reference_of result ≡ shifted offset.0 (reference_of f) }
{
    Reference {
        owner: f.owner,
        run: shift(f.run, offset),
    }
}

// The reference to all that arrives at node v.
pub fn own_reference(nodes: &[i64], v: usize) -> Reference
    requires { GoodRow nodes.now v }
    ensures { (es : List ℤ) → reference_of result ≡ own (graph_of nodes.now es) (pos v) }
{
    Reference {
        owner: v,
        run: extents::whole(nodes, v),
    }
}

// The run of a record that stands in a row: its root bits, and the bit addresses of the node that they reach.
fn record_run(row: Row) -> Run
    requires { SmallRecord (of_displacement row) }
    ensures { run_of result ≡ record_run (of_displacement row) }
{
    let displacement = Bits::of(row.first);
    let first = Bits::of(row.second);
    let last = Bits::of(row.third);
    Run {
        root: first,
        low: first.less(displacement),
        high: last.less(displacement),
    }
}

// The row of the record of a run.
fn run_record(run: Run) -> Row
    requires { SmallRun (run_of run) }
    ensures { result ≡ by_displacement (run_record (run_of run)) }
{
    Row {
        first: run.root.less(run.low).0,
        second: run.root.0,
        third: last_root(run).0,
    }
}

// Appends what a reference has of the record in row p, as a row behind the first n. Returns how many rows stand there then.
fn append_cut(state: &mut [i64], p: usize, f: Reference, n: usize) -> usize
    requires { (p < n) × (row_width * n + row_width ≤ length state.old) × SmallRun (run_of f.run) × SmallRecord (of_displacement (row_at state.old p)) }
    ensures { Appended (cut_row (reference_of f) (of_displacement (row_at state.old p))) state.old state.new n result }
{
    match narrowed(f.run, record_run(row_at(state, p))) {
        Some(run) => append_row(state, n, run_record(run)),
        None => n,
    }
}

// Of `count` rows from row `row` on, by displacement and sorted: how many have displacements below d. A row is three numbers of the flat
// state, and `partition_point` looks at single elements of a slice.
fn rows_below(state: &[i64], row: usize, count: usize, d: Bits) -> usize
    requires { (row_width * (row + count) ≤ length state.now) × Ascending (map by_displacement (records_at state.now row count)) }
    ensures { Parted state.now row count d.0 result result }
{
    let mut low: usize = 0;
    let mut high = count;
    while low < high {
        let middle = (low + high) / 2;
        let looked = row_at(state, row + middle);
        if looked.first < d.0 {
            low = middle + 1;
        } else {
            high = middle;
        }
    }
    low
}

// The displacements by which root bits first .. last can walk to a bit address that a reference takes of its owner.
fn reaching(f: Reference, first: Bits, last: Bits) -> Displacements
    requires { SmallRun (run_of f.run) × SmallAddress first.0 × SmallAddress last.0 }
    ensures { (result.least.0 ≡ least_of (reference_of f) first.0) × (result.past.0 ≡ past_of (reference_of f) last.0) }
{
    let end = last_root(f.run);
    Displacements {
        least: first.less(end),
        past: last.less(f.run.root.previous()),
    }
}

// Appends what a reference has of the records of its owner's list, behind the first n rows, where the root has bits first .. last: the list is sorted by
// displacement, and only a part of the displacements can lead to the bit addresses of the reference. Returns how many rows stand there then.
pub fn gather_list(
    state: &mut [i64],
    row: usize,
    count: usize,
    f: Reference,
    first: Bits,
    last: Bits,
    n: usize,
) -> usize
    requires { Cuttable (reference_of f) first.0 last.0 state.old row count n }
    ensures { Appended (cut_rows (reference_of f) (records_at state.old row count)) state.old state.new n result }
{
    let span = reaching(f, first, last);
    let end = rows_below(state, row, count, span.past);
    let mut m = n;
    for i in rows_below(state, row, count, span.least)..end {
        m = append_cut(state, row + i, f, m);
    }
    m
}
