// What is kept of all pairs of a comparison, root row by root row; and their lines, written row by row.
#![tactic(auto)]

ghost use Rattle.std.specs.Prelude.{◌≡◌, true, ◌↔◌, ◌≤◌, ℤ, length};
ghost use mathlib.Core.List.{List, flat_map};
ghost use Rattle.model.specs.Limits.{max_pairs};
ghost use Rattle.model.specs.Graph.{graph_of};
ghost use Rattle.model.specs.Taken.{AllOpen};
ghost use Rattle.model.specs.Compare.{findings};
ghost use Rattle.model.specs.Report.{finding_line};
ghost use Rattle.report.specs.Put.{Put};
ghost use Rattle.pairing.specs.Pairs.{tables_of};
ghost use Rattle.pathlimit.specs.Inputs.{Ready};
ghost use Rattle.pairs.specs.Found.{Rooms};
ghost use Rattle.rowpairs.specs.RowPairs.{HeldRoom};
ghost use Rattle.rootrows.specs.RootRow.{Plain};
ghost use Rattle.survey.specs.Survey.{Surveyed};

use arrivals::STATE_ROOM;
use extents::all_open;
use forward::planned_count;
use grouping::group_count;
use holding::HELD_ROOM;
use model::{MAX_NUMBERS, PAIR_WIDTH};
use reporting::put_lines;
use rootrows::row_found;
use totals::{Kept, no_pair, with_equal};

// What is kept of the pairs of all root rows, root row by root row: no root row is begun once the lines have more than `room` bytes.
fn found_of_all(
    spec_nodes: &[i64],
    spec_edges: &[i64],
    impl_nodes: &[i64],
    impl_edges: &[i64],
    root_pairs: &[i64],
    leaf_pairs: &[i64],
    links: &[usize],
    spec_plan: &[usize],
    impl_plan: &[usize],
    spec_state: &mut [i64],
    impl_state: &mut [i64],
    spare: &mut [i64],
    read: &mut [i64],
    written: &mut [i64],
    plain: bool,
    room: usize,
    lines: &mut [usize],
) -> Kept
    requires { Ready (tables_of spec_nodes.now spec_edges.now impl_nodes.now impl_edges.now root_pairs.now leaf_pairs.now)
        spec_plan.now impl_plan.now links.now
        × Rooms spec_state.old impl_state.old spare.old
        × HeldRoom read.old
        × HeldRoom written.old
        × Plain (tables_of spec_nodes.now spec_edges.now impl_nodes.now impl_edges.now root_pairs.now leaf_pairs.now) plain }
    ensures { Surveyed
        (tables_of spec_nodes.now spec_edges.now impl_nodes.now impl_edges.now
        root_pairs.now leaf_pairs.now) room result lines.new }
{
    let mut kept = no_pair();
    for row in 0..root_pairs.len() / PAIR_WIDTH {
        if room < kept.bytes {
            return kept;
        }
        kept = row_found(
            spec_nodes, spec_edges, impl_nodes, impl_edges, root_pairs, leaf_pairs, links,
            spec_plan, impl_plan, spec_state, impl_state, spare, read, written, plain, row, lines,
            kept,
        );
    }
    kept
}

// Whether every node of both graphs may be read and written: then both kinds of walk find the same.
fn is_plain(spec_nodes: &[i64], impl_nodes: &[i64]) -> bool
    ensures { (result ≡ true)
        ↔ ((spec_edges impl_edges : List ℤ) → AllOpen (graph_of spec_nodes.now spec_edges) × AllOpen (graph_of impl_nodes.now impl_edges)) }
{
    all_open(spec_nodes) && all_open(impl_nodes)
}

// What is kept of all pairs: the full result, how many pairs have a line and how many bytes the lines have, and in front of `lines`, where there is room
// for all of them, the lines. What stands in `lines` behind them, or where there is no room for all of them, is space that was worked in. Where the lines
// have more than `room` bytes, pairs may be left out. Where neither plan has an edge no path leads to a paired leaf, and all pairs are equal.
pub fn survey(
    spec_nodes: &[i64],
    spec_edges: &[i64],
    impl_nodes: &[i64],
    impl_edges: &[i64],
    root_pairs: &[i64],
    leaf_pairs: &[i64],
    links: &[usize],
    spec_plan: &[usize],
    impl_plan: &[usize],
    room: usize,
    lines: &mut [usize],
) -> Kept
    requires { Ready (tables_of spec_nodes.now spec_edges.now impl_nodes.now impl_edges.now root_pairs.now leaf_pairs.now)
        spec_plan.now impl_plan.now links.now }
    ensures { Surveyed
        (tables_of spec_nodes.now spec_edges.now impl_nodes.now impl_edges.now
        root_pairs.now leaf_pairs.now) room result lines.new }
{
    if planned_count(spec_plan) + planned_count(impl_plan) == 0 {
        return with_equal(
            no_pair(),
            root_pairs.len() / PAIR_WIDTH * group_count(links),
        );
    }
    let mut spec_state = [0i64; STATE_ROOM];
    let mut impl_state = [0i64; STATE_ROOM];
    let mut spare = [0i64; MAX_NUMBERS];
    let mut read = [0i64; HELD_ROOM];
    let mut written = [0i64; HELD_ROOM];
    let plain = is_plain(spec_nodes, impl_nodes);
    found_of_all(
        spec_nodes,
        spec_edges,
        impl_nodes,
        impl_edges,
        root_pairs,
        leaf_pairs,
        links,
        spec_plan,
        impl_plan,
        &mut spec_state,
        &mut impl_state,
        &mut spare,
        &mut read,
        &mut written,
        plain,
        room,
        lines,
    )
}

// Writes the lines of all pairs, root row by root row, each row's into what remains of the buffer.
// A loop of its own beside that of found_of_all: there what is kept goes on from row to row, and the pass may stop; here each row begins anew, and is written.
fn put_rows(
    spec_nodes: &[i64],
    spec_edges: &[i64],
    impl_nodes: &[i64],
    impl_edges: &[i64],
    root_pairs: &[i64],
    leaf_pairs: &[i64],
    links: &[usize],
    spec_plan: &[usize],
    impl_plan: &[usize],
    spec_state: &mut [i64],
    impl_state: &mut [i64],
    spare: &mut [i64],
    read: &mut [i64],
    written: &mut [i64],
    plain: bool,
    lines: &mut [usize],
    out: &mut [u8],
) -> usize
    requires { Ready (tables_of spec_nodes.now spec_edges.now impl_nodes.now impl_edges.now root_pairs.now leaf_pairs.now)
        spec_plan.now impl_plan.now links.now
        × Rooms spec_state.old impl_state.old spare.old
        × HeldRoom read.old
        × HeldRoom written.old
        × Plain (tables_of spec_nodes.now spec_edges.now impl_nodes.now impl_edges.now root_pairs.now leaf_pairs.now) plain
        × (max_pairs ≤ length lines.old)
        × (length (flat_map finding_line (findings (tables_of spec_nodes.now spec_edges.now impl_nodes.now impl_edges.now root_pairs.now leaf_pairs.now)))
        ≤ length out.old) }
    ensures { Put (flat_map finding_line (findings
        (tables_of spec_nodes.now spec_edges.now impl_nodes.now impl_edges.now
        root_pairs.now leaf_pairs.now))) out.old out.new result }
{
    let rows = root_pairs.len() / PAIR_WIDTH;
    let mut at = 0;
    for row in 0..rows {
        let kept = row_found(
            spec_nodes,
            spec_edges,
            impl_nodes,
            impl_edges,
            root_pairs,
            leaf_pairs,
            links,
            spec_plan,
            impl_plan,
            spec_state,
            impl_state,
            spare,
            read,
            written,
            plain,
            row,
            lines,
            no_pair(),
        );
        at += put_lines(&mut out[at..], lines, kept.count);
    }
    at
}

// Writes the lines of all pairs. What stands in `lines` afterwards is space that was worked in.
pub fn put_all(
    spec_nodes: &[i64],
    spec_edges: &[i64],
    impl_nodes: &[i64],
    impl_edges: &[i64],
    root_pairs: &[i64],
    leaf_pairs: &[i64],
    links: &[usize],
    spec_plan: &[usize],
    impl_plan: &[usize],
    lines: &mut [usize],
    out: &mut [u8],
) -> usize
    requires { Ready (tables_of spec_nodes.now spec_edges.now impl_nodes.now impl_edges.now root_pairs.now leaf_pairs.now)
        spec_plan.now impl_plan.now links.now
        × (max_pairs ≤ length lines.old)
        × (length (flat_map finding_line (findings (tables_of spec_nodes.now spec_edges.now impl_nodes.now impl_edges.now root_pairs.now leaf_pairs.now)))
        ≤ length out.old) }
    ensures { Put (flat_map finding_line (findings
        (tables_of spec_nodes.now spec_edges.now impl_nodes.now impl_edges.now
        root_pairs.now leaf_pairs.now))) out.old out.new result }
{
    let mut spec_state = [0i64; STATE_ROOM];
    let mut impl_state = [0i64; STATE_ROOM];
    let mut spare = [0i64; MAX_NUMBERS];
    let mut read = [0i64; HELD_ROOM];
    let mut written = [0i64; HELD_ROOM];
    let plain = is_plain(spec_nodes, impl_nodes);
    put_rows(
        spec_nodes,
        spec_edges,
        impl_nodes,
        impl_edges,
        root_pairs,
        leaf_pairs,
        links,
        spec_plan,
        impl_plan,
        &mut spec_state,
        &mut impl_state,
        &mut spare,
        &mut read,
        &mut written,
        plain,
        lines,
        out,
    )
}
