// The pairs of one root row of a comparison for both kinds of walk: what is held for each is kept together. Where every node may be read and written, one kind is looked at, and what is
// found for it stands for both.
#![tactic(auto)]

ghost use Rattle.pairing.specs.Pairs.{tables_of};
ghost use Rattle.rowpairs.specs.RowPairs.{HeldRoom, RowReady};
ghost use Rattle.rootrows.specs.RootRow.{RowRoom, RowKept, Plain, RowKeepable, HeldKept};

use grouping::{group_count, group_row};
use holding::held_at;
use model::WalkKind;
use rowpairs::hold_row;
use totals::{Kept, address_asked, with_pair};

// What is kept with the pairs of one root row, group by group, of which this is held for reading and for writing.
fn keep_pairs(
    links: &[usize],
    root_row: usize,
    reading: &[i64],
    writing: &[i64],
    lines: &mut [usize],
    kept: Kept,
) -> Kept
    requires { RowKeepable root_row links.now reading.now writing.now lines.old kept }
    ensures { HeldKept root_row links.now reading.now writing.now lines.old kept lines.new result }
{
    let mut kept = kept;
    for group in 0..group_count(links) {
        let leaf_row = group_row(links, group);
        let read = held_at(reading, group);
        let written = held_at(writing, group);
        kept = with_pair(lines, kept, root_row, leaf_row, read, written);
    }
    kept
}

// What is kept with the pairs of one root row, found for both kinds of walk. Where `plain`, every node of both graphs may be read and written, and one kind is looked at: what
// is held for writing stands for both. What stands in the states, in `spare`, `read` and `written` afterwards is space that was worked in.
pub fn row_found(
    spec_nodes: &[i64],
    spec_edges: &[i64],
    impl_nodes: &[i64],
    impl_edges: &[i64],
    root_pairs: &[i64],
    leaf_pairs: &[i64],
    links: &[usize],
    spec_plan: &[usize],
    impl_plan: &[usize],
    spec_state: &mut [i64],
    impl_state: &mut [i64],
    spare: &mut [i64],
    read: &mut [i64],
    written: &mut [i64],
    plain: bool,
    root_row: usize,
    lines: &mut [usize],
    kept: Kept,
) -> Kept
    requires { RowReady (tables_of spec_nodes.now spec_edges.now impl_nodes.now impl_edges.now root_pairs.now leaf_pairs.now) root_row
        spec_plan.now impl_plan.now links.now spec_state.old impl_state.old spare.old written.old
        × HeldRoom read.old
        × Plain (tables_of spec_nodes.now spec_edges.now impl_nodes.now impl_edges.now root_pairs.now leaf_pairs.now) plain
        × RowRoom (tables_of spec_nodes.now spec_edges.now impl_nodes.now impl_edges.now root_pairs.now leaf_pairs.now) lines.old kept }
    ensures { RowKept
        (tables_of spec_nodes.now spec_edges.now impl_nodes.now impl_edges.now
        root_pairs.now leaf_pairs.now) root_row lines.old kept lines.new result }
{
    let asked = address_asked(kept);
    hold_row(
        spec_nodes,
        spec_edges,
        impl_nodes,
        impl_edges,
        root_pairs,
        leaf_pairs,
        links,
        spec_plan,
        impl_plan,
        spec_state,
        impl_state,
        spare,
        root_row,
        WalkKind::Writing,
        asked,
        written,
    );
    if plain {
        return keep_pairs(links, root_row, written, written, lines, kept);
    }
    hold_row(
        spec_nodes,
        spec_edges,
        impl_nodes,
        impl_edges,
        root_pairs,
        leaf_pairs,
        links,
        spec_plan,
        impl_plan,
        spec_state,
        impl_state,
        spare,
        root_row,
        WalkKind::Reading,
        asked,
        read,
    );
    keep_pairs(links, root_row, read, written, lines, kept)
}
