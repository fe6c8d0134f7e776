// Groups of banks. The rows of what arrives in each bank of a group are appended to a swept state, raised to where the bank begins, and become one list: what the
// banks' reached sets have together. A leaf is a group of one bank that begins at 0.
#![tactic(auto)]

ghost use Rattle.std.specs.Prelude.{◌≡◌, List, [], ◌∷◌, ◌++◌, map, ℕ, ℤ};
ghost use Rattle.model.specs.declared.WalkKind.{WalkKind};
ghost use Rattle.model.specs.Quantities.{Subtractable};
ghost use Rattle.model.specs.Groups.{Bank};
ghost use Rattle.sorting.specs.Rows.{rows_from};
ghost use Rattle.extents.specs.Extents.{SmallAddress};
ghost use Rattle.listing.specs.Listing.{Appended};
ghost use Rattle.arrivals.specs.Sweep.{Swept, Appendable};
ghost use Rattle.groups.specs.Banks.{raised_row, Raisable, bank_with, Gathering, Joinable, GroupAnswered, Askable, Answered, banks_at, GroupAskable};

use arrivals::{ListRows, append_rows, free_row, normalise_between};
use grouping::next_row;
use listing::{leaf_bit, raised_displacement};
use model::{Bits, PAIR_WIDTH};
use pairing::{impl_node, pair_at};
use sorting::{Row, put_row, row_at};

// The row of a record with its leaf bits so much higher.
fn raised_row(row: Row, at: Bits) -> Row
    requires { Subtractable row.first at.0 }
    ensures { result ≡ raised_row at.0 row }
{
    Row {
        first: raised_displacement(row.first, at).0,
        ..row
    }
}

// Raises rows `from` to `to`: the leaf bits of each are so much higher, in one pass.
fn raise_rows(state: &mut [i64], from: usize, to: usize, at: Bits)
    requires { Raisable at.0 state.old from to }
    ensures { Appended (map (raised_row at.0) (rows_from state.old from to)) state.old state.new from to }
{
    if at.0 == 0 {
        return;
    }
    for i in from..to {
        put_row(state, i, raised_row(row_at(state, i), at));
    }
}

// Appends the rows of a bank behind the first n rows of the state, which hold those of the banks so far. Returns how many rows stand there then.
pub fn append_bank(
    nodes: &[i64],
    edges: &[i64],
    plan: &[usize],
    leaf: usize,
    at: Bits,
    state: &mut [i64],
    n: usize,
) -> usize
    requires { Appendable nodes.now edges.now plan.now leaf state.old n × SmallAddress at.0 }
    ensures { (kind : WalkKind) (root : ℕ) (banks : List Bank) → Gathering kind nodes.now edges.now plan.now root banks state.old n
        → Gathering kind nodes.now edges.now plan.now root (banks ++ (bank_with leaf at.0 ∷ [])) state.new result }
{
    let end = append_rows(nodes, edges, plan, leaf, state, n);
    raise_rows(state, n, end, at);
    end
}

// Makes the list of a group of the rows of its banks, which stand from the free row up to row n: rows by displacement, sorted, from the free row on. What stands
// in `spare` afterwards is space that was worked in.
pub fn join_banks(state: &mut [i64], n: usize, spare: &mut [i64]) -> ListRows
    requires { Joinable state.old n spare.old }
    ensures { (kind : WalkKind) (ns es : List ℤ) (plan : List ℕ) (root : ℕ) (banks : List Bank) → Gathering kind ns es plan root banks state.old n
        → GroupAnswered kind ns es plan root banks state.new result }
{
    let first = free_row(state);
    if n == first {
        return ListRows {
            row: first,
            count: 0,
        };
    }
    normalise_between(state, first, n, spare)
}

// Lists the bitmapping list of the root that the state is swept from and a leaf, for the kind of walk that it is swept by: rows by displacement, sorted, in the
// free part of the state. What stands in `spare` afterwards is space that was worked in.
pub fn list_at(
    nodes: &[i64],
    edges: &[i64],
    plan: &[usize],
    leaf: usize,
    state: &mut [i64],
    spare: &mut [i64],
) -> ListRows
    requires { Askable nodes.now edges.now plan.now leaf state.old spare.old }
    ensures { (kind : WalkKind) (root : ℕ) → Swept kind nodes.now edges.now plan.now root state.old
        → Answered kind nodes.now edges.now plan.now root leaf state.new result }
{
    let first = free_row(state);
    let n = append_bank(nodes, edges, plan, leaf, leaf_bit(0), state, first);
    join_banks(state, n, spare)
}

// Lists the group of a row of leaf pairs, its lowest, from the root that the state is swept from: the rows of its banks are appended one after the other, each raised
// to where its bank begins, and joined to one list. What stands in `spare` afterwards is space that was worked in.
pub fn list_group(
    nodes: &[i64],
    edges: &[i64],
    plan: &[usize],
    pairs: &[i64],
    links: &[usize],
    lowest: usize,
    state: &mut [i64],
    spare: &mut [i64],
) -> ListRows
    requires { GroupAskable nodes.now edges.now plan.now pairs.now links.now lowest state.old spare.old }
    ensures { (kind : WalkKind) (root : ℕ) → Swept kind nodes.now edges.now plan.now root state.old
        → GroupAnswered kind nodes.now edges.now plan.now root (banks_at pairs.now lowest) state.new result }
{
    let mut n = free_row(state);
    // The rows of a group are linked, each to the next, so they are no range.
    let mut row = lowest;
    while row < pairs.len() / PAIR_WIDTH {
        let leaf = impl_node(pairs, row);
        let at = leaf_bit(pair_at(pairs, row));
        n = append_bank(nodes, edges, plan, leaf, at, state, n);
        row = next_row(links, row);
    }
    join_banks(state, n, spare)
}
