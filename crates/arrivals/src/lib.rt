// What arrives at each node of a graph from a root, by walks of one kind. A node that is entered in one way has a reference to the arrivals of a node before
// it; a node where unlike references meet is its own owner, and its list is made once and stored in an arena of fixed size. Where the arena has no room, the rows
// of such a node are gathered through the edges that enter it. Which lists are stored is a free choice: nothing is promised of it.
#![tactic(auto)]

ghost use Rattle.std.specs.Prelude.{◌≡◌, List, true, ℕ, ◌+◌, ◌*◌, ◌≤◌, ◌<◌, ℤ, pos, ◌≤ℤ◌, length, get_or};
ghost use Rattle.model.specs.declared.WalkKind.{WalkKind};
ghost use Rattle.model.specs.Limits.{max_nodes, max_paths};
ghost use Rattle.model.specs.Graph.{graph_of, node};
ghost use Rattle.model.specs.Runs.{is_open};
ghost use Rattle.tables.specs.Tables.{edge_at};
ghost use Rattle.extents.specs.Extents.{GoodRow};
ghost use Rattle.references.specs.References.{reference_of, own, brought_of};
ghost use Rattle.arrivals.specs.State.{mark_width, arena_row, arena_rows, free_at, kind_at, state_room, set_mark, marked, mark_number, is_met, reference_at, is_listed, free_row, root_in, kind_number, kind_in};
ghost use Rattle.arrivals.specs.Sweep.{Sweeping, Gatherable, Gathered, Normalisable, Normalised, Makeable, Made, Sweepable, Swept, Appendable, LeafAppended};
ghost use Rattle.arrivals.specs.Moves.{Crossable, crossing, meeting, Storable, storing, Ownable, ListMade, Passable, Blank, root_marked, begun};

use forward::{first_entering, next_entering, planned_count, planned_row};
use listing::append_row;
use model::{Bits, EDGE_WIDTH, MAX_CHAIN, MAX_NODES, MAX_PATHS, NODE_WIDTH, WalkKind};
use normalisation::normalise_rows;
use references::{Reference, gather_list, own_reference, shifted, step_into};
use runs::Run;
use sorting::{ROW_WIDTH, Row};
use tables::{edge_from, edge_to};

// Numbers of a mark.
const MARK_WIDTH: usize = 6;

// Behind the marks: from which row on the arena is free, the root, and the kind of walk.
const FREE_AT: usize = MARK_WIDTH * MAX_NODES;

const ROOT_AT: usize = FREE_AT + 1;

const KIND_AT: usize = ROOT_AT + 1;

// The first row of the arena; the row up to which any list is stored, and the row up to which those are that take at most a quarter of what is left.
const ARENA_ROW: usize = KIND_AT / ROW_WIDTH + 1;

const OPEN_END: usize = ARENA_ROW + 1152;

const ARENA_END: usize = ARENA_ROW + 1536;

const SHARE: usize = 4;

// The numbers of a state.
pub const STATE_ROOM: usize = ROW_WIDTH * (ARENA_END + MAX_PATHS);

// Where a list stands in a state: its first row, and how many records it has.
#[derive(Clone, Copy)]
pub struct ListRows {
    pub row: usize,
    pub count: usize,
}

// A state is one flat slice of numbers of fixed size, so what is absent is a number below 0 in it: no node; no list yet; no list, since there is no room for it.
const NO_OWNER: i64 = -1;

const NOT_LISTED: i64 = -1;

const NO_ROOM: i64 = -2;

// Whether anything has arrived at node v.
fn is_met(state: &[i64], v: usize) -> bool
    requires { mark_width * v + mark_width ≤ length state.now }
    ensures { result ≡ is_met state.now v }
{
    0 <= state[MARK_WIDTH * v]
}

// The reference of node v.
fn reference_at(state: &[i64], v: usize) -> Reference
    requires { (mark_width * v + mark_width ≤ length state.now) × (is_met state.now v ≡ true) }
    ensures { reference_of result ≡ reference_at state.now v }
{
    Reference {
        owner: state[MARK_WIDTH * v] as usize,
        run: Run {
            root: Bits::of(state[MARK_WIDTH * v + 1]),
            low: Bits::of(state[MARK_WIDTH * v + 2]),
            high: Bits::of(state[MARK_WIDTH * v + 3]),
        },
    }
}

// The first row of the list of node v: below 0 where none is stored.
fn list_row(state: &[i64], v: usize) -> i64
    requires { mark_width * v + mark_width ≤ length state.now }
    ensures { result ≡ mark_number state.now v 4 }
{
    state[MARK_WIDTH * v + 4]
}

// Whether a list is stored for node v.
fn is_listed(state: &[i64], v: usize) -> bool
    requires { mark_width * v + mark_width ≤ length state.now }
    ensures { result ≡ is_listed state.now v }
{
    0 <= list_row(state, v)
}

// Number `at` of a state, where it is not negative.
fn number_at(state: &[i64], at: usize) -> usize
    requires { (at < length state.now) × (pos 0 ≤ℤ get_or state.now at (pos 0)) }
    ensures { pos result ≡ get_or state.now at (pos 0) }
{
    state[at] as usize
}

// The row from which on the state is free.
pub fn free_row(state: &[i64]) -> usize
    requires { (free_at < length state.now) × (pos 0 ≤ℤ get_or state.now free_at (pos 0)) }
    ensures { result ≡ free_row state.now }
{
    number_at(state, FREE_AT)
}

// A kind of walk as the number that a state has for it: a state is numbers alone.
#[tactic(auto, unfolding(crate::specs::State::kind_number))]
fn kind_number(kind: WalkKind) -> i64
    ensures { result ≡ kind_number kind }
{
    kind as i64
}

// The kind of walk that a state is swept by.
fn kind_in(state: &[i64]) -> WalkKind
    requires { kind_at < length state.now }
    ensures { result ≡ kind_in state.now }
{
    if state[KIND_AT] == 0 {
        WalkKind::Reading
    } else {
        WalkKind::Writing
    }
}

// Where the list that is stored for node v stands.
fn stored_at(state: &[i64], v: usize) -> ListRows
    requires { (mark_width * v + mark_width ≤ length state.now) × (pos 0 ≤ℤ mark_number state.now v 4) × (pos 0 ≤ℤ mark_number state.now v 5) }
    ensures { (pos result.row ≡ mark_number state.now v 4) × (pos result.count ≡ mark_number state.now v 5) }
{
    ListRows {
        row: number_at(state, MARK_WIDTH * v + 4),
        count: number_at(state, MARK_WIDTH * v + 5),
    }
}

// How many records the list of node v has or may have, as its mark tells: those of its list, or of the lists that its rows come from, together; 0 of a node without
// room for its list. Nothing is promised of it, but that it is no more than 1,024: it tells which lists to store.
fn rows_at(state: &[i64], v: usize) -> usize
    requires { mark_width * v + mark_width ≤ length state.now }
    ensures { result ≤ max_paths }
{
    let rows = state[MARK_WIDTH * v + 5];
    if rows < 0 {
        MAX_PATHS
    } else {
        MAX_PATHS.min(rows as usize)
    }
}

// The same of node v once something comes to it from this owner.
fn rows_met(state: &[i64], v: usize, owner: usize) -> i64
    requires { (mark_width * v + mark_width ≤ length state.now) × (mark_width * owner + mark_width ≤ length state.now) }
{
    let before = if is_met(state, v) {
        rows_at(state, v)
    } else {
        0
    };
    (before + rows_at(state, owner)) as i64
}

// Whether the list of node v would take too much of the arena: past the rows that are open to any list, one may take a quarter of what is left. So where
// nodes that need lists follow each other, the small lists among them are still stored, and what is gathered through edges comes from few lists.
fn crowded(state: &[i64], v: usize) -> bool
    requires { (length state.now ≡ state_room) × (v < max_nodes) × (pos 0 ≤ℤ get_or state.now free_at (pos 0)) × (free_row state.now ≤ arena_row + arena_rows) }
{
    let used = free_row(state);
    let rows = rows_at(state, v);
    OPEN_END < used + rows && ARENA_END - used < SHARE * rows
}

// Stores the mark of node v.
fn put_mark(state: &mut [i64], v: usize, f: Reference, row: i64, count: i64)
    requires { (mark_width * v + mark_width ≤ length state.old) × (f.owner < max_nodes) }
    ensures { state.new ≡ set_mark state.old v (marked (reference_of f) row count) }
{
    state[MARK_WIDTH * v] = f.owner as i64;
    state[MARK_WIDTH * v + 1] = f.run.root.0;
    state[MARK_WIDTH * v + 2] = f.run.low.0;
    state[MARK_WIDTH * v + 3] = f.run.high.0;
    state[MARK_WIDTH * v + 4] = row;
    state[MARK_WIDTH * v + 5] = count;
}

// What comes over edge e of what f takes of the node that it enters, where something has arrived at the node that it leaves.
fn brought_over(
    nodes: &[i64],
    edges: &[i64],
    e: usize,
    f: Reference,
    state: &[i64],
) -> Option<Reference>
    requires { Crossable nodes.now edges.now e (reference_of f) state.now }
    ensures { brought_of result ≡ crossing (graph_of nodes.now edges.now) (edge_at edges.now e) (reference_of f) state.now }
{
    let from = edge_from(edges, e);
    if !is_met(state, from) {
        return None;
    }
    step_into(nodes, edges, e, f, reference_at(state, from))
}

// Gathers the rows of what a reference brings, behind the first n rows, over at most `left` edges: from the list of its owner where one is stored, else through
// the edges that enter the owner. Returns how many rows stand there then.
fn gather(
    nodes: &[i64],
    edges: &[i64],
    plan: &[usize],
    f: Reference,
    left: usize,
    state: &mut [i64],
    n: usize,
) -> usize
    requires { Gatherable nodes.now edges.now plan.now (reference_of f) left state.old n }
    ensures { Gathered (kind_in state.old) (graph_of nodes.now edges.now) (root_in state.old) (reference_of f) state.old state.new n result }
{
    if is_listed(state, f.owner) {
        let list = stored_at(state, f.owner);
        let bits = extents::whole(nodes, number_at(state, ROOT_AT));
        return gather_list(state, list.row, list.count, f, bits.low, bits.high, n);
    }
    if left == 0 {
        return n;
    }
    let mut m = n;
    // The edges that enter a node are linked, each to the next, so they are no range.
    let mut e = first_entering(plan, f.owner);
    while e < edges.len() / EDGE_WIDTH {
        if let Some(part) = brought_over(nodes, edges, e, f, state) {
            m = gather(nodes, edges, plan, part, left - 1, state, m);
        }
        e = next_entering(plan, e);
    }
    m
}

// Makes the list of the records in rows `from` to `to`, where they stand. What stands behind it and in `spare` afterwards is space that was worked in.
pub fn normalise_between(state: &mut [i64], from: usize, to: usize, spare: &mut [i64]) -> ListRows
    requires { Normalisable state.old spare.old from to }
    ensures { Normalised state.old state.new from to result }
{
    ListRows {
        row: from,
        count: normalise_rows(&mut state[ROW_WIDTH * from..], to - from, spare),
    }
}

// Makes the list of what a reference brings, in the free part of the state.
fn make_list(
    nodes: &[i64],
    edges: &[i64],
    plan: &[usize],
    f: Reference,
    state: &mut [i64],
    spare: &mut [i64],
) -> ListRows
    requires { Makeable nodes.now edges.now plan.now (reference_of f) state.old spare.old }
    ensures { Made (kind_in state.old) (graph_of nodes.now edges.now) (root_in state.old) (reference_of f) state.old state.new result }
{
    let used = free_row(state);
    let n = gather(nodes, edges, plan, f, MAX_CHAIN, state, used);
    normalise_between(state, used, n, spare)
}

// Stores k rows from row `used` on as the list of node v, where they fit.
fn store_rows(nodes: &[i64], v: usize, used: usize, k: usize, state: &mut [i64])
    requires { Storable nodes.now v used k state.old }
    ensures { (es : List ℤ) → state.new ≡ storing (own (graph_of nodes.now es) (pos v)) v used k state.old }
{
    let all = own_reference(nodes, v);
    if ARENA_END < used + k {
        put_mark(state, v, all, NO_ROOM, 0);
        return;
    }
    put_mark(state, v, all, used as i64, k as i64);
    state[FREE_AT] = (used + k) as i64;
}

// Makes the list of a node that is its own owner and has none yet, and stores it where there is room.
fn store_list(
    nodes: &[i64],
    edges: &[i64],
    plan: &[usize],
    v: usize,
    state: &mut [i64],
    spare: &mut [i64],
)
    requires { Ownable nodes.now edges.now plan.now v state.old spare.old }
    ensures { ListMade nodes.now edges.now plan.now v state.old state.new }
{
    let reference = reference_at(state, v);
    if reference.owner != v || list_row(state, v) != NOT_LISTED || crowded(state, v) {
        return;
    }
    let list = make_list(nodes, edges, plan, reference, state, spare);
    store_rows(nodes, v, list.row, list.count, state);
}

// Marks node v with what has come to it: where something else had come before, v is its own owner.
fn meet(nodes: &[i64], v: usize, f: Reference, state: &mut [i64])
    requires { GoodRow nodes.now v × (v < max_nodes) × (mark_width * max_nodes ≤ length state.old) × (f.owner < max_nodes) }
    ensures { (rows : ℤ) × ((es : List ℤ) → state.new ≡ meeting state.old v (own (graph_of nodes.now es) (pos v)) (reference_of f) rows) }
{
    let rows = rows_met(state, v, f.owner);
    if !is_met(state, v) {
        put_mark(state, v, f, NOT_LISTED, rows);
        return;
    }
    if reference_at(state, v) == f {
        return;
    }
    put_mark(state, v, own_reference(nodes, v), NOT_LISTED, rows);
}

// Passes edge i of the plan: what has arrived at the node that it leaves comes to the node that it enters, if that is open to the walks. Before anything comes there, the node that it leaves
// may be given its list.
fn pass_edge(
    nodes: &[i64],
    edges: &[i64],
    plan: &[usize],
    i: usize,
    state: &mut [i64],
    spare: &mut [i64],
)
    requires { Passable nodes.now edges.now plan.now i state.old spare.old }
    ensures { Sweeping nodes.now edges.now plan.now (i + 1) state.new
        × (root_in state.new ≡ root_in state.old)
        × (kind_in state.new ≡ kind_in state.old) }
{
    let e = planned_row(plan, i);
    let from = edge_from(edges, e);
    if !is_met(state, from) {
        return;
    }
    let to = edge_to(edges, e);
    let Some(part) = brought_over(nodes, edges, e, own_reference(nodes, to), state) else {
        return;
    };
    if !extents::is_open(nodes, to, kind_in(state)) {
        return;
    }
    store_list(nodes, edges, plan, from, state, spare);
    meet(nodes, to, part, state);
}

// Marks the first `count` nodes with nothing.
fn clear_marks(state: &mut [i64], count: usize)
    requires { mark_width * count ≤ length state.old }
    ensures { Blank count state.new }
{
    for v in 0..count {
        state[MARK_WIDTH * v] = NO_OWNER;
    }
}

// Marks the root with all its bits, whose list is the first row of the arena, if it is open to walks of this kind: from a closed root nothing comes.
fn mark_root(nodes: &[i64], root: usize, kind: WalkKind, state: &mut [i64])
    requires { GoodRow nodes.now root × (root < max_nodes) × (length state.old ≡ state_room) }
    ensures { (es : List ℤ) → state.new
        ≡ root_marked (is_open kind (node (graph_of nodes.now es) (pos root))) (own (graph_of nodes.now es) (pos root)) root state.old }
{
    if !extents::is_open(nodes, root, kind) {
        return;
    }
    put_mark(state, root, own_reference(nodes, root), ARENA_ROW as i64, 1);
}

// Marks the root, writes a record of all its bits as the first row of the arena, and stores which node the root is and which kind of walk is meant.
fn start_root(nodes: &[i64], root: usize, kind: WalkKind, state: &mut [i64])
    requires { GoodRow nodes.now root × (root < max_nodes) × (length state.old ≡ state_room) }
    ensures { (es : List ℤ) → state.new
        ≡ begun kind (is_open kind (node (graph_of nodes.now es) (pos root))) (own (graph_of nodes.now es) (pos root)) root state.old }
{
    mark_root(nodes, root, kind, state);
    let bits = extents::whole(nodes, root);
    let used = append_row(
        state,
        ARENA_ROW,
        Row {
            first: 0,
            second: bits.low.0,
            third: bits.high.0,
        },
    );
    state[FREE_AT] = used as i64;
    state[ROOT_AT] = root as i64;
    state[KIND_AT] = kind_number(kind);
}

// Sweeps a graph from a root by walks of this kind: every node that leads to a paired leaf is marked with what arrives at it.
pub fn sweep_root(
    nodes: &[i64],
    edges: &[i64],
    plan: &[usize],
    root: usize,
    kind: WalkKind,
    state: &mut [i64],
    spare: &mut [i64],
)
    requires { Sweepable nodes.now edges.now plan.now root state.old spare.old }
    ensures { Swept kind nodes.now edges.now plan.now root state.new }
{
    clear_marks(state, nodes.len() / NODE_WIDTH);
    start_root(nodes, root, kind, state);
    for i in 0..planned_count(plan) {
        pass_edge(nodes, edges, plan, i, state, spare);
    }
}

// Appends a row for each record of what arrives at a leaf, behind the first n rows of the state: leaf bits count from the leaf's first bit. Nothing is normalised.
// Returns how many rows stand there then.
pub fn append_rows(
    nodes: &[i64],
    edges: &[i64],
    plan: &[usize],
    leaf: usize,
    state: &mut [i64],
    n: usize,
) -> usize
    requires { Appendable nodes.now edges.now plan.now leaf state.old n }
    ensures { (kind : WalkKind) (root : ℕ) → Swept kind nodes.now edges.now plan.now root state.old
        → LeafAppended kind (graph_of nodes.now edges.now) (pos root) (pos leaf) state.old state.new n result }
{
    if !is_met(state, leaf) {
        return n;
    }
    let bits = extents::whole(nodes, leaf);
    let part = shifted(reference_at(state, leaf), bits.low);
    gather(nodes, edges, plan, part, MAX_CHAIN, state, n)
}
