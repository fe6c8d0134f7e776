// Maps by a seeded generator, small enough to walk bit by bit: every list, walk and batch for each kind of walk, and every verdict, count, first pair and
// address of the calls under test is held against a walk that knows only single bit addresses. Prints what was tried, and the differences found.
#![tactic(auto)]

mod batched;
mod checks;
mod comparisons;
mod records;
mod refused;
mod sets;
mod tally;
mod walks;

use generator::accesses::Closed;
use generator::draws::Draws;
use generator::graphs::Graph;
use generator::maps::{Style, UNITS};
use generator::orders::Direction;
use generator::rows::{Access, Edge, Map, Node, Shape};
use habits::Habit;
use habits::arrangements::{Arrangement, draw_group};
use tally::{Counted, Counts};

// Maps tried.
const MAPS: usize = 5000;

// A habit is followed twice at least, and so many times more at most.
const MORE_OFTEN: usize = 3;

// Second habits: one map in so many has two.
const SECOND: usize = 4;

// Groups of banks: one map in so many has one, and one in so many of these a second.
const GROUP: usize = 2;

const SECOND_GROUP: usize = 4;

// One map in so many has one unit, a given one, for all its nodes.
const UNIT_DRAWS: usize = 20;

// Draws the direction of a map's tables.
fn draw_direction(counts: &mut Counts, draws: &mut Draws) -> Direction {
    let direction = draws.pick(&Direction::ALL);
    counts.count(Counted::Tables(direction));
    direction
}

// Counts a node that is closed to a kind of walk by its access, and by its part in the map.
fn count_closed(shape: Shape, v: usize, access: Access, counts: &mut Counts) {
    if access == Access::ReadWrite {
        return;
    }
    counts.count_if(Counted::ReadOnly, access == Access::ReadOnly);
    counts.count_if(Counted::WriteOnly, access == Access::WriteOnly);
    counts.count_if(Counted::ClosedRoots, v < shape.roots);
    counts.count_if(Counted::ClosedLeaves, v >= shape.inner);
}

// Counts a leaf with a base, or another node that no edge leaves.
fn count_node(map: &Map, v: usize, node: Node, counts: &mut Counts) {
    count_closed(map.shape, v, node.access, counts);
    if v >= map.shape.inner {
        counts.count_if(Counted::LeavesWithBase, node.base > 0);
    } else {
        let left = map.edges().iter().any(|edge| edge.from == v);
        counts.count_if(Counted::DeadEnds, !left);
    }
}

// Counts an edge by its offset, and by whether an edge before it has the same ends.
fn count_edge(map: &Map, e: usize, edge: Edge, counts: &mut Counts) {
    counts.count_if(Counted::NegativeOffsets, edge.offset < 0);
    let parallel = map
        .edges()
        .iter()
        .take(e)
        .any(|other| other.from == edge.from && other.to == edge.to);
    counts.count_if(Counted::ParallelEdges, parallel);
}

// Counts what a plain map has in it.
fn count_map(map: &Map, counts: &mut Counts) {
    counts.count_if(Counted::SeveralRoots, map.shape.roots > 1);
    counts.count_if(Counted::SeveralLeaves, map.shape.leaves > 1);
    for (v, node) in map.nodes().iter().enumerate() {
        count_node(map, v, *node, counts);
    }
    for (e, edge) in map.edges().iter().enumerate() {
        count_edge(map, e, *edge, counts);
    }
}

// Draws a plain specification map, and counts what it has in it.
fn draw_map(counts: &mut Counts, draws: &mut Draws) -> Map {
    let style = draws.pick(&Style::ALL);
    let units = UNITS.get(draws.below(UNIT_DRAWS)).copied();
    let mut map = Map::empty(Shape::draw(style, draws));
    map.draw_nodes(style, units, draws);
    map.draw_edges(style, draws);
    let closed = Closed::draw(draws);
    map.draw_accesses(closed, draws);
    counts.count(Counted::Maps);
    counts.count(Counted::OfStyle(style));
    counts.count(Counted::WithClosed(closed));
    counts.count_if(Counted::MixedUnits, units.is_none());
    count_map(&map, counts);
    map
}

// Makes a group of banks of a leaf that is drawn.
fn add_group(map: &mut Map, counts: &mut Counts, draws: &mut Draws) {
    let arrangement = Arrangement::draw(draws);
    let row = draws.below(map.shape.leaves);
    let made = draw_group(map, row, arrangement, draws);
    counts.count_if(Counted::Arranged(arrangement), made);
}

// Changes a plain specification map into an implementation that is paired with it: some leaves become banks, then a habit changes the map, and sometimes a
// second one.
fn change_plain(map: &mut Map, counts: &mut Counts, draws: &mut Draws) {
    let habit = Habit::draw(draws);
    map.pair_plain(habit.turn());
    if draws.one_in(GROUP) {
        add_group(map, counts, draws);
        if draws.one_in(SECOND_GROUP) {
            add_group(map, counts, draws);
        }
    }
    counts.count(Counted::ByHabit(habit));
    let often = 2 + draws.below(MORE_OFTEN);
    habits::change_often(map, habit, often, draws);
    if draws.one_in(SECOND) {
        let second = Habit::draw_second(draws);
        counts.count(Counted::ByHabit(second));
        habits::change(map, second, draws);
    }
}

// Makes a specification and its implementation, and tries both, then with faults in their node tables and their pairing.
fn try_map(map: usize, counts: &mut Counts) {
    let mut draws = Draws::new(map.saturating_mul(5).saturating_add(1));
    let mut plain = draw_map(counts, &mut draws);
    let direction = draw_direction(counts, &mut draws);
    let (spec, spec_order) = plain.write_graph(direction, &mut draws);
    change_plain(&mut plain, counts, &mut draws);
    let direction = draw_direction(counts, &mut draws);
    let (mut other, order) = plain.write_graph(direction, &mut draws);
    other.write_pairs(&plain, &spec_order, &order, &mut draws);
    comparisons::try_maps(&Graph::of(spec), &Graph::of(other), counts);
    refused::try_faults(spec, other, counts, &mut draws);
}

fn main(rt: HostRuntime) {
    let mut counts = Counts::new(rt.stdout());
    for map in 0..MAPS {
        try_map(map, &mut counts);
    }
    counts.print();
}
