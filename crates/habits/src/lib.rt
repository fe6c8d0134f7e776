// The habits by which an implementation map comes from a specification map. Nodes that a habit adds stand at the end of the plain map, so that
// roots and leaves keep their rows.
#![tactic(auto)]

pub mod arrangements;

use generator::accesses::Closed;
use generator::draws::Draws;
use generator::maps::{LARGEST_UNIT, SMALLEST_UNIT, Style, UNITS};
use generator::numbers::{difference, doubled, lowered, number, quotient, raised};
use generator::rows::{Access, Edge, Kind, Map, Node};

// Habits, in the order in which they are counted.
#[derive(Clone, Copy, PartialEq, Eq)]
pub enum Habit {
    Same,
    Bridge,
    RangeCut,
    BaseRaised,
    OffsetMoved,
    EdgeLeftOut,
    EdgeTwice,
    EdgeBeside,
    TouchingParts,
    OverlappingParts,
    Parted,
    SmallerUnit,
    BlockShortened,
    AccessChanged,
    KindsParted,
    KindsUnlike,
    Crosswise,
    AnotherMap,
    ClippingBridge,
}

impl Habit {
    // All habits, in the order in which they are drawn.
    pub const ALL: [Habit; 19] = [
        Habit::Same,
        Habit::Bridge,
        Habit::RangeCut,
        Habit::BaseRaised,
        Habit::OffsetMoved,
        Habit::EdgeLeftOut,
        Habit::EdgeTwice,
        Habit::EdgeBeside,
        Habit::TouchingParts,
        Habit::OverlappingParts,
        Habit::Parted,
        Habit::SmallerUnit,
        Habit::BlockShortened,
        Habit::AccessChanged,
        Habit::KindsParted,
        Habit::KindsUnlike,
        Habit::Crosswise,
        Habit::AnotherMap,
        Habit::ClippingBridge,
    ];

    // Draws a habit. Those that leave every list as it is come up less often.
    pub fn draw(draws: &mut Draws) -> Habit {
        match draws.below(DRAWS) {
            19..=22 => Habit::RangeCut,
            23..=26 => Habit::BaseRaised,
            27..=45 => Habit::OffsetMoved,
            46..=48 => Habit::BlockShortened,
            49..=56 => Habit::EdgeBeside,
            57 | 58 => Habit::AnotherMap,
            59..=63 => Habit::AccessChanged,
            64..=67 => Habit::KindsUnlike,
            k => Habit::ALL[k],
        }
    }

    // Draws a second habit, one of those that change a map in some of its rows.
    pub fn draw_second(draws: &mut Draws) -> Habit {
        draws.pick(&Habit::ALL[..Habit::Crosswise as usize])
    }

    // How far the leaves of the implementation are turned against those of the specification.
    pub fn turn(self) -> usize {
        if self == Habit::Crosswise { 1 } else { 0 }
    }
}

// Draws of a habit: nineteen habits, and some of them more than once.
const DRAWS: usize = 68;

// How the parts of a window lie to each other: they touch, overlap, or leave a unit open.
#[derive(Clone, Copy, PartialEq, Eq)]
pub(crate) enum Parts {
    Touching,
    Overlapping,
    Apart,
}

// Bits of a bridge's window.
const BRIDGE_BITS: usize = 4096;

// A bridge: a node whose window no address here leaves upwards.
fn draw_bridge(draws: &mut Draws) -> Node {
    let unit = draws.pick(&UNITS);
    Node {
        kind: draws.pick(&[Kind::Space, Kind::Segment]),
        base: 0,
        range: quotient(BRIDGE_BITS, unit),
        unit,
        access: Access::ReadWrite,
    }
}

// Leads an edge that is drawn through a bridge. It moves addresses up on the way in and down again on the way out, or first down where it clips: by up to
// two of the largest units.
fn bridge(map: &mut Map, clipping: bool, draws: &mut Draws) {
    if !map.has_room() {
        return;
    }
    let bridge = draw_bridge(draws);
    let e = draws.below(map.shape.edges);
    let far = draws.below(3);
    let Edge { from, to, offset } = map.edge(e);
    let b = map.shape.nodes;
    map.push_node(bridge);
    let there = quotient(LARGEST_UNIT, bridge.unit).saturating_mul(far);
    let back = quotient(LARGEST_UNIT, map.node(to).unit).saturating_mul(far);
    let (into, out) = if clipping {
        (number(there), lowered(offset, back))
    } else {
        (difference(0, there), raised(offset, back))
    };
    let entering = Edge {
        from,
        to: b,
        offset: into,
    };
    let leaving = Edge {
        from: b,
        to,
        offset: out,
    };
    map.put_edge(e, entering);
    map.push_edge(leaving);
}

// Cuts a node's last units off.
fn cut_range(map: &mut Map, v: usize, draws: &mut Draws) {
    let node = map.node(v);
    let range = draws.below(node.range.saturating_sub(1)).saturating_add(1);
    map.put_node(v, Node { range, ..node });
}

// Cuts a node's first units off. Gives how many.
pub(crate) fn raise_base(map: &mut Map, v: usize, draws: &mut Draws) -> usize {
    let node = map.node(v);
    if node.range < 2 {
        return 0;
    }
    let cut = 1 + draws.below(node.range - 1);
    let raised = Node {
        base: node.base.saturating_add(cut),
        range: node.range - cut,
        ..node
    };
    map.put_node(v, raised);
    cut
}

// An edge whose offset is moved by one unit or two.
fn draw_moved(edge: Edge, draws: &mut Draws) -> Edge {
    let by = 1 + draws.below(2);
    let offset = if draws.one_in(2) {
        lowered(edge.offset, by)
    } else {
        raised(edge.offset, by)
    };
    Edge { offset, ..edge }
}

// Moves the offset of an edge that is drawn.
fn move_offset(map: &mut Map, draws: &mut Draws) {
    let e = draws.below(map.shape.edges);
    map.put_edge(e, draw_moved(map.edge(e), draws));
}

// Leaves an edge out that is drawn: the last edge takes its place.
fn leave_out(map: &mut Map, draws: &mut Draws) {
    if map.shape.edges < 2 {
        return;
    }
    let e = draws.below(map.shape.edges);
    let last = map.shape.edges - 1;
    map.put_edge(e, map.edge(last));
    map.shape.edges = last;
}

// Puts an edge that is drawn into the map once more, or one beside it.
fn double(map: &mut Map, beside: bool, draws: &mut Draws) {
    if !map.has_room() {
        return;
    }
    let mut edge = map.edge(draws.below(map.shape.edges));
    if beside {
        edge = draw_moved(edge, draws);
    }
    map.push_edge(edge);
}

// Node w in the place of node v.
pub(crate) fn replaced(node: usize, v: usize, w: usize) -> usize {
    if node == v { w } else { node }
}

// Gives node w the edges of node v: a copy of each behind the others.
pub(crate) fn share_edges(map: &mut Map, v: usize, w: usize) {
    for e in 0..map.shape.edges {
        let edge = map.edge(e);
        let shared = Edge {
            from: replaced(edge.from, v, w),
            to: replaced(edge.to, v, w),
            ..edge
        };
        if shared != edge {
            map.push_edge(shared);
        }
    }
}

// Parts the window of node v: it keeps its first `kept` units, and one node more has those from `first` on.
pub(crate) fn part_window(map: &mut Map, v: usize, kept: usize, first: usize) {
    let node = map.node(v);
    let part = Node {
        base: node.base.saturating_add(first),
        range: node.range.saturating_sub(first),
        ..node
    };
    let range = kept;
    map.put_node(v, Node { range, ..node });
    map.push_node(part);
}

// Parts node v: one node more has the last of its units. Gives the unit of node v at which that begins, or nothing where there are too few units.
pub(crate) fn part_node(map: &mut Map, v: usize, parts: Parts, draws: &mut Draws) -> Option<usize> {
    let range = map.node(v).range;
    if range < 3 {
        return None;
    }
    let units = 1 + draws.below(range - 2);
    let (kept, first) = match parts {
        Parts::Touching => (units, units),
        Parts::Overlapping => (units + 1, units),
        Parts::Apart => (units, units + 1),
    };
    part_window(map, v, kept, first);
    Some(first)
}

// Makes two nodes of one on which both kinds of walk may stand: one of them for reads, the other for writes. Gives whether it was one.
fn part_kinds(map: &mut Map, v: usize, draws: &mut Draws) -> bool {
    let node = map.node(v);
    if node.access != Access::ReadWrite {
        return false;
    }
    let access = node.access.draw_other(draws);
    let other = access.opposite();
    map.put_access(v, access);
    map.push_node(Node {
        access: other,
        ..node
    });
    true
}

// A node between roots and leaves that is drawn, if there is one, and room for two in its place.
fn draw_between(map: &Map, draws: &mut Draws) -> Option<usize> {
    let between = map.shape.between();
    if map.has_room() && between > 0 {
        Some(map.shape.roots.saturating_add(draws.below(between)))
    } else {
        None
    }
}

// Makes two nodes of one between roots and leaves.
fn halve(map: &mut Map, parts: Parts, draws: &mut Draws) {
    if let Some(v) = draw_between(map, draws) {
        let w = map.shape.nodes;
        if part_node(map, v, parts, draws).is_some() {
            share_edges(map, v, w);
        }
    }
}

// Makes two nodes of one between roots and leaves, by kind of walk.
fn halve_kinds(map: &mut Map, draws: &mut Draws) {
    if let Some(v) = draw_between(map, draws) {
        let w = map.shape.nodes;
        if part_kinds(map, v, draws) {
            share_edges(map, v, w);
        }
    }
}

// Makes two nodes of one by kind of walk, cuts the first units of one off, and puts an edge beside one of the other: what one kind of walk lacks often
// lies below what the other has too much.
fn unlike(map: &mut Map, draws: &mut Draws) {
    if let Some(v) = draw_between(map, draws) {
        let w = map.shape.nodes;
        let before = map.shape.edges;
        if part_kinds(map, v, draws) {
            share_edges(map, v, w);
            raise_base(map, v, draws);
            let shared = map.shape.edges.saturating_sub(before);
            let edge = map.edge(before.saturating_add(draws.below(shared)));
            map.push_edge(draw_moved(edge, draws));
        }
    }
}

// Counts node v and the offsets into it in units half as large.
pub(crate) fn halve_unit(map: &mut Map, v: usize) {
    let node = map.node(v);
    if node.unit <= SMALLEST_UNIT {
        return;
    }
    let halved = Node {
        base: node.base.saturating_mul(2),
        range: node.range.saturating_mul(2),
        unit: node.unit / 2,
        ..node
    };
    map.put_node(v, halved);
    for e in 0..map.shape.edges {
        let edge = map.edge(e);
        if edge.to == v {
            let offset = doubled(edge.offset);
            map.put_edge(e, Edge { offset, ..edge });
        }
    }
}

// Draws all nodes and edges again, and the nodes' accesses.
fn draw_again(map: &mut Map, draws: &mut Draws) {
    map.draw_nodes(Style::Tree, None, draws);
    map.draw_edges(Style::Tree, draws);
    map.draw_accesses(Closed::draw(draws), draws);
}

// Gives a node that is drawn another access.
fn change_access(map: &mut Map, draws: &mut Draws) {
    let v = draws.below(map.shape.nodes);
    map.put_access(v, map.node(v).access.draw_other(draws));
}

// Changes a plain map by a habit.
pub fn change(map: &mut Map, habit: Habit, draws: &mut Draws) {
    let shape = map.shape;
    match habit {
        Habit::Same | Habit::Crosswise => {}
        Habit::Bridge => bridge(map, false, draws),
        Habit::ClippingBridge => bridge(map, true, draws),
        Habit::RangeCut => cut_range(map, draws.below(shape.nodes), draws),
        Habit::BlockShortened => {
            let leaf = shape.inner.saturating_add(draws.below(shape.leaves));
            cut_range(map, leaf, draws);
        }
        Habit::BaseRaised => {
            raise_base(map, draws.below(shape.inner), draws);
        }
        Habit::OffsetMoved => move_offset(map, draws),
        Habit::EdgeLeftOut => leave_out(map, draws),
        Habit::EdgeTwice => double(map, false, draws),
        Habit::EdgeBeside => double(map, true, draws),
        Habit::TouchingParts => halve(map, Parts::Touching, draws),
        Habit::OverlappingParts => halve(map, Parts::Overlapping, draws),
        Habit::Parted => halve(map, Parts::Apart, draws),
        Habit::KindsParted => halve_kinds(map, draws),
        Habit::KindsUnlike => unlike(map, draws),
        Habit::SmallerUnit => halve_unit(map, draws.below(shape.nodes)),
        Habit::AccessChanged => change_access(map, draws),
        Habit::AnotherMap => draw_again(map, draws),
    }
}

// Changes a plain map by one habit several times over.
pub fn change_often(map: &mut Map, habit: Habit, often: usize, draws: &mut Draws) {
    for _ in 0..often {
        change(map, habit, draws);
    }
}
