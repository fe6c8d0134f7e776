// Groups of banks: several implementation leaves for one specification leaf. A leaf is parted in banks, or another leaf joins it. Banks that come
// from a part stand at the end of the plain map, and their leaf rows behind the others.
use crate::{Parts, halve_unit, part_node, part_window, raise_base, replaced, share_edges};
use generator::draws::Draws;
use generator::faults::LAST_AT;
use generator::numbers::{number, raised, rest, size};
use generator::rows::{Edge, MAX_LEAVES, Map, Pair};

// Arrangements of banks, in the order in which they are counted. Where nothing else is said, each bank begins where its bits were in the leaf.
#[derive(Clone, Copy, PartialEq, Eq)]
pub enum Arrangement {
    Touching,
    Gap,
    Overlapping,
    Exchanged,
    Shared,
    Moved,
    Beyond,
    Interleaved,
    Alone,
    Joined,
}

// Draws of an arrangement: ten arrangements, and some of them more than once.
const DRAWS: usize = 20;

// Bits by which a bank is moved at most, and by which it comes to lie beyond its leaf: no leaf has so many.
const MOVED_BITS: usize = 8;

const BEYOND_BITS: usize = 384;

// A leaf with fewer units than this is not parted.
const PARTED_UNITS: usize = 3;

impl Arrangement {
    // All arrangements, in the order in which they are drawn.
    pub const ALL: [Arrangement; 10] = [
        Arrangement::Touching,
        Arrangement::Gap,
        Arrangement::Overlapping,
        Arrangement::Exchanged,
        Arrangement::Shared,
        Arrangement::Moved,
        Arrangement::Beyond,
        Arrangement::Interleaved,
        Arrangement::Alone,
        Arrangement::Joined,
    ];

    // Draws an arrangement. Those that can leave every list as it is come up more often.
    pub fn draw(draws: &mut Draws) -> Arrangement {
        match draws.below(DRAWS) {
            10..=13 => Arrangement::Touching,
            14 | 15 => Arrangement::Overlapping,
            16 | 17 => Arrangement::Interleaved,
            18 => Arrangement::Gap,
            19 => Arrangement::Alone,
            k => Arrangement::ALL[k],
        }
    }

    // How the parts of a leaf lie in an arrangement.
    fn parts(self) -> Parts {
        match self {
            Arrangement::Gap => Parts::Apart,
            Arrangement::Overlapping => Parts::Overlapping,
            _ => Parts::Touching,
        }
    }

    // Where the last bank of a group begins in an arrangement, if its first begins here and it would begin there.
    fn draw_at(self, here: i64, there: i64, draws: &mut Draws) -> i64 {
        match self {
            Arrangement::Exchanged | Arrangement::Shared => here,
            Arrangement::Moved => draw_moved(there, draws),
            Arrangement::Beyond => draw_beyond(there, draws),
            _ => there,
        }
    }
}

// Lets the bank of a leaf row begin at a leaf bit.
fn put_at(map: &mut Map, row: usize, at: i64) {
    map.put_leaf(
        row,
        Pair {
            at,
            ..map.leaf(row)
        },
    );
}

// The leaf bit that lies so many units of a leaf row's leaf above the bank's first.
fn raised_at(map: &Map, row: usize, units: usize) -> i64 {
    let leaf = map.leaf(row);
    raised(leaf.at, units.saturating_mul(map.node(leaf.other).unit))
}

// Adds a node to the group of a leaf row: a bank that begins so many units further up.
fn add_bank(map: &mut Map, row: usize, bank: usize, units: usize) {
    map.push_leaf(Pair {
        spec: map.leaf(row).spec,
        other: bank,
        at: raised_at(map, row, units),
    });
}

// Parts the leaf of a leaf row in two banks. A leaf of few units is counted in smaller ones first.
fn part_leaf(map: &mut Map, row: usize, parts: Parts, draws: &mut Draws) {
    let v = map.leaf(row).other;
    if map.node(v).range < PARTED_UNITS {
        halve_unit(map, v);
    }
    let w = map.shape.nodes;
    if let Some(first) = part_node(map, v, parts, draws) {
        share_edges(map, v, w);
        add_bank(map, row, w, first);
    }
}

// Leads every second edge to node w if it enters node v.
fn deal_edges(map: &mut Map, v: usize, w: usize) {
    for k in 0..map.shape.edges / 2 {
        let edge = map.edge(k * 2);
        let to = replaced(edge.to, v, w);
        map.put_edge(k * 2, Edge { to, ..edge });
    }
}

// Shares the edges into a leaf out between it and a bank that has its bits, or all but the first unit: the reached sets interleave.
fn deal_leaf(map: &mut Map, row: usize, draws: &mut Draws) {
    let v = map.leaf(row).other;
    let w = map.shape.nodes;
    let range = map.node(v).range;
    let first = rest(draws.below(2), range);
    part_window(map, v, range, first);
    deal_edges(map, v, w);
    add_bank(map, row, w, first);
}

// Adds a bank to the group of a leaf row, if there is room.
fn draw_bank(map: &mut Map, row: usize, arrangement: Arrangement, draws: &mut Draws) {
    if !map.has_room() || map.shape.pairs >= MAX_LEAVES {
        return;
    }
    if arrangement == Arrangement::Interleaved {
        deal_leaf(map, row, draws);
    } else {
        part_leaf(map, row, arrangement.parts(), draws);
    }
}

// Adds one to three banks to the group of a leaf row. The leaf that is parted next is that of the row, or that of the last bank. Lets the banks of the row
// and of the last bank begin elsewhere, where the arrangement says so. Gives whether a bank was added.
fn draw_banks(map: &mut Map, row: usize, arrangement: Arrangement, draws: &mut Draws) -> bool {
    let before = map.shape.pairs;
    let more = draws.below(4).max(1);
    for _ in 0..more {
        let mut next = row;
        if map.shape.pairs > before && draws.one_in(2) {
            next = map.shape.pairs - 1;
        }
        draw_bank(map, next, arrangement, draws);
    }
    if map.shape.pairs <= before {
        return false;
    }
    let last = map.shape.pairs - 1;
    let here = map.leaf(row).at;
    let there = map.leaf(last).at;
    put_at(map, last, arrangement.draw_at(here, there, draws));
    if arrangement == Arrangement::Exchanged {
        put_at(map, row, there);
    }
    true
}

// A leaf bit moved up or down by a few bits.
fn draw_moved(at: i64, draws: &mut Draws) -> i64 {
    let by = 1 + draws.below(MOVED_BITS);
    if draws.one_in(2) {
        return number(size(at).saturating_sub(by));
    }
    raised(at, by)
}

// A leaf bit beyond the leaf.
fn draw_beyond(at: i64, draws: &mut Draws) -> i64 {
    if draws.one_in(4) {
        return LAST_AT;
    }
    raised(at, BEYOND_BITS + draws.below(BEYOND_BITS))
}

// Cuts a leaf's first units off: a group of one bank, which begins behind them, or near.
fn leave_alone(map: &mut Map, row: usize, draws: &mut Draws) {
    let cut = raise_base(map, map.leaf(row).other, draws);
    let mut at = raised_at(map, row, cut);
    if draws.one_in(4) {
        at = draw_moved(at, draws);
    }
    put_at(map, row, at);
}

// Lets the leaf of another leaf row join the group of a leaf row, and begin at some bit of it. Gives whether there is another.
fn join_leaf(map: &mut Map, row: usize, draws: &mut Draws) -> bool {
    let other = rest(row.saturating_add(1), map.shape.pairs);
    let joined = Pair {
        spec: map.leaf(row).spec,
        other: map.leaf(other).other,
        at: number(draws.below(BEYOND_BITS)),
    };
    map.put_leaf(other, joined);
    map.shape.pairs > 1
}

// Makes a group of the leaf of a leaf row. Gives whether it was made: banks are added only where there is room.
pub fn draw_group(map: &mut Map, row: usize, arrangement: Arrangement, draws: &mut Draws) -> bool {
    match arrangement {
        Arrangement::Alone => {
            leave_alone(map, row, draws);
            true
        }
        Arrangement::Joined => join_leaf(map, row, draws),
        _ => draw_banks(map, row, arrangement, draws),
    }
}
