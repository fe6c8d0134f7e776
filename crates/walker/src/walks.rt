// The walk of documents 01 and 02 by single bit addresses: no runs, no lists. From each bit address of a root it notes every place, a node and an
// address there, that a walk of a kind comes to, and keeps the leaf bits. The leaf bits of banks join in those of their group.
use generator::numbers::number;
use generator::rows::{Access, Edge, Map, Node};
use model::WalkKind;
use std::cmp::Ordering;
use std::mem;

// What is asked for: walks of a kind from a root to a leaf.
#[derive(Clone, Copy)]
pub(crate) struct Asked {
    pub(crate) root: usize,
    pub(crate) leaf: usize,
    pub(crate) kind: WalkKind,
}

// No root of a map here has a bit address as large as this.
pub(crate) const ROOT_BITS: usize = 640;

// The leaf bits kept of one root bit at most.
pub(crate) const SLOTS: usize = 16;

// The leaf bits of a root bit, ascending. What is left of the slots holds NO_BIT.
pub(crate) type Slots = [i64; SLOTS];

// A reached set: for each root bit the leaf bits.
pub(crate) type Reached = [Slots; ROOT_BITS];

// Above every leaf bit, and above every bit of a group.
const NO_BIT: i64 = 4611686018427387904;

// The set of nothing.
pub(crate) const NOTHING: Reached = [[NO_BIT; SLOTS]; ROOT_BITS];

// Places noted of one root bit at most.
const MAX_PLACES: usize = 256;

// Neither a leaf bit nor the bit at which a bank begins comes to this.
const HALF: i64 = 1152921504606846976;

// A place: a node and an address there.
#[derive(Clone, Copy)]
struct Place {
    node: usize,
    address: usize,
}

const NOWHERE: Place = Place {
    node: 0,
    address: 0,
};

// The places noted so far.
#[derive(Drop)]
struct Places {
    places: [Place; MAX_PLACES],
    count: usize,
}

impl Places {
    // The place that was noted as the k-th, if so many are.
    fn get(&self, k: usize) -> Option<Place> {
        if k < self.count {
            self.places.get(k).copied()
        } else {
            None
        }
    }

    // Notes one more place if the address lives there and the node is open.
    fn stand(&mut self, map: &Map, place: Place, kind: WalkKind) {
        let node = map.node(place.node);
        if node.has(place.address) && is_open(node, kind) {
            if let Some(next) = self.places.get_mut(self.count) {
                *next = place;
                self.count += 1;
            }
        }
    }
}

// The address after a walk over an edge: the address less offset times the unit of the node that the edge enters. Below 0 there is none.
fn moved(address: usize, edge: Edge, entered: Node) -> Option<usize> {
    let bits = edge.offset.saturating_mul(number(entered.unit));
    usize::try_from(number(address).saturating_sub(bits)).ok()
}

// Whether a node lets walks of this kind stand on it.
fn is_open(node: Node, kind: WalkKind) -> bool {
    match kind {
        WalkKind::Reading => matches!(node.access, Access::ReadWrite | Access::ReadOnly),
        WalkKind::Writing => matches!(node.access, Access::ReadWrite | Access::WriteOnly),
    }
}

// Puts a leaf bit among those of a root bit, which ascend: those above it move a slot on. Gives whether there was room.
fn keep(slots: &mut Slots, bit: i64) -> bool {
    let mut carried = bit;
    for slot in slots.iter_mut() {
        match carried.cmp(slot) {
            Ordering::Less => mem::swap(slot, &mut carried),
            Ordering::Equal => return true,
            Ordering::Greater => {}
        }
    }
    carried == NO_BIT
}

// Keeps the leaf bits of every place that a walk from a bit address of the root comes to.
fn walk_bit(map: &Map, asked: Asked, root_bit: usize, slots: &mut Slots) {
    let mut places = Places {
        places: [NOWHERE; MAX_PLACES],
        count: 0,
    };
    let start = Place {
        node: asked.root,
        address: root_bit,
    };
    places.stand(map, start, asked.kind);
    for k in 0..MAX_PLACES {
        let Some(place) = places.get(k) else {
            return;
        };
        if place.node == asked.leaf {
            let first = map.node(asked.leaf).first_bit();
            keep(slots, number(place.address.saturating_sub(first)));
        }
        for edge in map.edges() {
            if edge.from == place.node {
                if let Some(address) = moved(place.address, *edge, map.node(edge.to)) {
                    let node = edge.to;
                    places.stand(map, Place { node, address }, asked.kind);
                }
            }
        }
    }
}

// Keeps the reached set of what is asked for.
pub(crate) fn reach(map: &Map, asked: Asked, reached: &mut Reached) {
    for (root_bit, slots) in reached.iter_mut().enumerate() {
        walk_bit(map, asked, root_bit, slots);
    }
}

// The leaf bits among the slots of a root bit.
pub(crate) fn bits_of(slots: &Slots) -> &[i64] {
    &slots[..slots.partition_point(|bit| *bit < NO_BIT)]
}

// The leaf bits of an address. Outside of the reached set there are none.
pub(crate) fn bits_at(reached: &Reached, address: i64) -> &[i64] {
    match usize::try_from(address) {
        Ok(root_bit) if root_bit < ROOT_BITS => bits_of(&reached[root_bit]),
        _ => &[],
    }
}

// A leaf bit of a bank that begins at this bit of its group, as a leaf bit of the group.
fn group_bit(bit: i64, start: i64) -> i64 {
    if 0 <= start && start < HALF && bit < HALF {
        bit + start
    } else {
        NO_BIT
    }
}

// Joins the reached set of a bank in that of its group. Gives whether there was room.
pub(crate) fn join(bank: &Reached, start: i64, reached: &mut Reached) -> bool {
    for (from, to) in bank.iter().zip(reached.iter_mut()) {
        for bit in bits_of(from) {
            if !keep(to, group_bit(*bit, start)) {
                return false;
            }
        }
    }
    true
}
