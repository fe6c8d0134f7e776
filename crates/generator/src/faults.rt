// Faults in a node table and in a pairing, and the refusal that is given for the first of them, looked for row by row.
use crate::draws::Draws;
use crate::numbers::rest;
use crate::rows::{Access, Kind, Map, Node, Pair};

// Faults in a pairing: a bank that begins below the leaf bits, above them or in a root row, an implementation leaf twice, a specification root twice,
// and a root in the place of a leaf.
#[derive(Clone, Copy, PartialEq, Eq)]
enum Fault {
    AtBelow,
    AtAbove,
    AtInRoots,
    LeafTwice,
    RootTwice,
    RootForLeaf,
}

impl Fault {
    // All faults, in the order in which they are drawn.
    const ALL: [Fault; 6] = [
        Fault::AtBelow,
        Fault::AtAbove,
        Fault::AtInRoots,
        Fault::LeafTwice,
        Fault::RootTwice,
        Fault::RootForLeaf,
    ];
}

// The highest leaf bit at which a bank may begin. It stands here apart from that of the library, which is held against it.
pub const LAST_AT: i64 = 36028797018963967;

// Accesses next to those that there are.
const UNKNOWN: [Access; 2] = [Access::Unknown(-1), Access::Unknown(3)];

// One graph in so many has a node with such an access.
const UNKNOWN_DRAWS: usize = 8;

// Tables by the numbers that refusals give, apart from those of the library too.
pub const SPEC_NODES: usize = 0;

pub const IMPL_NODES: usize = 2;

const ROOT_PAIRS: usize = 4;

const LEAF_PAIRS: usize = 5;

// Why a row is refused: refusals 2, 7, 8 and 16.
#[derive(Clone, Copy, PartialEq, Eq)]
pub enum Cause {
    Node,
    NotRootOrLeaf,
    PairedBefore,
    At,
}

// A refusal.
#[derive(Clone, Copy, PartialEq, Eq)]
pub struct Refusal {
    pub cause: Cause,
    pub table: usize,
    pub row: usize,
}

impl Kind {
    // Whether a node of this kind may stand in leaf rows, or else in root rows.
    fn fits(self, leaves: bool) -> bool {
        (self == Kind::Block) == leaves
    }
}

impl Pair {
    // Whether the bank may not begin at its leaf bit. A root row has none.
    fn is_bad(self, leaves: bool) -> bool {
        let last = if leaves { LAST_AT } else { 0 };
        self.at < 0 || self.at > last
    }

    // Whether two rows may not stand in one table: an implementation node twice, or in root rows a specification node.
    fn clashes(self, earlier: Pair, leaves: bool) -> bool {
        self.other == earlier.other || (!leaves && self.spec == earlier.spec)
    }
}

impl Map {
    // The refusal of a node table, if a node has an unknown access.
    pub fn node_refusal(&self, table: usize) -> Option<Refusal> {
        for (row, node) in self.nodes().iter().enumerate() {
            if matches!(node.access, Access::Unknown(_)) {
                return Some(Refusal {
                    cause: Cause::Node,
                    table,
                    row,
                });
            }
        }
        None
    }

    // Why a row that stands behind others is refused, if it is.
    fn cause_of(&self, spec: &Map, pair: Pair, before: &[Pair], leaves: bool) -> Option<Cause> {
        let fits = spec.node(pair.spec).kind.fits(leaves)
            && self.node(pair.other).kind.fits(leaves);
        if !fits {
            Some(Cause::NotRootOrLeaf)
        } else if pair.is_bad(leaves) {
            Some(Cause::At)
        } else if before.iter().any(|&earlier| pair.clashes(earlier, leaves)) {
            Some(Cause::PairedBefore)
        } else {
            None
        }
    }

    // The refusal of a table of pairs, if a row is refused.
    fn pair_refusal(
        &self,
        spec: &Map,
        pairs: &[Pair],
        leaves: bool,
        table: usize,
    ) -> Option<Refusal> {
        for (row, pair) in pairs.iter().enumerate() {
            if let Some(cause) = self.cause_of(spec, *pair, &pairs[..row], leaves) {
                return Some(Refusal { cause, table, row });
            }
        }
        None
    }

    // The refusal of a specification and an implementation, which has their pairing: the node tables before the pairing, the specification's before the
    // implementation's, and root rows before leaf rows.
    pub fn first_refusal(&self, spec: &Map) -> Option<Refusal> {
        spec.node_refusal(SPEC_NODES)
            .or(self.node_refusal(IMPL_NODES))
            .or(self.pair_refusal(spec, self.roots(), false, ROOT_PAIRS))
            .or(self.pair_refusal(spec, self.leaves(), true, LEAF_PAIRS))
    }

    // Puts a fault that is drawn into a pairing.
    fn put_fault(&mut self, draws: &mut Draws) {
        let fault = draws.pick(&Fault::ALL);
        let count = match fault {
            Fault::AtInRoots | Fault::RootTwice => self.shape.roots,
            _ => self.shape.pairs,
        };
        let row = draws.below(count);
        let next = rest(row.saturating_add(1), count);
        let mut root = self.root(row);
        let mut leaf = self.leaf(row);
        match fault {
            Fault::AtBelow => leaf.at = -1,
            Fault::AtAbove => leaf.at = LAST_AT + 1,
            Fault::AtInRoots => root.at = 1,
            Fault::LeafTwice => leaf.other = self.leaf(next).other,
            Fault::RootTwice => root.spec = self.root(next).spec,
            Fault::RootForLeaf => leaf.spec = self.root(0).spec,
        }
        self.put_root(row, root);
        self.put_leaf(row, leaf);
    }

    // Puts two faults into a pairing.
    pub fn put_faults(&mut self, draws: &mut Draws) {
        self.put_fault(draws);
        self.put_fault(draws);
    }

    // Gives a node that is drawn an unknown access, if one is drawn.
    pub fn put_unknown(&mut self, draws: &mut Draws) {
        if draws.one_in(UNKNOWN_DRAWS) {
            let v = draws.below(self.shape.nodes);
            self.put_access(v, draws.pick(&UNKNOWN));
        }
    }
}
