// Maps, row by row.
ghost use Rattle.std.specs.Prelude.{◌≡◌, ◌≤◌, ◌<◌, IsTrue, length};

// Rows of a map at most.
pub const MAX_NODES: usize = 24;

pub const MAX_EDGES: usize = 64;

pub const MAX_ROOTS: usize = 2;

pub const MAX_LEAVES: usize = 8;

// Kinds of nodes.
#[derive(Clone, Copy, PartialEq, Eq)]
pub enum Kind {
    Space,
    Segment,
    Block,
}

// Accesses of nodes. An unknown one is a number that no node may have as its access.
#[derive(Clone, Copy, PartialEq, Eq)]
pub enum Access {
    ReadWrite,
    ReadOnly,
    WriteOnly,
    Unknown(i64),
}

// The number of an access in a node row.
impl From<Access> for i64 {
    fn from(access: Access) -> i64 {
        match access {
            Access::ReadWrite => 0,
            Access::ReadOnly => 1,
            Access::WriteOnly => 2,
            Access::Unknown(number) => number,
        }
    }
}

// A node row.
#[derive(Clone, Copy, PartialEq, Eq)]
pub struct Node {
    pub kind: Kind,
    pub base: usize,
    pub range: usize,
    pub unit: usize,
    pub access: Access,
}

// An edge row.
#[derive(Clone, Copy, PartialEq, Eq)]
pub struct Edge {
    pub from: usize,
    pub to: usize,
    pub offset: i64,
}

// A root row or a leaf row: a node of the specification, a node of the implementation, and the leaf bit at which the bank begins.
#[derive(Clone, Copy, PartialEq, Eq)]
pub struct Pair {
    pub spec: usize,
    pub other: usize,
    pub at: i64,
}

// What stands in rows that are not given.
const NO_NODE: Node = Node {
    kind: Kind::Space,
    base: 0,
    range: 0,
    unit: 0,
    access: Access::ReadWrite,
};

const NO_EDGE: Edge = Edge {
    from: 0,
    to: 0,
    offset: 0,
};

const NO_PAIR: Pair = Pair {
    spec: 0,
    other: 0,
    at: 0,
};

// The sizes of a map. `inner` counts roots and nodes between, `pairs` leaf rows.
#[derive(Clone, Copy, PartialEq, Eq)]
pub struct Shape {
    pub roots: usize,
    pub inner: usize,
    pub leaves: usize,
    pub nodes: usize,
    pub edges: usize,
    pub pairs: usize,
}

// A map: a graph, and of an implementation its pairing with the specification. A row that is not there reads as zeros, and none is written in its place.
#[derive(Clone, Copy)]
pub struct Map {
    pub shape: Shape,
    nodes: [Node; MAX_NODES],
    edges: [Edge; MAX_EDGES],
    roots: [Pair; MAX_ROOTS],
    leaves: [Pair; MAX_LEAVES],
}

impl Node {
    // The first bit of a node.
    pub fn first_bit(self) -> usize {
        self.base.saturating_mul(self.unit)
    }

    // The bit after the last bit of a node.
    pub fn end_bit(self) -> usize {
        self.base
            .saturating_add(self.range)
            .saturating_mul(self.unit)
    }

    // How many bits a node has.
    pub fn bit_count(self) -> usize {
        self.end_bit().saturating_sub(self.first_bit())
    }

    // Whether an address lies between the first and the last bit of a node.
    pub fn has(self, address: usize) -> bool {
        (self.first_bit()..self.end_bit()).contains(&address)
    }
}

impl Map {
    // A map of these sizes whose rows are all zeros.
    pub fn empty(shape: Shape) -> Map
        ensures { result.shape ≡ shape }
    {
        Map {
            shape,
            nodes: [NO_NODE; MAX_NODES],
            edges: [NO_EDGE; MAX_EDGES],
            roots: [NO_PAIR; MAX_ROOTS],
            leaves: [NO_PAIR; MAX_LEAVES],
        }
    }

    // The node rows.
    pub fn nodes(&self) -> &[Node]
        ensures { length result.now ≤ MAX_NODES }
    {
        &self.nodes[..self.shape.nodes.min(MAX_NODES)]
    }

    // The edge rows.
    pub fn edges(&self) -> &[Edge]
        ensures { length result.now ≤ MAX_EDGES }
    {
        &self.edges[..self.shape.edges.min(MAX_EDGES)]
    }

    // The root rows.
    pub fn roots(&self) -> &[Pair]
        ensures { length result.now ≤ MAX_ROOTS }
    {
        &self.roots[..self.shape.roots.min(MAX_ROOTS)]
    }

    // The leaf rows.
    pub fn leaves(&self) -> &[Pair]
        ensures { length result.now ≤ MAX_LEAVES }
    {
        &self.leaves[..self.shape.pairs.min(MAX_LEAVES)]
    }

    // A node row.
    pub fn node(&self, v: usize) -> Node {
        self.nodes.get(v).copied().unwrap_or(NO_NODE)
    }

    // An edge row.
    pub fn edge(&self, e: usize) -> Edge {
        self.edges.get(e).copied().unwrap_or(NO_EDGE)
    }

    // A root row.
    pub fn root(&self, row: usize) -> Pair {
        self.roots.get(row).copied().unwrap_or(NO_PAIR)
    }

    // A leaf row.
    pub fn leaf(&self, row: usize) -> Pair {
        self.leaves.get(row).copied().unwrap_or(NO_PAIR)
    }

    // Sets a node row.
    pub fn put_node(&mut self, v: usize, node: Node)
        ensures { self.new.shape ≡ self.old.shape }
    {
        if let Some(row) = self.nodes.get_mut(v) {
            *row = node;
        }
    }

    // Sets an edge row.
    pub fn put_edge(&mut self, e: usize, edge: Edge)
        ensures { self.new.shape ≡ self.old.shape }
    {
        if let Some(row) = self.edges.get_mut(e) {
            *row = edge;
        }
    }

    // Sets a root row.
    pub fn put_root(&mut self, row: usize, pair: Pair)
        ensures { self.new.shape ≡ self.old.shape }
    {
        if let Some(place) = self.roots.get_mut(row) {
            *place = pair;
        }
    }

    // Sets a leaf row.
    pub fn put_leaf(&mut self, row: usize, pair: Pair)
        ensures { self.new.shape ≡ self.old.shape }
    {
        if let Some(place) = self.leaves.get_mut(row) {
            *place = pair;
        }
    }

    // Adds a node row behind the others, if there is room.
    pub fn push_node(&mut self, node: Node) {
        if let Some(row) = self.nodes.get_mut(self.shape.nodes) {
            *row = node;
            self.shape.nodes += 1;
        }
    }

    // Adds an edge row behind the others, if there is room.
    pub fn push_edge(&mut self, edge: Edge) {
        if let Some(row) = self.edges.get_mut(self.shape.edges) {
            *row = edge;
            self.shape.edges += 1;
        }
    }

    // Adds a leaf row behind the others, if there is room.
    pub fn push_leaf(&mut self, pair: Pair) {
        if let Some(row) = self.leaves.get_mut(self.shape.pairs) {
            *row = pair;
            self.shape.pairs += 1;
        }
    }

    // Gives a node another access.
    pub fn put_access(&mut self, v: usize, access: Access)
        ensures { self.new.shape ≡ self.old.shape }
    {
        self.put_node(
            v,
            Node {
                access,
                ..self.node(v)
            },
        );
    }

    // Whether a map has room for one more node, and for each of its edges once more.
    pub fn has_room(&self) -> bool
        ensures { IsTrue result → self.now.shape.nodes < MAX_NODES }
    {
        self.shape.nodes < MAX_NODES && self.shape.edges.saturating_mul(2) < MAX_EDGES
    }
}
