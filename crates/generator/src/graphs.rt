// The tables of a map, number by number, as the calls under test are handed them.
use crate::numbers::number;
use crate::rows::{Edge, MAX_EDGES, MAX_LEAVES, MAX_NODES, MAX_ROOTS, Map, Node, Pair, Shape};

// Numbers of a node row, and of an edge row or a pair row.
pub const NODE_WIDTH: usize = 5;

pub const EDGE_WIDTH: usize = 3;

// The tables of a map. Rows behind those that the map has are not lent.
#[derive(Drop)]
pub struct Tables {
    shape: Shape,
    nodes: [[i64; NODE_WIDTH]; MAX_NODES],
    edges: [[i64; EDGE_WIDTH]; MAX_EDGES],
    roots: [[i64; EDGE_WIDTH]; MAX_ROOTS],
    leaves: [[i64; EDGE_WIDTH]; MAX_LEAVES],
}

// The numbers of a node row.
impl From<Node> for [i64; NODE_WIDTH] {
    fn from(node: Node) -> Self {
        [
            node.kind as i64,
            number(node.base),
            number(node.range),
            number(node.unit),
            node.access.into(),
        ]
    }
}

// The numbers of an edge row.
impl From<Edge> for [i64; EDGE_WIDTH] {
    fn from(edge: Edge) -> Self {
        [number(edge.from), number(edge.to), edge.offset]
    }
}

// The numbers of a root row or a leaf row.
impl From<Pair> for [i64; EDGE_WIDTH] {
    fn from(pair: Pair) -> Self {
        [number(pair.spec), number(pair.other), pair.at]
    }
}

// Writes the numbers of some rows.
pub fn write<T: Copy, R: Copy + From<T>>(rows: &[T], table: &mut [R]) {
    for (row, place) in rows.iter().zip(table.iter_mut()) {
        *place = R::from(*row);
    }
}

impl Tables {
    // The tables of a map.
    pub fn of(map: &Map) -> Tables {
        let mut tables = Tables {
            shape: map.shape,
            nodes: [[0; NODE_WIDTH]; MAX_NODES],
            edges: [[0; EDGE_WIDTH]; MAX_EDGES],
            roots: [[0; EDGE_WIDTH]; MAX_ROOTS],
            leaves: [[0; EDGE_WIDTH]; MAX_LEAVES],
        };
        write(map.nodes(), &mut tables.nodes);
        write(map.edges(), &mut tables.edges);
        write(map.roots(), &mut tables.roots);
        write(map.leaves(), &mut tables.leaves);
        tables
    }

    // The node table.
    pub fn nodes(&self) -> &[i64] {
        self.nodes[..self.shape.nodes.min(MAX_NODES)].as_flattened()
    }

    // The edge table.
    pub fn edges(&self) -> &[i64] {
        self.edges[..self.shape.edges.min(MAX_EDGES)].as_flattened()
    }

    // The root pairs.
    pub fn roots(&self) -> &[i64] {
        self.roots[..self.shape.roots.min(MAX_ROOTS)].as_flattened()
    }

    // The leaf pairs.
    pub fn leaves(&self) -> &[i64] {
        self.leaves[..self.shape.pairs.min(MAX_LEAVES)].as_flattened()
    }
}

// A map with its tables.
#[derive(Drop)]
pub struct Graph {
    pub map: Map,
    pub tables: Tables,
}

impl Graph {
    // A map, and the tables made of it.
    pub fn of(map: Map) -> Graph {
        Graph {
            map,
            tables: Tables::of(&map),
        }
    }
}
