// Maps as their tables are handed to the calls under test: rows numbered along the edges, against them or shuffled, and the pairing of two maps.
use crate::draws::Draws;
use crate::numbers::rest;
use crate::rows::{Edge, MAX_EDGES, Map, Pair};

// Directions in which the rows of a table stand.
#[derive(Clone, Copy, PartialEq, Eq)]
pub enum Direction {
    Along,
    Against,
    Shuffled,
}

impl Direction {
    // All directions, in the order in which they are drawn.
    pub const ALL: [Direction; 3] = [Direction::Along, Direction::Against, Direction::Shuffled];
}

// An order of some rows: at each place the row's place in it.
#[derive(Clone, Copy)]
pub struct Order {
    places: [usize; MAX_EDGES],
}

impl Order {
    // The order of so many rows.
    pub fn draw(count: usize, direction: Direction, draws: &mut Draws) -> Order {
        let mut order = Order {
            places: [0; MAX_EDGES],
        };
        for row in 0..count {
            match direction {
                Direction::Along => order.put(row, row),
                Direction::Against => order.put(row, count - 1 - row),
                Direction::Shuffled => order.shuffle(row, draws),
            }
        }
        order
    }

    // The place of a row.
    pub fn of(&self, row: usize) -> usize {
        self.places.get(row).copied().unwrap_or(0)
    }

    // Gives a row a place.
    fn put(&mut self, row: usize, place: usize) {
        if let Some(there) = self.places.get_mut(row) {
            *there = place;
        }
    }

    // Gives a row a place among those up to it that is drawn. The row that was there moves behind them.
    fn shuffle(&mut self, row: usize, draws: &mut Draws) {
        let other = draws.below(row.saturating_add(1));
        self.put(row, row);
        self.put(row, self.of(other));
        self.put(other, row);
    }
}

impl Map {
    // The graph of a plain map in a direction, and the order of its nodes. The pairing is left out.
    pub fn write_graph(&self, direction: Direction, draws: &mut Draws) -> (Map, Order) {
        let mut map = Map::empty(self.shape);
        let nodes = Order::draw(self.shape.nodes, direction, draws);
        for (v, node) in self.nodes().iter().enumerate() {
            map.put_node(nodes.of(v), *node);
        }
        let edges = Order::draw(self.shape.edges, direction, draws);
        for (e, edge) in self.edges().iter().enumerate() {
            let written = Edge {
                from: nodes.of(edge.from),
                to: nodes.of(edge.to),
                offset: edge.offset,
            };
            map.put_edge(edges.of(e), written);
        }
        (map, nodes)
    }

    // Writes the pairing of a plain map, its rows shuffled, with the nodes' numbers in the orders of both graphs.
    pub fn write_pairs(&mut self, plain: &Map, spec: &Order, other: &Order, draws: &mut Draws) {
        let written = |pair: Pair| Pair {
            spec: spec.of(pair.spec),
            other: other.of(pair.other),
            at: pair.at,
        };
        let roots = Order::draw(plain.shape.roots, Direction::Shuffled, draws);
        for (row, pair) in plain.roots().iter().enumerate() {
            self.put_root(roots.of(row), written(*pair));
        }
        let leaves = Order::draw(plain.shape.pairs, Direction::Shuffled, draws);
        for (row, pair) in plain.leaves().iter().enumerate() {
            self.put_leaf(leaves.of(row), written(*pair));
        }
    }

    // Pairs the roots of a plain map with themselves, and its leaves with those `turn` further.
    pub fn pair_plain(&mut self, turn: usize) {
        let shape = self.shape;
        for root in 0..shape.roots {
            let pair = Pair {
                spec: root,
                other: root,
                at: 0,
            };
            self.put_root(root, pair);
        }
        for k in 0..shape.leaves {
            let turned = rest(k.saturating_add(turn), shape.leaves);
            let pair = Pair {
                spec: shape.inner.saturating_add(k),
                other: shape.inner.saturating_add(turned),
                at: 0,
            };
            self.put_leaf(k, pair);
        }
    }
}
