// The generator of specification maps. In a plain map the roots come first, then the nodes between, then the leaves, and every edge leads to
// a later node.
use crate::draws::Draws;
use crate::numbers::{difference, lowered, quotient, raised, rest};
use crate::rows::{Access, Edge, Kind, Map, Node, Shape};

// Styles: how the nodes hang together.
#[derive(Clone, Copy, PartialEq, Eq)]
pub enum Style {
    Tree,
    Chain,
    Flat,
    Diamonds,
    Windows,
}

impl Style {
    // All styles, in the order in which they are drawn.
    pub const ALL: [Style; 5] = [
        Style::Tree,
        Style::Chain,
        Style::Flat,
        Style::Diamonds,
        Style::Windows,
    ];
}

// Units of nodes. A map has one of them for all its nodes, or none of its own: then each node's is drawn.
pub const UNITS: [usize; 5] = [8, 16, 32, 64, 128];

// The smallest of them, and the largest.
pub const SMALLEST_UNIT: usize = 8;

pub const LARGEST_UNIT: usize = 128;

// Bits of a node: the first at most, how many at least, and those that may come to them.
#[derive(Clone, Copy)]
struct Bounds {
    low: usize,
    least: usize,
    more: usize,
}

// The bounds of roots, of nodes between and of leaves.
const ROOT: Bounds = Bounds {
    low: 128,
    least: 64,
    more: 320,
};

const INNER: Bounds = Bounds {
    low: 128,
    least: 96,
    more: 416,
};

const LEAF: Bounds = Bounds {
    low: 256,
    least: 0,
    more: 192,
};

// Bits of a window at most.
const WINDOW_BITS: usize = 128;

// Bits of the gap between two windows at most, and the bits by which it begins below 0.
const GAP_STEP: usize = 8;

const GAPS: usize = 6;

const OVERLAP: usize = 16;

// The unit of a node: the map's own, or one drawn where units are mixed.
fn draw_unit(units: Option<usize>, draws: &mut Draws) -> usize {
    match units {
        Some(unit) => unit,
        None => draws.pick(&UNITS),
    }
}

impl Shape {
    // How many roots, nodes between and leaves a map of this style has. Each leaf has one leaf row.
    pub fn draw(style: Style, draws: &mut Draws) -> Shape {
        let roots = 1 + draws.below(6) / 5;
        let leaves = 1 + draws.below(5) / 2;
        let mut between = 1 + draws.below(4);
        if style == Style::Flat {
            between = 0;
        }
        if style == Style::Windows {
            between = 2 + draws.below(3);
        }
        let inner = roots + between;
        let nodes = inner + leaves;
        let mut edges = between + leaves + draws.below(5);
        if style == Style::Windows {
            edges = between + between * leaves;
        }
        Shape {
            roots,
            inner,
            leaves,
            nodes,
            edges,
            pairs: leaves,
        }
    }

    // How many nodes stand between roots and leaves.
    pub fn between(self) -> usize {
        self.inner.saturating_sub(self.roots)
    }

    // The bounds of node v by its part in the map.
    fn bounds_of(self, v: usize) -> Bounds {
        if v < self.roots {
            ROOT
        } else if v < self.inner {
            INNER
        } else {
            LEAF
        }
    }

    // Draws the kind of node v.
    fn draw_kind(self, v: usize, draws: &mut Draws) -> Kind {
        if v < self.inner {
            draws.pick(&[Kind::Space, Kind::Segment])
        } else {
            Kind::Block
        }
    }

    // The node from which the first edge into node v comes.
    fn draw_parent(self, v: usize, style: Style, draws: &mut Draws) -> usize {
        let limit = self.inner.min(v);
        match style {
            Style::Chain => limit.saturating_sub(1),
            Style::Flat => draws.below(self.roots),
            _ => draws.below(limit),
        }
    }

    // The node that edge e is the first to enter. Behind the nodes there is none.
    fn entered(self, e: usize) -> Option<usize> {
        let v = self.roots.saturating_add(e);
        if v < self.nodes { Some(v) } else { None }
    }

    // Draws the ends of edge e: one edge into each node, then those that a map would hang together without.
    fn draw_ends(self, e: usize, style: Style, draws: &mut Draws) -> (usize, usize) {
        if let Some(to) = self.entered(e) {
            return (self.draw_parent(to, style, draws), to);
        }
        let mut to = self
            .roots
            .saturating_add(draws.below(self.nodes.saturating_sub(self.roots)));
        if style == Style::Diamonds {
            to = self.inner.saturating_add(draws.below(self.leaves));
        }
        (self.draw_parent(to, Style::Tree, draws), to)
    }

    // Whether edge e is put beside an earlier one.
    fn is_beside(self, e: usize, style: Style, draws: &mut Draws) -> bool {
        self.entered(e).is_none() && style != Style::Diamonds && draws.one_in(2)
    }
}

// Draws a node of this kind and unit within its bounds.
fn draw_within(kind: Kind, unit: usize, bounds: Bounds, draws: &mut Draws) -> Node {
    let mut base = 0;
    if draws.one_in(2) {
        base = draws.below(quotient(bounds.low, unit).saturating_add(1));
    }
    let bits = bounds.least.saturating_add(draws.below(bounds.more));
    Node {
        kind,
        base,
        range: quotient(bits, unit).saturating_add(1),
        unit,
        access: Access::ReadWrite,
    }
}

// Draws a window near the end of the window before it: at that end, or some bits above or below.
fn draw_window(kind: Kind, own: usize, end: usize, draws: &mut Draws) -> Node {
    let unit = if draws.one_in(2) { SMALLEST_UNIT } else { own };
    let gap = GAP_STEP * draws.below(GAPS);
    let first = end.saturating_add(gap).saturating_sub(OVERLAP);
    Node {
        kind,
        base: quotient(first, unit),
        range: quotient(draws.below(WINDOW_BITS), unit).saturating_add(1),
        unit,
        access: Access::ReadWrite,
    }
}

// An offset moved by a few units, or not at all.
fn draw_near(offset: i64, draws: &mut Draws) -> i64 {
    match draws.below(4) {
        0 => offset,
        1 => raised(offset, 1),
        2 => lowered(offset, 1),
        _ => raised(offset, 1 + draws.below(6)),
    }
}

impl Map {
    // The bit behind the window before window v. Before the first stands the root's first bit.
    fn window_end(&self, v: usize) -> usize {
        if v == self.shape.roots {
            self.node(0).first_bit()
        } else {
            self.node(v.saturating_sub(1)).end_bit()
        }
    }

    // Draws node v by its part in the map.
    fn draw_node(&mut self, v: usize, style: Style, units: Option<usize>, draws: &mut Draws) {
        let shape = self.shape;
        let kind = shape.draw_kind(v, draws);
        let unit = draw_unit(units, draws);
        let mut node = draw_within(kind, unit, shape.bounds_of(v), draws);
        if style == Style::Windows && (shape.roots..shape.inner).contains(&v) {
            node = draw_window(kind, unit, self.window_end(v), draws);
        }
        self.put_node(v, node);
    }

    // Draws every node.
    pub fn draw_nodes(&mut self, style: Style, units: Option<usize>, draws: &mut Draws) {
        for v in 0..self.shape.nodes {
            self.draw_node(v, style, units, draws);
        }
    }

    // A bit of a node: its first, or one drawn.
    fn draw_bit(&self, v: usize, draws: &mut Draws) -> usize {
        let node = self.node(v);
        if draws.one_in(12) {
            return node
                .first_bit()
                .saturating_add(draws.below(node.bit_count()));
        }
        node.first_bit()
    }

    // An offset by which some bit of node u comes to some bit of node v, or near it.
    fn draw_offset(&self, u: usize, v: usize, draws: &mut Draws) -> i64 {
        let unit = self.node(v).unit;
        let from = self.draw_bit(u, draws);
        let to = self.draw_bit(v, draws);
        difference(quotient(from, unit), quotient(to, unit))
    }

    // An edge beside one of those before edge e.
    fn draw_beside(&self, e: usize, draws: &mut Draws) -> Edge {
        let other = self.edge(draws.below(e));
        Edge {
            offset: draw_near(other.offset, draws),
            ..other
        }
    }

    // The offset of an edge from a window to leaf v: of one displacement for all windows, or sometimes a unit off.
    fn window_offset(&self, v: usize, draws: &mut Draws) -> i64 {
        let leaf = self.node(v);
        let first = quotient(self.node(self.shape.roots).first_bit(), leaf.unit);
        let offset = difference(first, leaf.base);
        if draws.one_in(4) {
            return draw_near(offset, draws);
        }
        offset
    }

    // Edge e of a row of windows: one from a root to each window, then one from each window to each leaf.
    fn draw_window_edge(&self, e: usize, draws: &mut Draws) -> Edge {
        let shape = self.shape;
        let between = shape.between();
        if e < between {
            return Edge {
                from: draws.below(shape.roots),
                to: shape.roots.saturating_add(e),
                offset: 0,
            };
        }
        let k = e - between;
        let to = shape.inner.saturating_add(quotient(k, between));
        Edge {
            from: shape.roots.saturating_add(rest(k, between)),
            to,
            offset: self.window_offset(to, draws),
        }
    }

    // Draws edge e.
    fn draw_edge(&self, e: usize, style: Style, draws: &mut Draws) -> Edge {
        if style == Style::Windows {
            return self.draw_window_edge(e, draws);
        }
        if self.shape.is_beside(e, style, draws) {
            return self.draw_beside(e, draws);
        }
        let (from, to) = self.shape.draw_ends(e, style, draws);
        Edge {
            from,
            to,
            offset: self.draw_offset(from, to, draws),
        }
    }

    // Draws every edge.
    pub fn draw_edges(&mut self, style: Style, draws: &mut Draws) {
        for e in 0..self.shape.edges {
            let edge = self.draw_edge(e, style, draws);
            self.put_edge(e, edge);
        }
    }
}
