// Which nodes of a map are closed to a kind of walk: a node that is read only to writing walks, and one that is write only to reading walks.
use crate::draws::Draws;
use crate::rows::{Access, Map};

// How many nodes of a map are closed.
#[derive(Clone, Copy, PartialEq, Eq)]
pub enum Closed {
    Nowhere,
    Few,
    Many,
}

// One node in so many is closed where there are a few, and where there are many.
const ONE_OF_FEW: usize = 5;

const ONE_OF_MANY: usize = 2;

impl Closed {
    // Draws how many nodes of a map are closed: of four maps two have no closed node, one a few and one many.
    pub fn draw(draws: &mut Draws) -> Closed {
        draws.pick(&[Closed::Nowhere, Closed::Nowhere, Closed::Few, Closed::Many])
    }

    // Draws the access of a node.
    fn draw_access(self, draws: &mut Draws) -> Access {
        let limit = match self {
            Closed::Nowhere => return Access::ReadWrite,
            Closed::Few => ONE_OF_FEW,
            Closed::Many => ONE_OF_MANY,
        };
        if draws.one_in(limit) {
            Access::ReadWrite.draw_other(draws)
        } else {
            Access::ReadWrite
        }
    }
}

impl Access {
    // An access other than this one.
    pub fn draw_other(self, draws: &mut Draws) -> Access {
        draws.pick(&match self {
            Access::ReadOnly => [Access::WriteOnly, Access::ReadWrite],
            Access::WriteOnly => [Access::ReadWrite, Access::ReadOnly],
            _ => [Access::ReadOnly, Access::WriteOnly],
        })
    }

    // The access of a node that is open to the other kind of walk alone.
    pub fn opposite(self) -> Access {
        match self {
            Access::ReadOnly => Access::WriteOnly,
            Access::WriteOnly => Access::ReadOnly,
            _ => self,
        }
    }
}

impl Map {
    // Draws the access of every node.
    pub fn draw_accesses(&mut self, closed: Closed, draws: &mut Draws) {
        for v in 0..self.shape.nodes {
            self.put_access(v, closed.draw_access(draws));
        }
    }
}
