// Maps by a seeded generator, small enough to walk bit by bit: plain maps, the accesses of their nodes, the rows of a map and of a pairing in an
// order that is drawn, faults in a node table and in a pairing, and the tables of a map as the calls under test are handed them.
#![tactic(auto)]

pub mod accesses;
pub mod draws;
pub mod faults;
pub mod graphs;
pub mod maps;
pub mod numbers;
pub mod orders;
pub mod rows;
