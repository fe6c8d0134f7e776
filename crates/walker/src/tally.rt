// What was tried, counted by kind, and printed line by line.
use generator::accesses::Closed;
use generator::maps::Style;
use generator::orders::Direction;
use habits::Habit;
use habits::arrangements::Arrangement;
use model::Verdict;
use std::io::{Stdout, Write};

// What is counted, in the order in which it is printed.
#[derive(Clone, Copy)]
pub(crate) enum Counted {
    Maps,
    Checks,
    Lists,
    Records,
    Walks,
    WalksOutside,
    WalksToSeveral,
    Batches,
    BatchRows,
    // Places of batches by their addresses.
    PlacesOutside,
    PlacesEarlier,
    PlacesToSeveral,
    // Buffers that batches are tried with.
    Buffers,
    Pairs,
    OnPair(Verdict),
    // Pairs by the two kinds of walk: the kind with the worse verdict, the kind that differs lower where both differ, and those that differ lower by the
    // kind with the better verdict.
    ReadingWorse,
    WritingWorse,
    ReadingLower,
    WritingLower,
    BetterLower,
    // Verdicts of one kind on pairs with records on both sides, each of them, and on pairs without; and verdicts on maps.
    KindsBoth,
    OnBoth(Verdict),
    OnOther(Verdict),
    OnMaps(Verdict),
    // Styles of maps, and habits by which the implementation comes from the specification.
    OfStyle(Style),
    ByHabit(Habit),
    // What maps and lists have in them.
    MixedUnits,
    SeveralRoots,
    SeveralLeaves,
    LeavesWithBase,
    DeadEnds,
    NegativeOffsets,
    ParallelEdges,
    Tables(Direction),
    // Maps by how many nodes are closed to a kind of walk. Closed nodes by their access, and those of them that are roots or leaves.
    WithClosed(Closed),
    ReadOnly,
    WriteOnly,
    ClosedRoots,
    ClosedLeaves,
    NegativeDisplacements,
    LikeUnitOpen,
    UnlikeTouching,
    UnlikeOverlapping,
    ClippedLow,
    ClippedHigh,
    ClippedBoth,
    // Pairs by the banks of their groups: one at leaf bit 0, one moved, two, three, four or more.
    OneBank,
    OneMoved,
    TwoBanks,
    ThreeBanks,
    ManyBanks,
    // Pairs of a group between whose leaf rows others stand.
    RowsApart,
    // Verdicts of one kind on pairs of several banks with records on both sides, and arrangements of banks.
    OnBanks(Verdict),
    Arranged(Arrangement),
    // Pairs of maps and graphs with an unknown access.
    RefusedAccess,
    RefusedGraphs,
    // Pairings with faults, by the refusal.
    RefusedNodes,
    RefusedAt,
    RefusedTwice,
    // Batches, by the refusal.
    RefusedOutput,
    RefusedBatch,
    Differences,
}

impl Counted {
    // The line that it is printed on.
    fn line(self) -> usize {
        match self {
            Counted::Maps => 0,
            Counted::Checks => 1,
            Counted::Lists => 2,
            Counted::Records => 3,
            Counted::Walks => 4,
            Counted::WalksOutside => 5,
            Counted::WalksToSeveral => 6,
            Counted::Batches => 7,
            Counted::BatchRows => 8,
            Counted::PlacesOutside => 9,
            Counted::PlacesEarlier => 10,
            Counted::PlacesToSeveral => 11,
            Counted::Buffers => 12,
            Counted::Pairs => 13,
            Counted::OnPair(verdict) => 14 + verdict as usize,
            Counted::ReadingWorse => 17,
            Counted::WritingWorse => 18,
            Counted::ReadingLower => 19,
            Counted::WritingLower => 20,
            Counted::BetterLower => 21,
            Counted::KindsBoth => 22,
            Counted::OnBoth(verdict) => 23 + verdict as usize,
            Counted::OnOther(verdict) => 26 + verdict as usize,
            Counted::OnMaps(verdict) => 29 + verdict as usize,
            Counted::OfStyle(style) => 32 + style as usize,
            Counted::ByHabit(habit) => 37 + habit as usize,
            Counted::MixedUnits => 56,
            Counted::SeveralRoots => 57,
            Counted::SeveralLeaves => 58,
            Counted::LeavesWithBase => 59,
            Counted::DeadEnds => 60,
            Counted::NegativeOffsets => 61,
            Counted::ParallelEdges => 62,
            Counted::Tables(direction) => 63 + direction as usize,
            Counted::WithClosed(closed) => 66 + closed as usize,
            Counted::ReadOnly => 69,
            Counted::WriteOnly => 70,
            Counted::ClosedRoots => 71,
            Counted::ClosedLeaves => 72,
            Counted::NegativeDisplacements => 73,
            Counted::LikeUnitOpen => 74,
            Counted::UnlikeTouching => 75,
            Counted::UnlikeOverlapping => 76,
            Counted::ClippedLow => 77,
            Counted::ClippedHigh => 78,
            Counted::ClippedBoth => 79,
            Counted::OneBank => 80,
            Counted::OneMoved => 81,
            Counted::TwoBanks => 82,
            Counted::ThreeBanks => 83,
            Counted::ManyBanks => 84,
            Counted::RowsApart => 85,
            Counted::OnBanks(verdict) => 86 + verdict as usize,
            Counted::Arranged(arrangement) => 89 + arrangement as usize,
            Counted::RefusedAccess => 99,
            Counted::RefusedGraphs => 100,
            Counted::RefusedNodes => 101,
            Counted::RefusedAt => 102,
            Counted::RefusedTwice => 103,
            Counted::RefusedOutput => 104,
            Counted::RefusedBatch => 105,
            Counted::Differences => 106,
        }
    }
}

// What is printed on each line, behind the count.
const LINES: [&str; 107] = [
    "pairs of maps",
    "graphs checked",
    "lists",
    "records",
    "walks",
    "walks from an address outside the root",
    "walks to several leaf bits",
    "batches",
    "rows of batches",
    "places of batches with an address outside the root",
    "places of batches with an address given earlier in the batch",
    "places of batches with several rows",
    "buffers tried with batches",
    "pairs",
    "pairs equal",
    "pairs partial",
    "pairs different",
    "pairs with a worse verdict for reads",
    "pairs with a worse verdict for writes",
    "pairs that differ at a lower address for reads",
    "pairs that differ at a lower address for writes",
    "pairs whose address is of the kind with the better verdict",
    "verdicts for reads or for writes with records on both sides",
    "equal with records on both sides",
    "partial with records on both sides",
    "different with records on both sides",
    "equal without records",
    "partial without records on both sides",
    "different with records on one side",
    "maps equal",
    "maps partial",
    "maps different",
    "trees",
    "chains",
    "blocks at the roots",
    "diamonds",
    "rows of windows that touch, overlap or leave a unit open",
    "the same map",
    "a bridge in an edge",
    "a range cut",
    "a base raised",
    "an offset moved",
    "an edge left out",
    "an edge twice",
    "a parallel edge one unit off",
    "a node in two touching parts",
    "a node in two overlapping parts",
    "a node in two parts with a unit open",
    "a smaller unit",
    "a block shortened",
    "an access changed",
    "a node in two, one for reads and one for writes",
    "a node in two by kind, one of them cut, and an edge beside",
    "leaves paired crosswise",
    "another map",
    "a clipping bridge",
    "maps with mixed units",
    "maps with several roots",
    "maps with several leaves",
    "leaves with a base",
    "dead ends",
    "negative offsets",
    "parallel edges",
    "tables in the edges' direction",
    "tables against the edges' direction",
    "tables shuffled",
    "maps without a closed node",
    "maps with a few closed nodes",
    "maps with many closed nodes",
    "nodes that are read only",
    "nodes that are write only",
    "closed roots",
    "closed leaves",
    "records of negative displacement",
    "neighbours of like displacement, 8 bits open",
    "neighbours of unlike displacement that touch",
    "neighbours of unlike displacement that overlap",
    "records that lack the leaf's first bits",
    "records that lack the leaf's last bits",
    "records that lack both",
    "pairs of one bank that begins at leaf bit 0",
    "pairs of one bank that begins further up",
    "pairs of two banks",
    "pairs of three banks",
    "pairs of four banks or more",
    "pairs whose leaf rows are no neighbours",
    "equal with several banks and records on both sides",
    "partial with several banks and records on both sides",
    "different with several banks and records on both sides",
    "groups of banks that touch",
    "groups of banks with a unit open",
    "groups of banks that overlap",
    "groups with two banks exchanged",
    "groups with two banks that begin at one bit",
    "groups with a bank moved",
    "groups with a bank beyond the leaf",
    "groups of interleaved banks",
    "groups of one bank that lacks the first units",
    "groups that another leaf joined",
    "pairs of maps refused with 2",
    "graphs refused with 2",
    "pairings refused with 7",
    "pairings refused with 16",
    "pairings refused with 8",
    "buffers of batches refused with 11",
    "batches refused with 19",
    "differences",
];

// The counts of each line, and where they are printed.
#[derive(Drop)]
pub(crate) struct Counts {
    counts: [usize; LINES.len()],
    out: Stdout,
}

// Differences printed at most.
const SHOWN: usize = 20;

impl Counts {
    // Counts of nothing, which are printed on standard output.
    pub(crate) fn new(out: Stdout) -> Counts {
        Counts {
            counts: [0; LINES.len()],
            out,
        }
    }

    // How often something was counted.
    pub(crate) fn of(&self, counted: Counted) -> usize {
        self.counts.get(counted.line()).copied().unwrap_or(0)
    }

    // Counts something so many times more.
    pub(crate) fn add(&mut self, counted: Counted, more: usize) {
        if let Some(count) = self.counts.get_mut(counted.line()) {
            *count = count.saturating_add(more);
        }
    }

    // Counts something once more.
    pub(crate) fn count(&mut self, counted: Counted) {
        self.add(counted, 1);
    }

    // Counts where a condition holds.
    pub(crate) fn count_if(&mut self, counted: Counted, holds: bool) {
        if holds {
            self.count(counted);
        }
    }

    // Counts a difference where a call does not answer as the walk by single addresses says, and prints it with the map's number, from 1. What cannot be
    // written is lost, and the counting goes on.
    pub(crate) fn expect(&mut self, holds: bool, what: &str) {
        if holds {
            return;
        }
        self.count(Counted::Differences);
        if self.of(Counted::Differences) <= SHOWN {
            let map = self.of(Counted::Maps);
            let _ = writeln!(self.out, "map {map}: {what}");
        }
    }

    // Prints every count before what it counts.
    pub(crate) fn print(&mut self) {
        for (count, line) in self.counts.iter().zip(LINES) {
            let _ = writeln!(self.out, "{count} {line}");
        }
    }
}
