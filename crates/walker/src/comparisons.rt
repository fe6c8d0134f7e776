// The comparison of two maps, held against the sets that walks by single addresses reach: root row by root row, within it group by group, and each
// kind of walk by itself.
use crate::tally::{Counted, Counts};
use crate::walks::{Asked, NOTHING, Reached, join};
use crate::{checks, sets};
use generator::graphs::Graph;
use generator::numbers::number;
use generator::rows::Map;
use model::{Comparison, Reason, Verdict, WalkKind};

// The root row, the leaf row and the address of two maps without an unequal pair.
const NONE: i64 = -1;

// What is said of two maps: pairs by their verdict, the whole verdict, and the first unequal pair.
#[derive(Clone, Copy, PartialEq, Eq)]
struct Summary {
    equal: usize,
    partial: usize,
    different: usize,
    whole: Verdict,
    root: i64,
    leaf: i64,
    address: i64,
}

// What `compare` says of two maps.
impl From<Comparison> for Summary {
    fn from(compared: Comparison) -> Summary {
        Summary {
            equal: compared.equal,
            partial: compared.partial,
            different: compared.different,
            whole: compared.verdict,
            root: compared.root,
            leaf: compared.leaf,
            address: compared.address,
        }
    }
}

impl Summary {
    // Adds the pair of a root row and the group of a leaf row.
    fn add(&mut self, judged: Judged, root_row: usize, leaf_row: usize) {
        let count = match judged.verdict {
            Verdict::Equal => &mut self.equal,
            Verdict::Partial => &mut self.partial,
            Verdict::Different => &mut self.different,
        };
        *count = count.saturating_add(1);
        self.whole = self.whole.max(judged.verdict);
        if judged.verdict != Verdict::Equal && self.root == NONE {
            self.root = number(root_row);
            self.leaf = number(leaf_row);
            self.address = number(judged.address);
        }
    }
}

// A group by its leaf rows: how many there are, and the last of them.
#[derive(Clone, Copy)]
struct Group {
    banks: usize,
    last: usize,
}

impl Group {
    // The group of a leaf row.
    fn of(map: &Map, leaf_row: usize) -> Group {
        let spec = map.leaf(leaf_row).spec;
        let mut rows = map.leaves().iter();
        Group {
            banks: map.leaves().iter().filter(|pair| pair.spec == spec).count(),
            last: rows.rposition(|pair| pair.spec == spec).unwrap_or(0),
        }
    }
}

// The verdict on a pair, or on one kind of walk over it, and the lowest address that differs. Where none does, the address lies behind every root.
#[derive(Clone, Copy)]
struct Judged {
    verdict: Verdict,
    address: usize,
}

impl Judged {
    // What is said of the reached sets of a pair.
    fn of(spec: &Reached, other: &Reached) -> Judged {
        Judged {
            verdict: sets::verdict(spec, other),
            address: sets::first_difference(spec, other),
        }
    }

    // What is said of a pair by what is said of its kinds: the worse verdict, and the lowest address at which either differs.
    fn joined(self, other: Judged) -> Judged {
        Judged {
            verdict: self.verdict.max(other.verdict),
            address: self.address.min(other.address),
        }
    }

    // Counts a pair on which this kind has the worse verdict, by whether the other kind differs lower.
    fn count_worse(self, better: Judged, counted: Counted, counts: &mut Counts) {
        let worse = self.verdict > better.verdict;
        counts.count_if(counted, worse);
        counts.count_if(Counted::BetterLower, worse && better.address < self.address);
    }
}

// Whether a leaf row is the lowest of its group.
fn leads(map: &Map, leaf_row: usize) -> bool {
    let spec = map.leaf(leaf_row).spec;
    !map.leaves()
        .iter()
        .take(leaf_row)
        .any(|pair| pair.spec == spec)
}

// Counts a group by its banks, and whether other rows stand between its rows. One bank is counted by whether it is moved.
fn count_group(map: &Map, group: Group, leaf_row: usize, counts: &mut Counts) {
    let moved = map.leaf(leaf_row).at != 0;
    counts.count(match group.banks {
        1 if moved => Counted::OneMoved,
        1 => Counted::OneBank,
        2 => Counted::TwoBanks,
        3 => Counted::ThreeBanks,
        _ => Counted::ManyBanks,
    });
    let apart = group.last.saturating_sub(leaf_row) >= group.banks;
    counts.count_if(Counted::RowsApart, apart);
}

// Counts the verdict of a kind on a pair by whether a side reaches nothing, and once more for a group of several banks.
fn count_kind(verdict: Verdict, bare: bool, banks: usize, counts: &mut Counts) {
    if bare {
        counts.count(Counted::OnOther(verdict));
        return;
    }
    counts.count(Counted::KindsBoth);
    counts.count(Counted::OnBoth(verdict));
    counts.count_if(Counted::OnBanks(verdict), banks > 1);
}

// Counts a pair by its verdict, by which of its kinds has the worse, and where both differ, by which of them differs lower.
fn count_pair(reading: Judged, writing: Judged, verdict: Verdict, counts: &mut Counts) {
    counts.count(Counted::Pairs);
    counts.count(Counted::OnPair(verdict));
    reading.count_worse(writing, Counted::ReadingWorse, counts);
    writing.count_worse(reading, Counted::WritingWorse, counts);
    if reading.verdict != Verdict::Equal && writing.verdict != Verdict::Equal {
        let lower = reading.address < writing.address;
        counts.count_if(Counted::ReadingLower, lower);
        let higher = reading.address > writing.address;
        counts.count_if(Counted::WritingLower, higher);
    }
}

// Every bank of the group of a leaf row: its leaf by itself, then its leaf bits, raised to where it begins, among those of the group.
fn try_banks(
    other: &Graph,
    root_row: usize,
    leaf_row: usize,
    kind: WalkKind,
    reached: &mut Reached,
    counts: &mut Counts,
) {
    let spec = other.map.leaf(leaf_row).spec;
    for bank in other.map.leaves() {
        if bank.spec == spec {
            let mut bits = NOTHING;
            let asked = Asked {
                root: other.map.root(root_row).other,
                leaf: bank.other,
                kind,
            };
            checks::try_leaf(other, asked, &mut bits, counts);
            let room = join(&bits, bank.at, reached);
            counts.expect(room, "more leaf bits than there is room for");
        }
    }
}

// One kind of walk over the pair of a root row and a group: both sides, and the verdict on them.
fn try_kind(
    spec: &Graph,
    other: &Graph,
    root_row: usize,
    leaf_row: usize,
    kind: WalkKind,
    counts: &mut Counts,
) -> Judged {
    let asked = Asked {
        root: other.map.root(root_row).spec,
        leaf: other.map.leaf(leaf_row).spec,
        kind,
    };
    let mut spec_reached = NOTHING;
    let mut reached = NOTHING;
    checks::try_leaf(spec, asked, &mut spec_reached, counts);
    try_banks(other, root_row, leaf_row, kind, &mut reached, counts);
    let judged = Judged::of(&spec_reached, &reached);
    let bare = sets::is_empty(&spec_reached) || sets::is_empty(&reached);
    let banks = Group::of(&other.map, leaf_row).banks;
    count_kind(judged.verdict, bare, banks, counts);
    judged
}

// One pair: each kind of walk by itself, and what they say together.
fn try_pair(
    spec: &Graph,
    other: &Graph,
    root_row: usize,
    leaf_row: usize,
    counts: &mut Counts,
) -> Judged {
    let reading = try_kind(spec, other, root_row, leaf_row, WalkKind::Reading, counts);
    let writing = try_kind(spec, other, root_row, leaf_row, WalkKind::Writing, counts);
    let judged = reading.joined(writing);
    count_pair(reading, writing, judged.verdict, counts);
    count_group(
        &other.map,
        Group::of(&other.map, leaf_row),
        leaf_row,
        counts,
    );
    judged
}

// Every pair in visiting order, root row by root row, and what they say together. Only the lowest row of a group makes a pair.
fn try_pairs(spec: &Graph, other: &Graph, counts: &mut Counts) -> Summary {
    let mut summary = Summary {
        equal: 0,
        partial: 0,
        different: 0,
        whole: Verdict::Equal,
        root: NONE,
        leaf: NONE,
        address: NONE,
    };
    for root_row in 0..other.map.shape.roots {
        for leaf_row in 0..other.map.shape.pairs {
            if leads(&other.map, leaf_row) {
                let judged = try_pair(spec, other, root_row, leaf_row, counts);
                summary.add(judged, root_row, leaf_row);
            }
        }
    }
    summary
}

// What `compare` gives for two maps and the pairing that stands in the second.
pub(crate) fn compare_maps(spec: &Graph, other: &Graph) -> Result<Comparison, Reason> {
    compare::compare(
        spec.tables.nodes(),
        spec.tables.edges(),
        other.tables.nodes(),
        other.tables.edges(),
        other.tables.roots(),
        other.tables.leaves(),
    )
}

// Two maps and their pairing: the check of each, every pair, and the comparison.
pub(crate) fn try_maps(spec: &Graph, other: &Graph, counts: &mut Counts) {
    checks::try_check(spec, counts);
    checks::try_check(other, counts);
    let summary = try_pairs(spec, other, counts);
    counts.count(Counted::OnMaps(summary.whole));
    let compared = compare_maps(spec, other);
    let holds = matches!(compared, Ok(compared) if Summary::from(compared) == summary);
    counts.expect(holds, "comparison");
}
