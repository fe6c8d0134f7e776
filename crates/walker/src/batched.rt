// Batches of addresses, held against what the walk by single addresses says: the rows by record and place, buffers of about their length, and refusals 11
// and 19.
use crate::checks::{ABOVE, BELOW, Case, UNTOUCHED, has_in_front, is_outside};
use crate::tally::{Counted, Counts};
use crate::walks::{Asked, ROOT_BITS, Reached, SLOTS, bits_at};
use generator::draws::Draws;
use generator::graphs::NODE_WIDTH;
use generator::numbers::{difference, number, rest};
use model::{BatchCounts, Reason};

// Addresses of a batch that is drawn: at least, how many more there may be, and at most.
const LEAST: usize = 8;

const MORE: usize = 9;

const PLACES: usize = 16;

// Kinds of addresses: one that has several leaf bits, one outside the root, one at an end of a record, one given earlier, and any other.
#[derive(Clone, Copy, PartialEq, Eq)]
enum Sort {
    Several,
    Outside,
    Ends,
    Earlier,
    Any,
}

impl Sort {
    // All kinds, in the order of the places.
    const ALL: [Sort; 5] = [
        Sort::Several,
        Sort::Outside,
        Sort::Ends,
        Sort::Earlier,
        Sort::Any,
    ];

    // The kind of the address at a place: every kind in turn.
    fn at(k: usize, turn: usize) -> Sort {
        Sort::ALL[k.saturating_add(turn) % Sort::ALL.len()]
    }
}

// Choices among the addresses of one kind.
const CHOICES: usize = 6;

// A row: a place and a leaf bit.
const ROW_WIDTH: usize = 2;

type Row = [i64; ROW_WIDTH];

// Buffers have so many numbers less than the rows at most, and so many more.
const NEAR: usize = 3;

// Rows of a batch that is drawn at most: each of its places may have one for each slot. The longest buffer.
const ROWS: usize = PLACES * SLOTS;

const ROOM: usize = ROW_WIDTH * ROWS + NEAR;

// A buffer without room for a row.
const NO_ROOM: usize = 1;

// The longest batch, its rows at most, and the shortest batch that is refused.
const LONGEST: usize = 512;

const LONGEST_ROWS: usize = LONGEST * SLOTS;

const TOO_LONG: usize = LONGEST + 1;

// One list in so many is tried with the longest batch.
const LONG: usize = 1000;

// Refusals of batches that are tried: 1, 7, 11 and 19.
#[derive(Clone, Copy, PartialEq, Eq)]
enum Refused {
    Shape,
    NotRootOrLeaf,
    LongOutput,
    LongBatch,
}

// What the call is asked: tables, what is asked for, and addresses.
#[derive(Clone, Copy)]
struct Query<'a> {
    nodes: &'a [i64],
    edges: &'a [i64],
    asked: Asked,
    addresses: &'a [i64],
}

impl Query<'_> {
    // What `batch` gives with so much room in a buffer.
    fn ask(&self, out: &mut [i64], room: usize) -> Result<BatchCounts, Reason> {
        let room = room.min(out.len());
        batch::batch(
            self.nodes,
            self.edges,
            number(self.asked.root),
            number(self.asked.leaf),
            self.addresses,
            self.asked.kind,
            &mut out[..room],
        )
    }

    // Whether the query is refused so, with the buffer untouched.
    fn is_refused(&self, room: usize, refused: Refused) -> bool {
        let mut out = [UNTOUCHED; ROOM];
        is_refused(self.ask(&mut out, room), refused) && has_in_front(&out, &[])
    }

    // A query that is refused, alike with and without room for a row.
    fn try_refusal(&self, refused: Refused, counts: &mut Counts) {
        let long = self.addresses.len() > LONGEST;
        let first = if long { Refused::LongBatch } else { refused };
        counts.count_if(Counted::RefusedBatch, long);
        let holds = self.is_refused(ROOM, first) && self.is_refused(NO_ROOM, first);
        counts.expect(holds, "batch");
    }
}

// Whether a batch is refused so.
fn is_refused(batched: Result<BatchCounts, Reason>, refused: Refused) -> bool {
    let given = match batched {
        Err(Reason::Shape { .. }) => Refused::Shape,
        Err(Reason::NotRootOrLeaf { .. }) => Refused::NotRootOrLeaf,
        Err(Reason::LongOutput) => Refused::LongOutput,
        Err(Reason::LongBatch) => Refused::LongBatch,
        _ => return false,
    };
    given == refused
}

// The first address, from one on and around, that has several leaf bits. Where there is none, that one.
fn several_from(reached: &Reached, from: usize) -> i64 {
    for i in 0..ROOT_BITS {
        let address = number(from.saturating_add(i) % ROOT_BITS);
        if bits_at(reached, address).len() > 1 {
            return address;
        }
    }
    number(from)
}

// An address outside the root.
fn outside(case: Case, choice: usize) -> i64 {
    match choice {
        0 => BELOW,
        1 => i64::MIN,
        2 => difference(case.root().first_bit(), 1),
        3 => ABOVE,
        4 => i64::MAX,
        _ => number(case.root().end_bit()),
    }
}

// An end of a record, or the address before or after it.
fn record_end(case: Case, r: usize, choice: usize) -> i64 {
    let record = case.records.record(r);
    match choice {
        0 => difference(record.first, 1),
        1 | 2 => number(record.last),
        3 => number(record.last.saturating_add(1)),
        _ => number(record.first),
    }
}

// Draws an address of a kind.
fn draw_address(case: Case, sort: Sort, draws: &mut Draws) -> i64 {
    let drawn = draws.below(case.root().end_bit());
    let choice = draws.below(CHOICES);
    match sort {
        Sort::Several => several_from(case.reached, drawn),
        Sort::Outside => outside(case, choice),
        Sort::Ends => record_end(case, rest(drawn, case.records.all().len()), choice),
        Sort::Earlier | Sort::Any => number(drawn),
    }
}

// Draws an address for each place. Then one that was given earlier is put at the places of that kind.
fn draw_addresses(case: Case, turn: usize, draws: &mut Draws) -> [i64; PLACES] {
    let mut addresses = [0; PLACES];
    for (k, address) in addresses.iter_mut().enumerate() {
        *address = draw_address(case, Sort::at(k, turn), draws);
    }
    for k in 0..PLACES {
        if Sort::at(k, turn) == Sort::Earlier {
            addresses[k] = addresses[draws.below(k)];
        }
    }
    addresses
}

// A batch of addresses of a case.
#[derive(Clone, Copy)]
struct Batch<'a> {
    case: Case<'a>,
    addresses: &'a [i64],
}

impl Batch<'_> {
    // Writes the rows of a batch: record by record, and within a record by place. Gives how many they are.
    fn write_rows(&self, table: &mut [Row]) -> usize {
        let mut n = 0;
        for record in self.case.records.all() {
            for (k, address) in self.addresses.iter().enumerate() {
                if let Some(bit) = record.leaf_bit(*address) {
                    if bits_at(self.case.reached, *address).contains(&bit) {
                        if let Some(row) = table.get_mut(n) {
                            *row = [number(k), bit];
                            n += 1;
                        }
                    }
                }
            }
        }
        n
    }

    // Whether the rows have each leaf bit of each place once, and no other: as many rows as leaf bits, and each leaf bit has one.
    fn has_rows(&self, rows: &[Row]) -> bool {
        let mut bits: usize = 0;
        for (k, address) in self.addresses.iter().enumerate() {
            for bit in bits_at(self.case.reached, *address) {
                if !rows.contains(&[number(k), *bit]) {
                    return false;
                }
                bits = bits.saturating_add(1);
            }
        }
        bits == rows.len()
    }

    // Counts every place by its address.
    fn count_places(&self, counts: &mut Counts) {
        for (k, address) in self.addresses.iter().enumerate() {
            let several = bits_at(self.case.reached, *address).len() > 1;
            let earlier = self.addresses.iter().take(k).any(|other| other == address);
            let outside = is_outside(self.case.root(), *address);
            counts.count_if(Counted::PlacesOutside, outside);
            counts.count_if(Counted::PlacesEarlier, earlier);
            counts.count_if(Counted::PlacesToSeveral, several);
        }
    }

    // Counts a batch, and holds its rows against the reached set.
    fn try_rows(&self, rows: &[Row], counts: &mut Counts) {
        counts.count(Counted::Batches);
        counts.add(Counted::BatchRows, rows.len());
        self.count_places(counts);
        counts.expect(self.has_rows(rows), "batch");
    }

    // What the call is asked for the batch.
    fn query(&self) -> Query<'_> {
        Query {
            nodes: self.case.graph.tables.nodes(),
            edges: self.case.graph.tables.edges(),
            asked: self.case.asked,
            addresses: self.addresses,
        }
    }

    // Whether a buffer with room for the rows has them in front and is left alone past them, and another is refused with 11 and untouched.
    fn gives(&self, rows: &[Row], out: &mut [i64], room: usize) -> bool {
        let numbers = rows.as_flattened();
        let batched = self.query().ask(out, room);
        if room < numbers.len() {
            return is_refused(batched, Refused::LongOutput) && has_in_front(out, &[]);
        }
        let records = self.case.records.all().len();
        matches!(batched, Ok(given) if given.rows == rows.len() && given.records == records)
            && has_in_front(out, numbers)
    }

    // One batch, with buffers of every length near that of the rows.
    fn try_near(&self, counts: &mut Counts) {
        let mut table = [[0; ROW_WIDTH]; ROWS];
        let n = self.write_rows(&mut table);
        let rows = &table[..n.min(ROWS)];
        self.try_rows(rows, counts);
        let length = rows.len() * ROW_WIDTH;
        for room in length.saturating_sub(NEAR)..=length + NEAR {
            let mut out = [UNTOUCHED; ROOM];
            counts.count(Counted::Buffers);
            counts.count_if(Counted::RefusedOutput, room < length);
            counts.expect(self.gives(rows, &mut out, room), "batch");
        }
    }

    // The longest batch, with a buffer that its rows fill.
    fn try_full(&self, counts: &mut Counts) {
        let mut table = [[0; ROW_WIDTH]; LONGEST_ROWS];
        let mut out = [UNTOUCHED; ROW_WIDTH * LONGEST_ROWS];
        let n = self.write_rows(&mut table);
        let rows = &table[..n.min(LONGEST_ROWS)];
        self.try_rows(rows, counts);
        let room = rows.len() * ROW_WIDTH;
        counts.expect(self.gives(rows, &mut out, room), "batch");
    }

    // Batches over graphs that are refused: a node row without its access, no tables, and root and leaf exchanged.
    fn try_refusals(&self, counts: &mut Counts) {
        let query = self.query();
        let short = Query {
            nodes: &query.nodes[..query.nodes.len().min(NODE_WIDTH - 1)],
            ..query
        };
        let none = Query {
            nodes: &[],
            edges: &[],
            ..query
        };
        let exchanged = Query {
            asked: Asked {
                root: query.asked.leaf,
                leaf: query.asked.root,
                kind: query.asked.kind,
            },
            ..query
        };
        short.try_refusal(Refused::Shape, counts);
        none.try_refusal(Refused::NotRootOrLeaf, counts);
        exchanged.try_refusal(Refused::NotRootOrLeaf, counts);
    }
}

// Batches of as many addresses as there may be, and of one more: each place has its own number as its address.
fn try_long(case: Case, counts: &mut Counts) {
    let mut addresses = [0; TOO_LONG];
    for (k, address) in addresses.iter_mut().enumerate() {
        *address = number(k);
    }
    let longest = Batch {
        case,
        addresses: &addresses[..LONGEST],
    };
    let too_long = Batch {
        case,
        addresses: &addresses,
    };
    longest.try_full(counts);
    longest.try_refusals(counts);
    too_long.try_refusals(counts);
    too_long.query().try_refusal(Refused::LongBatch, counts);
}

// A batch that is drawn by the number of the list.
fn try_drawn(case: Case, counts: &mut Counts) {
    let mut draws = Draws::new(counts.of(Counted::Lists));
    let n = LEAST + draws.below(MORE);
    let turn = draws.below(Sort::ALL.len());
    let addresses = draw_addresses(case, turn, &mut draws);
    let drawn = Batch {
        case,
        addresses: &addresses[..n.min(PLACES)],
    };
    drawn.try_near(counts);
}

// Batches of what is asked for: one without addresses, one that is drawn, and with some lists the longest.
pub(crate) fn try_batches(case: Case, counts: &mut Counts) {
    let empty = Batch {
        case,
        addresses: &[],
    };
    empty.try_near(counts);
    try_drawn(case, counts);
    if counts.of(Counted::Lists) % LONG == 0 {
        try_long(case, counts);
    }
}
