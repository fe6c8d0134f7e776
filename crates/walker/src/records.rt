// The records of a reached set, bit by bit.
ghost use Rattle.std.specs.Prelude.{◌≤◌, length};

use crate::walks::{Reached, bits_of};
use generator::numbers::{difference, number, size};

// Records of a list at most.
pub(crate) const MAX_RECORDS: usize = 128;

// Numbers of a record in a list.
pub(crate) const RECORD_WIDTH: usize = 3;

// A record: its first and last root bit, and its first leaf bit.
#[derive(Clone, Copy)]
pub(crate) struct Record {
    pub(crate) first: usize,
    pub(crate) last: usize,
    pub(crate) leaf_first: usize,
}

// What stands where there is no record.
const NO_RECORD: Record = Record {
    first: 0,
    last: 0,
    leaf_first: 0,
};

impl Record {
    // The last leaf bit.
    pub(crate) fn leaf_last(self) -> usize {
        self.leaf_first
            .saturating_add(self.last.saturating_sub(self.first))
    }

    // Whether a root bit and a leaf bit go on where the record ends.
    fn goes_on(self, root_bit: usize, leaf_bit: usize) -> bool {
        self.last.saturating_add(1) == root_bit && self.leaf_last().saturating_add(1) == leaf_bit
    }

    // The leaf bit that goes with an address, if that is one of the root bits.
    pub(crate) fn leaf_bit(self, address: i64) -> Option<i64> {
        if address < number(self.first) || number(self.last) < address {
            return None;
        }
        let steps = size(address).saturating_sub(self.first);
        Some(number(self.leaf_first.saturating_add(steps)))
    }
}

// A record as the calls under test write it: first, last, displacement.
impl From<Record> for [i64; RECORD_WIDTH] {
    fn from(record: Record) -> Self {
        [
            number(record.first),
            number(record.last),
            difference(record.first, record.leaf_first),
        ]
    }
}

// The records of a list.
#[derive(Drop)]
pub(crate) struct Records {
    records: [Record; MAX_RECORDS],
    count: usize,
}

impl Records {
    // The records of a reached set, in order: by first, then displacement. Of one root bit the highest leaf bit comes first: its displacement is the
    // lowest.
    pub(crate) fn of(reached: &Reached) -> Records {
        let mut records = Records {
            records: [NO_RECORD; MAX_RECORDS],
            count: 0,
        };
        for (root_bit, slots) in reached.iter().enumerate() {
            for bit in bits_of(slots).iter().rev() {
                records.add_bit(root_bit, size(*bit));
            }
        }
        records
    }

    // The records, in order.
    pub(crate) fn all(&self) -> &[Record]
        ensures { length result.now ≤ MAX_RECORDS }
    {
        &self.records[..self.count.min(MAX_RECORDS)]
    }

    // The record at a place of the list.
    pub(crate) fn record(&self, r: usize) -> Record {
        self.records.get(r).copied().unwrap_or(NO_RECORD)
    }

    // Adds a root bit and a leaf bit: to the record that they go on, or as one more.
    fn add_bit(&mut self, root_bit: usize, leaf_bit: usize) {
        for record in self.records.iter_mut().take(self.count) {
            if record.goes_on(root_bit, leaf_bit) {
                record.last = root_bit;
                return;
            }
        }
        if let Some(next) = self.records.get_mut(self.count) {
            *next = Record {
                first: root_bit,
                last: root_bit,
                leaf_first: leaf_bit,
            };
            self.count += 1;
        }
    }
}
