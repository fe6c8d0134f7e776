// What is kept of the pairs of a comparison, taken in visiting order, and how what is found of one pair is added to it: its verdict is counted, the
// place of the first unequal pair is kept, and the number of its line is stored behind the others.
#![tactic(auto)]

ghost use Rattle.std.specs.Prelude.{◌≡◌, ◌≤◌, ◌<◌, pos, set};
ghost use Rattle.model.specs.Limits.{max_pairs};
ghost use Rattle.model.specs.Answers.{verdict_number, comparison_result};
ghost use Rattle.reporting.specs.Lines.{max_visits, SmallResult};
ghost use Rattle.totals.specs.Kept.{counted, first_place, result_with, as_place, KeptNone, is_asked, RoomFor, PairAddable, Added, EqualAdded};

use bothkinds::{higher, lower_of, record_count};
use model::{Comparison, Verdict};
use reporting::{Lengths, line_length, line_number};

// What is found of a pair for one kind of walk: its verdict, the lengths of its lists, and, where it was asked for, the lowest bit address at which they differ, -1
// where they differ nowhere, as the result of a comparison has it.
#[derive(Clone, Copy)]
pub struct Found {
    pub verdict: Verdict,
    pub lengths: Lengths,
    pub address: i64,
}

// What is kept of the pairs so far: their full result, how many have a line, and how many bytes these lines have.
#[derive(Clone, Copy)]
pub struct Kept {
    pub result: Comparison,
    pub count: usize,
    pub bytes: usize,
}

// Root row and leaf row of a pair, and a bit address: -1 for none, as the result of a comparison has it.
#[derive(Clone, Copy)]
struct Place {
    root: i64,
    leaf: i64,
    address: i64,
}

// What is kept before the first pair.
pub fn no_pair() -> Kept
    ensures { KeptNone result }
{
    let result = Comparison {
        equal: 0,
        partial: 0,
        different: 0,
        verdict: Verdict::Equal,
        root: -1,
        leaf: -1,
        address: -1,
    };
    Kept {
        result,
        count: 0,
        bytes: 0,
    }
}

// Whether the lowest bit address of the next pair is asked for, should it be unequal: no unequal pair was met.
pub fn address_asked(kept: Kept) -> bool
    ensures { result ≡ is_asked kept }
{
    kept.result.root < 0
}

// How often a verdict was given, with one more verdict.
fn counted(verdict: Verdict, given: Verdict, count: usize) -> usize
    requires { count ≤ max_visits }
    ensures { result ≡ counted (verdict_number verdict) (verdict_number given) count }
{
    if given == verdict { count + 1 } else { count }
}

// The place of the first unequal pair, with one more pair of this place.
fn first_place(first: Place, place: Place, given: Verdict) -> Place
    ensures { as_place result ≡ first_place (verdict_number given) (as_place place) (as_place first) }
{
    if given != Verdict::Equal && first.root < 0 {
        place
    } else {
        first
    }
}

// The full result with one more pair of this verdict and this lowest address.
fn with_found(
    res: Comparison,
    root_row: usize,
    leaf_row: usize,
    verdict: Verdict,
    address: i64,
) -> Comparison
    requires { SmallResult (comparison_result res) × (root_row < max_pairs) × (leaf_row < max_pairs) }
    ensures { comparison_result result
        ≡ result_with (verdict_number verdict) (record { root = pos root_row; leaf = pos leaf_row; address = address })
        (comparison_result res) }
{
    let first = Place {
        root: res.root,
        leaf: res.leaf,
        address: res.address,
    };
    let place = Place {
        root: root_row as i64,
        leaf: leaf_row as i64,
        address,
    };
    let first = first_place(first, place, verdict);
    Comparison {
        equal: counted(Verdict::Equal, verdict, res.equal),
        partial: counted(Verdict::Partial, verdict, res.partial),
        different: counted(Verdict::Different, verdict, res.different),
        verdict: higher(res.verdict, verdict),
        root: first.root,
        leaf: first.leaf,
        address: first.address,
    }
}

// Stores the number of a line behind `count` others, while there is room.
fn hold_line(lines: &mut [usize], count: usize, number: usize)
    ensures { lines.new ≡ set lines.old count number }
{
    if count < lines.len() {
        lines[count] = number;
    }
}

// What is kept with one more pair, of which this is found for reading and for writing: its verdict is the worse of the two kinds', its address the lower of those
// that are there, and it has a line where any of its four lists has a record.
pub fn with_pair(
    lines: &mut [usize],
    kept: Kept,
    root_row: usize,
    leaf_row: usize,
    reading: Found,
    writing: Found,
) -> Kept
    requires { PairAddable kept root_row leaf_row reading writing }
    ensures { Added kept lines.old root_row leaf_row reading writing result lines.new }
{
    let read = reading.lengths;
    let written = writing.lengths;
    let verdict = higher(reading.verdict, writing.verdict);
    let address = lower_of(reading.address, writing.address);
    let result = with_found(kept.result, root_row, leaf_row, verdict, address);
    if record_count(read, written) == 0 {
        return Kept { result, ..kept };
    }
    let number = line_number(root_row, leaf_row, verdict, read, written);
    hold_line(lines, kept.count, number);
    Kept {
        result,
        count: kept.count + 1,
        bytes: kept.bytes + line_length(number),
    }
}

// What is kept with so many more pairs that have no record.
pub fn with_equal(kept: Kept, pairs: usize) -> Kept
    requires { RoomFor pairs kept }
    ensures { EqualAdded kept pairs result }
{
    let mut result = kept.result;
    result.equal += pairs;
    Kept { result, ..kept }
}
