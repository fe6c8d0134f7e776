// Whether two lists of records are the same, and the lowest address at which they differ. A list is a flat slice of numbers, three a record: first,
// last, displacement.
#![tactic(auto)]

ghost use Rattle.std.specs.Prelude.{◌≡◌, ◌+◌, ◌*◌, ◌≤◌, length};
ghost use Rattle.model.specs.Verdicts.{same_list, lowest};
ghost use Rattle.sorting.specs.Rows.{row_width};
ghost use Rattle.normalisation.specs.Records.{record_at, records_of, records_from};
ghost use Rattle.verdicts.specs.Records.{as_record, SmallRootBits, SmallList};
ghost use Rattle.verdicts.specs.OnePass as pass;

// Root bits first .. last reach leaf bits that stand displacement below them. The record that callers see is that of crate records, which stands above
// the passes that use this one.
#[derive(Clone, Copy, PartialEq, Eq)]
pub struct Record {
    pub first: i64,
    pub last: i64,
    pub displacement: i64,
}

// The lowest address found so far, -1 where there is none, as `lowest_of` promises it.
#[derive(Clone, Copy)]
pub struct Least(pub i64);

// Record i of the list t.
pub fn record_at(t: &[i64], i: usize) -> Record
    requires { row_width * i + row_width ≤ length t.now }
    ensures { as_record result ≡ record_at t.now i }
{
    let row = sorting::row_at(t, i);
    Record {
        first: row.first,
        last: row.second,
        displacement: row.third,
    }
}

// Whether two records begin alike: at one bit, with one displacement.
fn begin_alike(r: Record, s: Record) -> bool
    ensures { result ≡ pass.aligned (as_record r) (as_record s) }
{
    r.first == s.first && r.displacement == s.displacement
}

// Whether na records of a are nb records of b, in one pass.
pub fn same_lists(a: &[i64], na: usize, b: &[i64], nb: usize) -> bool
    requires { (row_width * na ≤ length a.now) × (row_width * nb ≤ length b.now) }
    ensures { result ≡ same_list (records_of a.now na) (records_of b.now nb) }
{
    if na != nb {
        return false;
    }
    for i in 0..na {
        if record_at(a, i) != record_at(b, i) {
            return false;
        }
    }
    true
}

// The lower of an address found before, -1 where there is none, and the next.
fn lower(least: Least, next: i64) -> Least
    ensures { result.0 ≡ pass.lower least.0 next }
{
    if least.0 < 0 {
        Least(next)
    } else {
        Least(least.0.min(next))
    }
}

// The same, where the next is past the end of the shorter of two records, if one is shorter.
fn lower_end(least: Least, r: Record, s: Record) -> Least
    requires { SmallRootBits (as_record r) × SmallRootBits (as_record s) }
    ensures { result.0 ≡ pass.lowest_from least.0 (pass.ends (as_record r) (as_record s)) }
{
    if r.last < s.last {
        lower(least, r.last + 1)
    } else if s.last < r.last {
        lower(least, s.last + 1)
    } else {
        least
    }
}

// The same, where the next is the first bit of record i of t, if there is one.
fn lower_start(least: Least, t: &[i64], n: usize, i: usize) -> Least
    requires { row_width * n ≤ length t.now }
    ensures { result.0 ≡ pass.lowest_from least.0 (pass.starts (records_from t.now i n)) }
{
    if i < n {
        lower(least, record_at(t, i).first)
    } else {
        least
    }
}

// Whether both lists have a record i, and these two begin alike.
fn alike_at(spec: &[i64], ns: usize, imp: &[i64], ni: usize, i: usize) -> bool
    requires { (row_width * ns ≤ length spec.now) × (row_width * ni ≤ length imp.now) }
    ensures { result ≡ pass.heads_aligned (records_from spec.now i ns) (records_from imp.now i ni) }
{
    if ns <= i {
        return false;
    }
    if ni <= i {
        return false;
    }
    begin_alike(record_at(spec, i), record_at(imp, i))
}

// The lowest bit address at which the leaf bits by the two lists differ, -1 where they differ nowhere. In one pass: while records begin alike,
// past the end of the shorter; then where either list goes on.
pub fn lowest_of(spec: &[i64], ns: usize, imp: &[i64], ni: usize) -> i64
    requires { SmallList spec.now ns × SmallList imp.now ni }
    ensures { result ≡ lowest (records_of spec.now ns) (records_of imp.now ni) }
{
    let mut least = Least(-1);
    // i is looked at behind the loop too: it says how far the records begin alike.
    let mut i = 0;
    while alike_at(spec, ns, imp, ni, i) {
        least = lower_end(least, record_at(spec, i), record_at(imp, i));
        i += 1;
    }
    least = lower_start(least, spec, ns, i);
    least = lower_start(least, imp, ni, i);
    least.0
}
