// Normalisation in n log n: records are sorted by displacement, those that touch are merged in one pass, and the rest is sorted by first,
// or left in the order by displacement.
#![tactic(auto)]

ghost use Rattle.std.specs.Prelude.{◌≡◌, ◌++◌, map, ◌+◌, ◌*◌, ◌≤◌, ◌<◌, pos, ◌+ℤ◌, ◌<ℤ◌, length, take, drop};
ghost use Rattle.std.specs.Int.Signed.{le_z};
ghost use Rattle.sorting.specs.Rows.{row_width, rows_of};
ghost use Rattle.sorting.specs.Rows as rows;
ghost use Rattle.model.specs.Limits.{address_room};
ghost use Rattle.model.specs.Runs.{touch, hull, normal};
ghost use Rattle.model.specs.Calls.{numbers_of};
ghost use Rattle.normalisation.specs.Merging.{by_displacement, of_displacement, by_first, of_first, as_listed, displaced_of, SmallLast, AllSmallLast, merged, sorted_by_displacement, Apart};

use sorting::Row;

// Whether no bit lies between a last bit and a first bit: the first bit lies at most one above.
fn meets(last: i64, first: i64) -> bool
    requires { last <ℤ pos address_room }
    ensures { result ≡ le_z first (last +ℤ pos 1) }
{
    first <= last + 1
}

// Whether two records touch or overlap. Each is a row by displacement.
fn touches(r: Row, s: Row) -> bool
    requires { SmallLast (of_displacement r) × SmallLast (of_displacement s) }
    ensures { result ≡ touch (of_displacement r) (of_displacement s) }
{
    if r.first != s.first {
        return false;
    }
    meets(r.third, s.second) && meets(s.third, r.second)
}

// One record for two that touch. Each is a row by displacement.
fn hull_of(r: Row, s: Row) -> Row
    ensures { result ≡ by_displacement (hull (of_displacement r) (of_displacement s)) }
{
    Row {
        first: r.first,
        second: r.second.min(s.second),
        third: r.third.max(s.third),
    }
}

// The row by first of a row by displacement.
fn by_first(r: Row) -> Row
    ensures { result ≡ by_first (of_displacement r) }
{
    Row {
        first: r.second,
        second: r.first,
        third: r.third,
    }
}

// The row of a bitmapping list of a row by first.
fn listed(r: Row) -> Row
    ensures { result ≡ as_listed (of_first r) }
{
    Row {
        first: r.first,
        second: r.third,
        third: r.second,
    }
}

// Merges n records, rows by displacement: each is joined with those that follow it while they touch. Writes them to the front of out as
// rows by first, and returns how many they are. join_touching writes to the list that it reads: a list cannot be lent for both at once.
fn merge_touching(t: &[i64], n: usize, out: &mut [i64]) -> usize
    requires { (row_width * n ≤ length t.now) × (row_width * n ≤ length out.old) × AllSmallLast (displaced_of t.now n) }
    ensures value { result ≡ length (merged (displaced_of t.now n)) }
    ensures out_after { out.new ≡ rows.numbers_of (map by_first (merged (displaced_of t.now n))) ++ drop (row_width * result) out.old }
{
    if n == 0 {
        return 0;
    }
    let mut current = sorting::row_at(t, 0);
    let mut k = 0;
    for i in 1..n {
        let next = sorting::row_at(t, i);
        if touches(current, next) {
            current = hull_of(current, next);
        } else {
            sorting::put_row(out, k, by_first(current));
            k += 1;
            current = next;
        }
    }
    sorting::put_row(out, k, by_first(current));
    k + 1
}

// Writes n records, rows by first, to the front of out: first, last and displacement of each.
fn write_records(t: &[i64], n: usize, out: &mut [i64])
    requires { (row_width * n ≤ length t.now) × (row_width * n ≤ length out.old) }
    ensures { out.new ≡ numbers_of (map of_first (rows_of t.now n)) ++ drop (row_width * n) out.old }
{
    for i in 0..n {
        sorting::put_row(out, i, listed(sorting::row_at(t, i)));
    }
}

// Normalises n records, rows by displacement in the front of work, in n log n steps. Writes the records of their list there, first, last and
// displacement of each, and returns how many they are. What else stands in work and in spare afterwards is space that was worked in.
pub fn normalise(work: &mut [i64], n: usize, spare: &mut [i64]) -> usize
    requires { (row_width * n ≤ length work.old) × (row_width * n ≤ length spare.old) × AllSmallLast (displaced_of work.old n) }
    ensures value { result ≡ length (normal (displaced_of work.old n)) }
    ensures work_after { take (row_width * result) work.new ≡ numbers_of (normal (displaced_of work.old n)) }
    ensures work_len_unchanged { (length work.new ≡ length work.old) × (length spare.new ≡ length spare.old) }
{
    sorting::sort_rows(work, n, spare);
    let k = merge_touching(work, n, spare);
    sorting::sort_rows(spare, k, work);
    write_records(spare, k, work);
    k
}

// How many of the n records, rows by displacement, stand in front of the first that touches the next, in one pass: n - 1 where none does.
fn rows_apart(t: &[i64], n: usize) -> usize
    requires { (0 < n) × (row_width * n ≤ length t.now) × AllSmallLast (displaced_of t.now n) }
    ensures { Apart t.now n result }
{
    let mut current = sorting::row_at(t, 0);
    for i in 0..n - 1 {
        let next = sorting::row_at(t, i + 1);
        if touches(current, next) {
            return i;
        }
        current = next;
    }
    n - 1
}

// Merges n records, rows by displacement, where they stand: from row `from` on each is joined with those that follow it while they touch. Returns how
// many rows they are then, the first of t.
fn join_touching(t: &mut [i64], n: usize, from: usize) -> usize
    requires { (row_width * n ≤ length t.old) × Apart t.old n from × AllSmallLast (displaced_of t.old n) }
    ensures value { result ≡ length (merged (displaced_of t.old n)) }
    ensures t_after { t.new ≡ rows.numbers_of (map by_displacement (merged (displaced_of t.old n))) ++ drop (row_width * result) t.old }
{
    let mut current = sorting::row_at(t, from);
    let mut done = from;
    for i in from + 1..n {
        let next = sorting::row_at(t, i);
        if touches(current, next) {
            current = hull_of(current, next);
        } else {
            sorting::put_row(t, done, current);
            done += 1;
            current = next;
        }
    }
    sorting::put_row(t, done, current);
    done + 1
}

// Normalises n records, rows by displacement in the front of list, in n log n steps, in one pass for the order and one for the joining where they are in
// order: the rows of their list, sorted by displacement, stand there afterwards. Returns how many they are. What else stands in list behind them and in
// spare afterwards is space that was worked in.
pub fn normalise_rows(list: &mut [i64], n: usize, spare: &mut [i64]) -> usize
    requires { (row_width * n ≤ length list.old) × (row_width * n ≤ length spare.old) × AllSmallLast (displaced_of list.old n) }
    ensures value { result ≡ length (normal (displaced_of list.old n)) }
    ensures result_after { displaced_of list.new result ≡ sorted_by_displacement (normal (displaced_of list.old n)) }
    ensures list_len_unchanged { (length list.new ≡ length list.old) × (length spare.new ≡ length spare.old) }
{
    if n == 0 {
        return 0;
    }
    sorting::sort_rows(list, n, spare);
    let from = rows_apart(list, n);
    join_touching(list, n, from)
}
