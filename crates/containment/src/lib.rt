// Whether each record of one list is contained in one record of another: both lists are sorted by displacement, and one pass goes over both. A list
// is a flat slice of rows by displacement, three numbers each: displacement, first, last.
#![tactic(auto)]

ghost use Rattle.std.specs.Prelude.{◌≡◌, ◌&&◌, ◌+◌, ◌*◌, ◌≤◌, length};
ghost use Rattle.std.specs.Int.Signed.{le_z};
ghost use Rattle.integers.specs.Integers.{eq_z};
ghost use Rattle.sorting.specs.Rows.{row_width, row_at};
ghost use Rattle.model.specs.Verdicts.{contained};
ghost use Rattle.normalisation.specs.Merging.{of_displacement, displaced_of};
ghost use Rattle.containment.specs.Containing.{contains_all};

use sorting::Row;

// Whether two records have one displacement. Each is a row by displacement.
fn same_displacement(r: Row, s: Row) -> bool
    ensures { result ≡ eq_z r.first s.first }
{
    r.first == s.first
}

// Whether the root bits of r are among those of s. Each is a row by displacement.
fn root_bits_within(r: Row, s: Row) -> bool
    ensures { result ≡ (le_z s.second r.second && le_z r.third s.third) }
{
    s.second <= r.second && r.third <= s.third
}

// Whether r is contained in row i of t. Each is a row by displacement.
fn contained_in(r: Row, t: &[i64], i: usize) -> bool
    requires { row_width * i + row_width ≤ length t.now }
    ensures { result ≡ contained (of_displacement r) (of_displacement (row_at t.now i)) }
{
    let s = sorting::row_at(t, i);
    same_displacement(r, s) && root_bits_within(r, s)
}

// Whether each of the ni rows of imp is contained in one of the ns rows of spec, in one pass. Both are rows by displacement, sorted.
pub fn contains_all(spec: &[i64], ns: usize, imp: &[i64], ni: usize) -> bool
    requires { (row_width * ns ≤ length spec.now) × (row_width * ni ≤ length imp.now) }
    ensures { result ≡ contains_all (displaced_of spec.now ns) (displaced_of imp.now ni) }
{
    // Each turn goes on by one in one of the lists: which, the records tell.
    let mut i = 0;
    let mut j = 0;
    while j < ni {
        if ns <= i {
            return false;
        }
        if contained_in(sorting::row_at(imp, j), spec, i) {
            j += 1;
        } else {
            i += 1;
        }
    }
    true
}
