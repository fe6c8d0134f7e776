// The rows of a pair table: the nodes and the number that they hold, and their checks one by one.
#![tactic(auto)]

ghost use Rattle.std.specs.Prelude.{◌≡◌, ◌&&◌, ◌+◌, ◌*◌, ◌≤◌, ◌<◌, pos, ◌≤ℤ◌, length};
ghost use Rattle.model.specs.Limits.{pair_width, max_nodes};
ghost use Rattle.model.specs.Calls.{answer};
ghost use Rattle.model.specs.Answers.{checked_answer};
ghost use Rattle.tables.specs.Tables.{pair_at};
ghost use Rattle.pairing.specs.Classes.{has_class};
ghost use Rattle.pairing.specs.Pairs.{node_columns, node_in, same_by, check_pairs, Unmarked, check_at, check_marks, check_row};

use model::{MAX_NODES, PAIR_WIDTH, Reason};

// The column of a pair table with the specification node.
pub const SPEC_COLUMN: usize = 0;

// The column with the implementation node.
pub const IMPL_COLUMN: usize = 1;

// The column with the leaf bit where the implementation leaf begins.
pub const AT_COLUMN: usize = 2;

// Whether v is a node with this class.
#[tactic(auto, using(tables::proofs::Cells::cells), unfolding(crate::specs::Classes::has_class))]
fn has_class(v: i64, class: &[usize], wanted: usize) -> bool
    ensures { result ≡ has_class class.now wanted v }
{
    0 <= v && (v as usize) < class.len() && class[v as usize] == wanted
}

// The node in a column of a pair row, as an index.
pub fn pair_node(pairs: &[i64], column: usize, row: usize) -> usize
    requires { (column < node_columns) × (pair_width * row + pair_width ≤ length pairs.now) × (pos 0 ≤ℤ node_in column (pair_at pairs.now row)) }
    ensures { pos result ≡ node_in column (pair_at pairs.now row) }
{
    pairs[PAIR_WIDTH * row + column] as usize
}

// The specification node of a pair row, as an index.
pub fn spec_node(pairs: &[i64], row: usize) -> usize
    requires { (pair_width * row + pair_width ≤ length pairs.now) × (pos 0 ≤ℤ (pair_at pairs.now row).spec) }
    ensures { pos result ≡ (pair_at pairs.now row).spec }
{
    pair_node(pairs, SPEC_COLUMN, row)
}

// The implementation node of a pair row, as an index.
pub fn impl_node(pairs: &[i64], row: usize) -> usize
    requires { (pair_width * row + pair_width ≤ length pairs.now) × (pos 0 ≤ℤ (pair_at pairs.now row).impl) }
    ensures { pos result ≡ (pair_at pairs.now row).impl }
{
    pair_node(pairs, IMPL_COLUMN, row)
}

// The specification leaf bit where the implementation leaf of a pair row begins.
pub fn pair_at(pairs: &[i64], row: usize) -> i64
    requires { pair_width * row + pair_width ≤ length pairs.now }
    ensures { result ≡ (pair_at pairs.now row).at }
{
    pairs[PAIR_WIDTH * row + AT_COLUMN]
}

// Whether both nodes of pair row k have the wanted class.
#[tactic(auto, using(tables::proofs::Cells::cells))]
fn both_have_class(
    pairs: &[i64],
    k: usize,
    spec_class: &[usize],
    impl_class: &[usize],
    wanted: usize,
) -> bool
    requires { pair_width * k + pair_width ≤ length pairs.now }
    ensures { result
        ≡ has_class spec_class.now wanted (pair_at pairs.now k).spec
        && has_class impl_class.now wanted (pair_at pairs.now k).impl }
{
    has_class(pairs[PAIR_WIDTH * k + SPEC_COLUMN], spec_class, wanted)
        && has_class(pairs[PAIR_WIDTH * k + IMPL_COLUMN], impl_class, wanted)
}

// Refusal 16 of row k: `at` is outside 0 .. most.
#[tactic(auto, using(tables::proofs::Cells::cells), unfolding(model::specs::Calls::answer, model::specs::Checks::when, model::specs::Checks::good_at))]
fn check_at(pairs: &[i64], k: usize, table: usize, most: i64) -> Result<(), Reason>
    requires { pair_width * k + pair_width ≤ length pairs.now }
    ensures { checked_answer result ≡ answer (check_at table most (pair_at pairs.now k)) tt }
{
    if !(0..=most).contains(&pair_at(pairs, k)) {
        return Err(Reason::At { table, row: k });
    }
    Ok(())
}

// Refusal 8 of row k: the mark of one of its nodes is set.
#[tactic(auto, unfolding(model::specs::Calls::answer, model::specs::Checks::when))]
fn check_marks(k: usize, table: usize, spec_mark: bool, impl_mark: bool) -> Result<(), Reason>
    ensures { checked_answer result ≡ answer (check_marks table k spec_mark impl_mark) tt }
{
    if spec_mark || impl_mark {
        return Err(Reason::PairedBefore { table, row: k });
    }
    Ok(())
}

// Refusals 16 and 8 of row k, whose nodes have these marks.
fn check_row(
    pairs: &[i64],
    k: usize,
    table: usize,
    most: i64,
    spec_mark: bool,
    impl_mark: bool,
) -> Result<(), Reason>
    requires { pair_width * k + pair_width ≤ length pairs.now }
    ensures { checked_answer result ≡ answer (check_row table most spec_mark impl_mark (pair_at pairs.now k)) tt }
{
    check_at(pairs, k, table, most)?;
    check_marks(k, table, spec_mark, impl_mark)
}

// Refusals 7, 16 and 8 of a pair table. The marks say which nodes earlier rows have, those of the specification only where `spec_once`; none is set at the start.
fn check_unmarked(
    pairs: &[i64],
    table: usize,
    spec_class: &[usize],
    impl_class: &[usize],
    wanted: usize,
    most: i64,
    spec_once: bool,
    spec_marks: &mut [bool],
    impl_marks: &mut [bool],
) -> Result<(), Reason>
    requires { Unmarked (length spec_class.now) spec_marks.old × Unmarked (length impl_class.now) impl_marks.old }
    ensures { checked_answer result
        ≡ answer (check_pairs table (has_class spec_class.now wanted) (has_class impl_class.now wanted) most (same_by spec_once) pairs.now) tt }
{
    for k in 0..pairs.len() / PAIR_WIDTH {
        if !both_have_class(pairs, k, spec_class, impl_class, wanted) {
            return Err(Reason::NotRootOrLeaf { table, row: k });
        }
        let spec = spec_node(pairs, k);
        let implementation = impl_node(pairs, k);
        check_row(
            pairs,
            k,
            table,
            most,
            spec_marks[spec],
            impl_marks[implementation],
        )?;
        spec_marks[spec] = spec_once;
        impl_marks[implementation] = true;
    }
    Ok(())
}

// Refusals 7, 16 and 8: the first row with a node that has not the wanted class, or with `at` outside 0 .. most, or with the
// implementation node of an earlier row, or, where `spec_once`, with the specification node of one. One pass over the rows.
pub fn check_pairs(
    pairs: &[i64],
    table: usize,
    spec_class: &[usize],
    impl_class: &[usize],
    wanted: usize,
    most: i64,
    spec_once: bool,
) -> Result<(), Reason>
    requires { (length spec_class.now ≤ max_nodes) × (length impl_class.now ≤ max_nodes) }
    ensures { checked_answer result
        ≡ answer (check_pairs table (has_class spec_class.now wanted) (has_class impl_class.now wanted) most (same_by spec_once) pairs.now) tt }
{
    let mut spec_marks = [false; MAX_NODES];
    let mut impl_marks = [false; MAX_NODES];
    check_unmarked(
        pairs,
        table,
        spec_class,
        impl_class,
        wanted,
        most,
        spec_once,
        &mut spec_marks,
        &mut impl_marks,
    )
}
