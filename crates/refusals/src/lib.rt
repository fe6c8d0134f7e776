// Refusals by their numbers, as documents 01 and 02 have them.
#![tactic(auto)]

ghost use Rattle.std.specs.Prelude.{◌≡◌, ◌≤◌, ◌<◌, ◌^◌, pos, neg_ℤ, length};
ghost use Rattle.model.specs.Answers as model;
ghost use Rattle.model.specs.Answers.{refusal_of};
ghost use Rattle.model.specs.Calls.{refused};
ghost use Rattle.model.specs.Report.{refusal_report};
ghost use Rattle.model.specs.TextCheck.{coded};
ghost use Rattle.report.specs.Put.{Put, refusal_room};
ghost use Rattle.refusals.specs.Small.{refusal_numbers, last_of_sheet, SmallRefusal};

use model::{OUTPUT, Reason, TEXT};

// What the number and the table of a refusal count for in its code.
const NUMBER_WEIGHT: usize = 100000000;

const TABLE_WEIGHT: usize = 10000000;

// Number, table and row of a refusal.
#[derive(Clone, Copy)]
pub struct Refusal {
    pub number: usize,
    pub table: usize,
    pub row: usize,
}

// A refusal by its number, table and row.
fn numbered(number: usize, table: usize, row: usize) -> Refusal
    ensures { refusal_numbers result ≡ model.numbered number table row }
{
    Refusal { number, table, row }
}

impl From<Reason> for Refusal {
    ghost from_gives = { λ reason refusal. refusal_numbers refusal ≡ refusal_of reason };

    fn from(reason: Reason) -> Refusal {
        match reason {
            Reason::Shape { table } => numbered(1, table, 0),
            Reason::Node { table, row } => numbered(2, table, row),
            Reason::Edge { table, row } => numbered(3, table, row),
            Reason::FromBlock { table, row } => numbered(4, table, row),
            Reason::Cycle { table } => numbered(5, table, 0),
            Reason::LongChain { table } => numbered(6, table, 0),
            Reason::NotRootOrLeaf { table, row } => numbered(7, table, row),
            Reason::PairedBefore { table, row } => numbered(8, table, row),
            Reason::NoPair { table } => numbered(9, table, 0),
            Reason::ManyPaths { table, row } => numbered(10, table, row),
            Reason::LongOutput => numbered(11, OUTPUT, 0),
            Reason::Characters { line } => numbered(12, TEXT, line),
            Reason::Names { line } => numbered(13, TEXT, line),
            Reason::Values { line } => numbered(14, TEXT, line),
            Reason::NoCaller => numbered(15, OUTPUT, 0),
            Reason::At { table, row } => numbered(16, table, row),
            Reason::SheetRange { line } => numbered(17, TEXT, line),
            Reason::OtherSize { line } => numbered(18, TEXT, line),
            Reason::LongBatch => numbered(19, OUTPUT, 0),
        }
    }
}

// Number, table and row of a reason.
pub fn refusal_numbers(reason: Reason) -> Refusal
    ensures { refusal_numbers result ≡ refusal_of reason }
{
    Refusal::from(reason)
}

// Writes what is printed for a refusal.
pub fn put_reason(out: &mut [u8], reason: Reason) -> usize
    requires { (refusal_room ≤ length out.old) × SmallRefusal last_of_sheet (refusal_of reason) }
    ensures { Put (refusal_report (refusal_of reason)) out.old out.new result }
{
    let Refusal { number, table, row } = Refusal::from(reason);
    report::put_refusal(out, number, table, row)
}

// A refusal as one number.
fn refusal_code(refusal: Refusal) -> usize
    requires { SmallRefusal last_of_sheet (refusal_numbers refusal) }
    ensures { (pos result ≡ neg_ℤ (coded (refused (refusal_numbers refusal)))) × (result < 2 ^ 63) }
{
    refusal.number * NUMBER_WEIGHT + refusal.table * TABLE_WEIGHT + refusal.row
}

// The same below 0.
pub fn negative_code(refusal: Refusal) -> i64
    requires { SmallRefusal last_of_sheet (refusal_numbers refusal) }
    ensures { result ≡ coded (refused (refusal_numbers refusal)) }
{
    let code = refusal_code(refusal);
    -(code as i64)
}
