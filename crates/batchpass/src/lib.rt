// The pass of a batch over a list of records: each record is read once, for all addresses. Nothing is written before the last record has been read, and
// nothing at all where the rows do not fit: the pass counts on its way to the end of the list, and writes on its way back.
#![tactic(auto)]

ghost use Rattle.std.specs.Prelude.{◌≡◌, ◌*◌, ◌≤◌, leb};
ghost use Rattle.model.specs.Limits.{max_batch, batch_width, max_paths};
ghost use Rattle.batches.specs.Batch.{counts_result};
ghost use Rattle.normalisation.specs.Records.{records_of, records_from};
ghost use Rattle.batchpass.specs.Passing.{Passable, PassedBehind, Passed};

use model::{BATCH_WIDTH, BatchCounts, Reason};

// Whether so many rows fit into a buffer with room for so many numbers.
fn fit(rows: usize, room: usize) -> bool
    requires { rows ≤ max_batch * max_paths }
    ensures { result ≡ leb (batch_width * rows) room }
{
    BATCH_WIDTH * rows <= room
}

// Goes through the records of the list from record i on, with the rows of those before it counted. Gives how many rows there are up to the end, and how
// many records were read. Where all rows fit, those of the records read are written behind the rows before them.
fn pass_from(
    list: &[i64],
    n: usize,
    i: usize,
    addresses: &[i64],
    before: usize,
    out: &mut [i64],
) -> BatchCounts
    requires { Passable list.now n addresses.now × (i ≤ n) × (before ≤ max_batch * i) }
    ensures { PassedBehind (records_from list.now i n) addresses.now before out.old (counts_result result) out.new }
{
    if n <= i {
        return BatchCounts {
            rows: before,
            records: 0,
        };
    }
    let s = verdicts::record_at(list, i);
    let rows = before + batchrows::count_rows(s, addresses);
    let rest = pass_from(list, n, i + 1, addresses, rows, out);
    if fit(rest.rows, out.len()) {
        batchrows::put_rows(s, addresses, &mut out[BATCH_WIDTH * before..]);
    }
    BatchCounts {
        rows: rest.rows,
        records: rest.records + 1,
    }
}

// Goes through the first n records of the list, once, for all addresses: the rows record by record, and within a record by place, in the front of `out`, how many
// they are, and how many records were read. Where the rows do not fit, the refusal, with `out` untouched.
pub fn pass(
    list: &[i64],
    n: usize,
    addresses: &[i64],
    out: &mut [i64],
) -> Result<BatchCounts, Reason>
    requires { Passable list.now n addresses.now }
    ensures { Passed (records_of list.now n) addresses.now out.old result out.new }
{
    let counts = pass_from(list, n, 0, addresses, 0, out);
    if fit(counts.rows, out.len()) {
        Ok(counts)
    } else {
        Err(Reason::LongOutput)
    }
}
