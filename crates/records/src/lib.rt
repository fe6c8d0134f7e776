// The bitmapping list of a root and a leaf for a kind of walk, as a slice of records.
#![tactic(auto)]

ghost use Rattle.std.specs.Prelude.{◌≡◌, ◌++◌, ◌≤◌, ◌<◌, length, take, drop};
ghost use Rattle.model.specs.Limits.{max_paths};
ghost use Rattle.model.specs.Calls.{list_gives, list_after};
ghost use Rattle.model.specs.Answers.{written_answer};
ghost use Rattle.records.specs.Promises.{RecordsPromise};
ghost use Rattle.records.specs.Putting.{record_at, records_in, Listed};

use model::{MAX_NUMBERS, MAX_PATHS, RECORD_WIDTH, Reason, WalkKind};

// Places of the last bit and of the displacement in a record, behind its first bit.
const LAST: usize = 1;

const DISPLACEMENT: usize = 2;

// Root bits first to last reach leaf bits that stand `displacement` below them.
#[derive(Clone, Copy)]
pub struct Record {
    pub first: i64,
    pub last: i64,
    pub displacement: i64,
}

// Record i of a list whose numbers stand three by three.
fn record_at(numbers: &[i64; MAX_NUMBERS], i: usize) -> Record
    requires { i < max_paths }
    ensures { result ≡ record_at numbers.now i }
{
    Record {
        first: numbers[RECORD_WIDTH * i],
        last: numbers[RECORD_WIDTH * i + LAST],
        displacement: numbers[RECORD_WIDTH * i + DISPLACEMENT],
    }
}

// Writes the first n records to the front of `out`.
fn put_records(numbers: &[i64; MAX_NUMBERS], n: usize, out: &mut [Record])
    requires { (n ≤ max_paths) × (n ≤ length out.old) }
    ensures { out.new ≡ records_in numbers.now n ++ drop n out.old }
{
    for (i, record) in out[..n].iter_mut().enumerate() {
        *record = record_at(numbers, i);
    }
}

// The list for walks of this kind into the first `numbers` numbers of `work`.
fn list_front(
    nodes: &[i64],
    edges: &[i64],
    root: i64,
    leaf: i64,
    kind: WalkKind,
    numbers: usize,
    work: &mut [i64],
) -> Result<usize, Reason>
    requires { numbers ≤ length work.old }
    ensures { (written_answer result ≡ list_gives kind nodes.now edges.now root leaf (take numbers work.old))
        × (work.new
        ≡ list_after kind nodes.now edges.now root leaf (take numbers work.old) ++ drop numbers work.old) }
{
    bitmapping::list(nodes, edges, root, leaf, kind, &mut work[..numbers])
}

// The list for walks of this kind into the front of `work`: three numbers for each of `room` records, of which the longest list needs MAX_PATHS.
fn list_within(
    nodes: &[i64],
    edges: &[i64],
    root: i64,
    leaf: i64,
    kind: WalkKind,
    room: usize,
    work: &mut [i64; MAX_NUMBERS],
) -> Result<usize, Reason>
    ensures { Listed kind nodes.now edges.now root leaf room work.old result work.new }
{
    let records = room.min(MAX_PATHS);
    list_front(nodes, edges, root, leaf, kind, RECORD_WIDTH * records, work)
}

// The bitmapping list of a root and a leaf for walks of this kind: its records in order in the front of `out`, and how many they are. Where the tables,
// root, leaf or the length of `out` are not as they should be, the first refusal, with `out` untouched. The numbers of the list are made in `work`.
pub fn list_records(
    nodes: &[i64],
    edges: &[i64],
    root: i64,
    leaf: i64,
    kind: WalkKind,
    out: &mut [Record],
    work: &mut [i64; MAX_NUMBERS],
) -> Result<usize, Reason>
    ensures { RecordsPromise kind nodes.now edges.now root leaf out.old work.old
        result out.new work.new }
{
    let n = list_within(nodes, edges, root, leaf, kind, out.len(), work)?;
    put_records(work, n, out);
    Ok(n)
}
