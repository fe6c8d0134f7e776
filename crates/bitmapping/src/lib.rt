// The bitmapping list of a root and a leaf of one graph, and the walk of one bit address, for a kind of walk.
#![tactic(auto)]

ghost use Rattle.std.specs.Prelude.{◌≡◌, ◌++◌, ℕ, ◌+◌, ◌*◌, ◌≤◌, ◌<◌, length, drop};
ghost use Rattle.bitmapping.specs.Promises.{ListPromise, WalkPromise};
ghost use Rattle.bitmapping.specs.Copying.{spaced, Copied};

use model::{MAX_NODES, MAX_NUMBERS, RECORD_WIDTH, Reason, WalkKind};

// The place of the displacement among the numbers of a record.
const DISPLACEMENT: usize = 2;

// Copies n numbers of `from` to the front of `to`: that at `first`, and each `step` behind the one before.
fn copy_numbers(from: &[i64], first: usize, step: usize, n: usize, to: &mut [i64])
    requires { ((k : ℕ) → k < n → first + step * k < length from.now) × (n ≤ length to.old) }
    ensures { to.new ≡ spaced from.now first step n ++ drop n to.old }
{
    for (k, x) in to[..n].iter_mut().enumerate() {
        *x = from[first + step * k];
    }
}

// Copies n numbers of `from` to the front of `out`, and gives `count`. Where they do not fit, the refusal, with `out` untouched.
fn put_numbers(
    from: &[i64],
    first: usize,
    step: usize,
    n: usize,
    count: usize,
    out: &mut [i64],
) -> Result<usize, Reason>
    requires { (k : ℕ) → k < n → first + step * k < length from.now }
    ensures { Copied (spaced from.now first step n) count out.old result out.new }
{
    if out.len() < n {
        return Err(Reason::LongOutput);
    }
    copy_numbers(from, first, step, n, out);
    Ok(count)
}

// The bitmapping list of a root and a leaf for walks of this kind: its records in order, three numbers each, in the front of `out`, and how many they are.
// Where the tables, root, leaf or the length of `out` are not as they should be, the first refusal, with `out` untouched.
pub fn list(
    nodes: &[i64],
    edges: &[i64],
    root: i64,
    leaf: i64,
    kind: WalkKind,
    out: &mut [i64],
) -> Result<usize, Reason>
    ensures { ListPromise kind nodes.now edges.now root leaf out.old result out.new }
{
    let mut work = [0i64; MAX_NUMBERS];
    let records = asked::list_asked(nodes, edges, root, leaf, kind, &mut work)?;
    put_numbers(&work, 0, 1, RECORD_WIDTH * records, records, out)
}

// The distinct leaf bits that a bit address at the root reaches by walks of this kind, ascending, in the front of `out`, and how many they are: none where
// no walk may stand on the root with the address. Else the first refusal, with `out` untouched.
pub fn walk(
    nodes: &[i64],
    edges: &[i64],
    root: i64,
    leaf: i64,
    address: i64,
    kind: WalkKind,
    out: &mut [i64],
) -> Result<usize, Reason>
    ensures { WalkPromise kind nodes.now edges.now root leaf address out.old result out.new }
{
    let mut counts = [0usize; MAX_NODES];
    asked::check_asked(nodes, edges, root, leaf, &mut counts)?;
    let mut work = [0i64; MAX_NUMBERS];
    let bits = listing::walk_pair(
        nodes,
        edges,
        root as usize,
        leaf as usize,
        address,
        kind,
        &counts,
        &mut work,
    );
    put_numbers(&work, DISPLACEMENT, RECORD_WIDTH, bits, bits, out)
}
