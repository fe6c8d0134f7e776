// The walks of many bit addresses from one root to one leaf, for a kind of walk, in a single pass over their bitmapping list.
#![tactic(auto)]

ghost use Rattle.batch.specs.Promises.{BatchPromise};

use model::{BatchCounts, MAX_BATCH, MAX_NUMBERS, Reason, WalkKind};

// The rows of a batch of bit addresses at the root, in the front of `out`: a place in the batch, from 0, and a leaf bit each, for precisely the leaf
// bits that the walks of this kind of the addresses give, record by record and within a record by place. Gives how many rows they are, and how many records were
// read: each record of the list once, for all addresses. Where the batch, the tables, root, leaf or the length of `out` are not as they should be, the
// first refusal, with `out` untouched.
pub fn batch(
    nodes: &[i64],
    edges: &[i64],
    root: i64,
    leaf: i64,
    addresses: &[i64],
    kind: WalkKind,
    out: &mut [i64],
) -> Result<BatchCounts, Reason>
    ensures { BatchPromise kind nodes.now edges.now root leaf addresses.now out.old result out.new }
{
    if MAX_BATCH < addresses.len() {
        return Err(Reason::LongBatch);
    }
    let mut work = [0i64; MAX_NUMBERS];
    let records = asked::list_asked(nodes, edges, root, leaf, kind, &mut work)?;
    batchpass::pass(&work, records, addresses, out)
}
