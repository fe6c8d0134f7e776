// The step over an edge in the order of 000, 2.5.1: bits are clipped after they are shifted.
#![tactic(auto)]

ghost use Rattle.std.specs.Prelude.{◌≡◌, ◌+◌, ◌*◌, ◌≤◌, length};
ghost use Rattle.model.specs.Limits.{edge_width};
ghost use Rattle.model.specs.Graph.{graph_of};
ghost use Rattle.model.specs.Runs.{across};
ghost use Rattle.model.specs.Taken.{TakenTables};
ghost use Rattle.tables.specs.Tables.{edge_at};
ghost use Rattle.runs.specs.Clipping.{run_of, living, living_of, SmallRun};
ghost use Rattle.steps.specs.Steps.{Stepped};

use extents::{Extent, entered_extent, offset_of};
use model::WalkKind;
use runs::{Run, clip, shift};

// The step over edge e: the run shifted by the bit offset, then clipped at the node entered, by the first and the last bit on which a walk of this kind may stand (000, 2.17 and 2.18). Any run within its node is
// one with bits and root bits below 2^62, which is what is asked.
pub fn step(nodes: &[i64], edges: &[i64], e: usize, run: Run, kind: WalkKind) -> Option<Run>
    requires { TakenTables nodes.now edges.now × (edge_width * e + edge_width ≤ length edges.now) × SmallRun (run_of run) }
    ensures result_value { living_of result ≡ living (across kind (graph_of nodes.now edges.now) (edge_at edges.now e) (run_of run)) }
    ensures stepped { Stepped kind (graph_of nodes.now edges.now) (edge_at edges.now e) (run_of run) result }
{
    let offset = offset_of(nodes, edges, e);
    let shifted = shift(run, offset);
    let Extent { first, last } = entered_extent(nodes, edges, e, kind);
    clip(shifted, first, last)
}
