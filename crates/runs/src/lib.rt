// Runs of bit addresses, and the two operations of which the step over an edge is made: bits are clipped after they are shifted (000, 2.5.1).
#![tactic(auto)]

ghost use Rattle.std.specs.Prelude.{◌≡◌};
ghost use Rattle.model.specs.Runs.{shift, clip};
ghost use Rattle.runs.specs.Clipping.{run_of, living, living_of, SmallRun, SmallOffset, Clippable, SmallExtent, Shifted, ClippedTo};

use model::Bits;

// The bit addresses low to high at some node, and the root bit that has walked to low.
#[derive(Clone, Copy, PartialEq, Eq)]
pub struct Run {
    pub root: Bits,
    pub low: Bits,
    pub high: Bits,
}

// Shift: every bit less the offset, each with its root bit (000, 2.3 to 2.5; there from leaf to root, with the offset added).
pub fn shift(run: Run, offset: Bits) -> Run
    requires { SmallRun (run_of run) × SmallOffset offset.0 }
    ensures result_value { run_of result ≡ shift offset.0 (run_of run) }
    ensures shifted { Shifted offset.0 (run_of run) (run_of result) }
{
    Run {
        root: run.root,
        low: run.low.less(offset),
        high: run.high.less(offset),
    }
}

// Clip: those bits that lie from `first` to `last`, each with its root bit, or nothing. Bits are cut at the low end where `first` lies above it (000, 2.15), and at the
// high end where `last` lies below it (2.16). A run that has no bit left is found before its root bit is computed: the sum might not fit.
pub fn clip(run: Run, first: Bits, last: Bits) -> Option<Run>
    requires { Clippable (run_of run) × SmallExtent first.0 last.0 }
    ensures result_value { living_of result ≡ living (clip first.0 last.0 (run_of run)) }
    ensures clipped_to { ClippedTo first.0 last.0 (run_of run) result }
{
    let low = first.higher(run.low);
    let high = last.lower(run.high);
    if high < low {
        return None;
    }
    Some(Run {
        root: run.root.plus(low.less(run.low)),
        low,
        high,
    })
}
