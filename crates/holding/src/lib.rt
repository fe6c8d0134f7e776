// What is found of the groups of a root row for a kind of walk, held until both kinds are kept: four numbers a group.
#![tactic(auto)]

ghost use Rattle.std.specs.Prelude.{◌≡◌, ◌+◌, ◌*◌, ◌≤◌, pos, length};
ghost use Rattle.model.specs.Answers.{verdict_number};
ghost use Rattle.model.specs.declared.Verdict as declared;
ghost use Rattle.reporting.specs.Lines.{SmallLengths};
ghost use Rattle.totals.specs.declared.Found as told;
ghost use Rattle.holding.specs.Held.{held_width, held_with, HeldAt, Held};

use model::{MAX_PAIRS, Verdict, verdict_number};
use reporting::Lengths;
use totals::Found;

// Numbers that are held of a group: the number of its verdict, the lengths of its two lists, and its lowest address.
const HELD_WIDTH: usize = 4;

// Numbers that are held of the groups of a root row at most.
pub const HELD_ROOM: usize = HELD_WIDTH * MAX_PAIRS;

// Holds what is found of a group.
pub fn hold(held: &mut [i64], group: usize, found: Found)
    requires { (held_width * group + held_width ≤ length held.old) × SmallLengths found.lengths }
    ensures { held.new ≡ held_with held.old group found }
{
    held[HELD_WIDTH * group] = verdict_number(found.verdict) as i64;
    held[HELD_WIDTH * group + 1] = found.lengths.spec as i64;
    held[HELD_WIDTH * group + 2] = found.lengths.implementation as i64;
    held[HELD_WIDTH * group + 3] = found.address;
}

// The verdict with this number. What is held is numbers, of which no other than these three is held, so this cannot fail as TryFrom can.
fn verdict_with(number: i64) -> Verdict
    ensures { (v : declared.Verdict) → number ≡ pos (verdict_number v) → result ≡ v }
{
    match number {
        0 => Verdict::Equal,
        1 => Verdict::Partial,
        _ => Verdict::Different,
    }
}

// What is held of a group.
pub fn held_at(held: &[i64], group: usize) -> Found
    requires { Held held.now group }
    ensures { (f : told.Found) → HeldAt held.now group f → result ≡ f }
{
    let judged = held[HELD_WIDTH * group];
    let spec = held[HELD_WIDTH * group + 1];
    let implementation = held[HELD_WIDTH * group + 2];
    let address = held[HELD_WIDTH * group + 3];
    let lengths = Lengths {
        spec: spec as usize,
        implementation: implementation as usize,
    };
    Found {
        verdict: verdict_with(judged),
        lengths,
        address,
    }
}
