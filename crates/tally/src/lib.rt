// The tally record: sixteen rows of four counts, a row for each caller.
#![tactic(auto)]

ghost use Rattle.std.specs.Prelude.{◌≡◌, ◌<◌};
ghost use Rattle.model.specs.Limits.{callers, count_kinds};
ghost use Rattle.model.specs.Tally.{caller_of, count_place, one_more, one_more_for, fresh_tally};
ghost use Rattle.tally.specs.Callers.{caller_named, OneOfSixteen};
ghost use Rattle.tally.specs.Endings.{ending_place};

use model::{CALLERS, COUNT_KINDS, Verdict};

// A count stays from here on.
const COUNT_CEILING: u64 = 9223372036854775807;

// Counts of a record.
const COUNTS: usize = COUNT_KINDS * CALLERS;

// How a check ends, in the order of the counts of a caller.
#[derive(Clone, Copy, PartialEq, Eq)]
pub enum Ending {
    Equal,
    Partial,
    Different,
    Refused,
}

impl Ending {
    // The place of its count in the row of a caller.
    fn place(self) -> usize
        ensures { result ≡ ending_place self }
    {
        self as usize
    }
}

impl From<Verdict> for Ending {
    ghost use Rattle.model.specs.Answers.{verdict_number};

    ghost from_gives = { λ v e. ending_place e ≡ verdict_number v };

    fn from(verdict: Verdict) -> Ending {
        match verdict {
            Verdict::Equal => Ending::Equal,
            Verdict::Partial => Ending::Partial,
            Verdict::Different => Ending::Different,
        }
    }
}

// The counts of each caller, from caller 0: equal, partial, different and refused.
#[derive(Clone, Copy)]
pub struct Tally {
    pub counts: [u64; COUNTS],
}

// Who has this number.
pub fn who_asks(number: i64) -> Option<usize>
    ensures { caller_named result ≡ caller_of number }
{
    let caller = usize::try_from(number).ok()?;
    (caller < CALLERS).then_some(caller)
}

// A tally of no check.
pub fn fresh_tally() -> Tally
    ensures { result.counts ≡ fresh_tally }
{
    Tally {
        counts: [0; COUNTS],
    }
}

// The tally with one more at a caller's count, unless that count stays.
fn one_more(tally: Tally, caller: usize, ending: Ending) -> Tally
    requires { caller < callers }
    ensures { result.counts ≡ one_more (count_place caller (ending_place ending)) tally.counts }
{
    let place = COUNT_KINDS * caller + ending.place();
    let mut next = tally;
    let count = next.counts[place];
    if count < COUNT_CEILING {
        next.counts[place] = count + 1;
    }
    next
}

// The tally after a check that ended so: one more for its caller. For a number outside 0..15 it is the tally as it was.
pub fn counted(tally: Tally, who: Option<usize>, ending: Ending) -> Tally
    requires { OneOfSixteen who }
    ensures { result.counts ≡ one_more_for (caller_named who) (ending_place ending) tally.counts }
{
    match who {
        Some(caller) => one_more(tally, caller, ending),
        None => tally,
    }
}
