// What is found of a pair for the two kinds of walk, put together: the worse verdict, the lower address, and how many records there are.
#![tactic(auto)]

ghost use Rattle.std.specs.Prelude.{◌≡◌, ◌+◌, max};
ghost use Rattle.model.specs.Answers.{verdict_number};
ghost use Rattle.model.specs.Compare.{lower_of};
ghost use Rattle.reporting.specs.Lines.{SmallLengths};

use model::Verdict;
use reporting::Lengths;

// The higher of two verdicts: of the two kinds of a pair, the worse.
pub fn higher(one: Verdict, other: Verdict) -> Verdict
    ensures { verdict_number result ≡ max (verdict_number one) (verdict_number other) }
{
    one.max(other)
}

// The lower of two addresses that are there: each is -1 where there is none, as the result of a comparison has it.
pub fn lower_of(one: i64, other: i64) -> i64
    ensures { result ≡ lower_of one other }
{
    if one < 0 {
        other
    } else if other < 0 {
        one
    } else {
        one.min(other)
    }
}

// How many records the four lists of a pair have together: those for reading and those for writing.
pub fn record_count(reading: Lengths, writing: Lengths) -> usize
    requires { SmallLengths reading × SmallLengths writing }
    ensures { result ≡ reading.spec + reading.implementation + (writing.spec + writing.implementation) }
{
    let read = reading.spec + reading.implementation;
    let written = writing.spec + writing.implementation;
    read + written
}
