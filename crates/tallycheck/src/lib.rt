// The text check of a caller, beside a tally of how the checks of each caller ended.
#![tactic(auto)]

ghost use Rattle.std.specs.Prelude.{◌≡◌, length};
ghost use Rattle.model.specs.Answers.{written_answer};
ghost use Rattle.model.specs.TextCheck.{text_answer};
ghost use Rattle.model.specs.Tally.{answer_to};
ghost use Rattle.tablecheck.specs.Outcomes.{Gives};
ghost use Rattle.tally.specs.Callers.{caller_named};
ghost use Rattle.tally.specs.Endings.{ending_place};
ghost use Rattle.tallycheck.specs.Endings.{outcome_ending};
ghost use Rattle.tallycheck.specs.Promises.{TallyPromise};

use model::Reason;
use tablecheck::Reported;
use tally::{Ending, Tally};

// The answer of a check, and the tally after it.
#[derive(Clone, Copy)]
pub struct Tallied {
    pub written: Result<usize, Reason>,
    pub tally: Tally,
}

// How the check with this outcome ended.
fn ending_of(outcome: Result<Reported, Reason>) -> Ending
    ensures { ending_place result ≡ outcome_ending outcome }
{
    outcome.map_or(Ending::Refused, |reported| Ending::from(reported.verdict))
}

// The text check for a caller. A number outside 0..15 is refused with 15, and neither text nor buffer is looked at.
fn check_by(text: &[u8], report: &mut [u8], who: Option<usize>) -> Result<Reported, Reason>
    ensures { Gives (answer_to (caller_named who) (text_answer (length report.old) text.now)) report.old report.new result }
{
    who.ok_or(Reason::NoCaller)?;
    textcheck::check_map(text, report)
}

// Checks a map file for a caller and writes the report, as the text check does, and hands back the tally with one more in that caller's row. A number
// outside 0..15 is refused before anything else, and the tally is handed back as it was.
pub fn tally_check(text: &[u8], report: &mut [u8], tally: Tally, caller: i64) -> Tallied
    ensures { TallyPromise (record { caller = caller; text = text.now; report = report.old }) tally.counts report.new
        (written_answer result.written) result.tally.counts }
{
    let who = tally::who_asks(caller);
    let outcome = check_by(text, report, who);
    Tallied {
        written: textcheck::written_of(outcome),
        tally: tally::counted(tally, who, ending_of(outcome)),
    }
}
