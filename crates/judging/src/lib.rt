// What two normal lists, kept as rows by displacement, say of a pair: the verdict, and the lowest address at which they differ. A row is three
// numbers of a flat slice: displacement, first, last.
#![tactic(auto)]

ghost use Rattle.std.specs.Prelude.{◌≡◌, true, ◌*◌, ◌≤◌, length};
ghost use Rattle.model.specs.Verdicts.{verdict, lowest};
ghost use Rattle.model.specs.Answers.{verdict_number};
ghost use Rattle.sorting.specs.Rows.{row_width};
ghost use Rattle.judging.specs.Judging.{OfLists, SmallRows, IsJudged};

use model::Verdict;

// What is judged of two lists: the verdict, and the lowest address at which they differ, -1 where that is not looked for or they differ nowhere,
// as in the report.
#[derive(Clone, Copy)]
pub struct Judged {
    pub verdict: Verdict,
    pub address: i64,
}

// The verdict on the ns rows of the specification and the ni rows of the implementation, in one pass over both where they are the same, and else in a
// second. Rows are the same where their numbers are, whichever way these are read.
fn verdict_of_rows(spec: &[i64], ns: usize, imp: &[i64], ni: usize) -> Verdict
    requires { (row_width * ns ≤ length spec.now) × (row_width * ni ≤ length imp.now) }
    ensures { OfLists spec.now ns imp.now ni (λ l m. verdict_number result ≡ verdict l m) }
{
    if verdicts::same_lists(spec, ns, imp, ni) {
        return Verdict::Equal;
    }
    if ni == 0 {
        return Verdict::Different;
    }
    if containment::contains_all(spec, ns, imp, ni) {
        return Verdict::Partial;
    }
    Verdict::Different
}

// The lowest bit address at which the leaf bits by two lists with this verdict differ, where it is asked for; else, and where they are equal, -1. Puts both
// lists into their order by first: what stands in the three slices afterwards is space that was worked in.
fn lowest_of_rows(
    spec: &mut [i64],
    ns: usize,
    imp: &mut [i64],
    ni: usize,
    spare: &mut [i64],
    given: Verdict,
    asked: bool,
) -> i64
    requires { SmallRows spec.old ns × SmallRows imp.old ni × (row_width * ns ≤ length spare.old) × (row_width * ni ≤ length spare.old) }
    ensures { OfLists spec.old ns imp.old ni (λ l m. asked ≡ true → verdict_number given ≡ verdict l m → result ≡ lowest l m) }
{
    if !asked {
        return -1;
    }
    if given == Verdict::Equal {
        return -1;
    }
    let s = normalisation::normalise(spec, ns, spare);
    let i = normalisation::normalise(imp, ni, spare);
    verdicts::lowest_of(spec, s, imp, i)
}

// The verdict on two lists and, where `asked`, the lowest address at which they differ, -1 where they differ nowhere. What stands in the three slices afterwards is
// space that was worked in.
pub fn judge(
    spec: &mut [i64],
    ns: usize,
    imp: &mut [i64],
    ni: usize,
    spare: &mut [i64],
    asked: bool,
) -> Judged
    requires { SmallRows spec.old ns × SmallRows imp.old ni × (row_width * ns ≤ length spare.old) × (row_width * ni ≤ length spare.old) }
    ensures { OfLists spec.old ns imp.old ni (λ l m. IsJudged l m asked result) }
{
    let verdict = verdict_of_rows(spec, ns, imp, ni);
    Judged {
        verdict,
        address: lowest_of_rows(spec, ns, imp, ni, spare, verdict, asked),
    }
}
