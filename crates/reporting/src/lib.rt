// The report, from the lines of the pairs, each of them one number, and the full result of a comparison, into a lent buffer.
#![tactic(auto)]

ghost use Rattle.std.specs.Prelude.{◌≡◌, [], ◌∷◌, ◌*◌, ◌≤◌, ◌<◌, pos, length, take};
ghost use Rattle.model.specs.Answers.{verdict_number, comparison_result};
ghost use Rattle.model.specs.Report.{line_of};
ghost use Rattle.report.specs.Put.{Put};
ghost use Rattle.reporting.specs.Lines.{length_stride, judged_room, with_lengths, line_numbers, result_numbers, line_of_number, lines_of, result_lines, report_from, SmallPlace, SmallLengths, SmallResult};

use model::{Comparison, ROOT_STRIDE, Verdict, verdict_number};

// What the number of a line without the length of a list counts for, and what the place of a pair without its verdict does.
const LENGTH_STRIDE: usize = 1025;

const VERDICT_STRIDE: usize = 4;

// The lengths of the texts above the lines of the pairs and above the result.
const HEADING_LENGTH: usize = 42;

const MIDDLE_LENGTH: usize = 51;

// The lengths of the two lists of a pair for one kind of walk.
#[derive(Clone, Copy)]
pub struct Lengths {
    pub spec: usize,
    pub implementation: usize,
}

// A number with the lengths of two lists behind it, each a digit of base LENGTH_STRIDE.
fn with_lengths(number: usize, lengths: Lengths) -> usize
    requires { SmallLengths lengths × (number < length_stride * length_stride * judged_room) }
    ensures { result ≡ with_lengths number lengths.spec lengths.implementation }
{
    (number * LENGTH_STRIDE + lengths.spec) * LENGTH_STRIDE + lengths.implementation
}

// The line of a pair with these rows, this verdict and these list lengths, for reading and for writing, as one number.
pub fn line_number(
    root_row: usize,
    leaf_row: usize,
    verdict: Verdict,
    reading: Lengths,
    writing: Lengths,
) -> usize
    requires { SmallPlace root_row leaf_row × SmallLengths reading × SmallLengths writing }
    ensures { line_of_number result
        ≡ line_of
        (pos root_row
        ∷ pos leaf_row
        ∷ pos (verdict_number verdict)
        ∷ pos reading.spec
        ∷ pos reading.implementation
        ∷ pos writing.spec
        ∷ pos writing.implementation
        ∷ []) }
{
    let place = root_row * ROOT_STRIDE + leaf_row;
    let judged = place * VERDICT_STRIDE + verdict_number(verdict);
    let read = with_lengths(judged, reading);
    with_lengths(read, writing)
}

// The seven numbers that one number stands for.
fn line_numbers(number: usize) -> [i64; 7]
    ensures { result ≡ line_numbers number }
{
    let read = number / LENGTH_STRIDE / LENGTH_STRIDE;
    let judged = read / LENGTH_STRIDE / LENGTH_STRIDE;
    let place = judged / VERDICT_STRIDE;
    [
        (place / ROOT_STRIDE) as i64,
        (place % ROOT_STRIDE) as i64,
        (judged % VERDICT_STRIDE) as i64,
        (read / LENGTH_STRIDE % LENGTH_STRIDE) as i64,
        (read % LENGTH_STRIDE) as i64,
        (number / LENGTH_STRIDE % LENGTH_STRIDE) as i64,
        (number % LENGTH_STRIDE) as i64,
    ]
}

// The length of a number's line.
pub fn line_length(number: usize) -> usize
    ensures { result ≡ length (line_of_number number) }
{
    let numbers = line_numbers(number);
    report::numbers_length(&numbers)
}

// Writes a number's line.
fn put_line(out: &mut [u8], number: usize) -> usize
    requires { length (line_of_number number) ≤ length out.old }
    ensures { Put (line_of_number number) out.old out.new result }
{
    let numbers = line_numbers(number);
    report::put_numbers(out, &numbers)
}

// Writes the lines of n numbers, each into what remains of the buffer.
pub fn put_lines(out: &mut [u8], lines: &[usize], n: usize) -> usize
    requires { (n ≤ length lines.now) × (length (lines_of (take n lines.now)) ≤ length out.old) }
    ensures { Put (lines_of (take n lines.now)) out.old out.new result }
{
    let mut at = 0;
    for number in &lines[..n] {
        at += put_line(&mut out[at..], *number);
    }
    at
}

// The numbers of the result's line.
fn result_numbers(res: Comparison) -> [i64; 7]
    requires { SmallResult (comparison_result res) }
    ensures { result ≡ result_numbers (comparison_result res) }
{
    [
        verdict_number(res.verdict) as i64,
        res.equal as i64,
        res.partial as i64,
        res.different as i64,
        res.root,
        res.leaf,
        res.address,
    ]
}

// The length of a report with this result and no lines.
pub fn fixed_length(res: Comparison) -> usize
    requires { SmallResult (comparison_result res) }
    ensures { result ≡ length (report_from [] (comparison_result res)) }
{
    let numbers = result_numbers(res);
    HEADING_LENGTH + MIDDLE_LENGTH + report::numbers_length(&numbers)
}

// Writes an empty line and the names and, into what remains of the buffer, the result's line.
pub fn put_ending(out: &mut [u8], res: Comparison) -> usize
    requires { SmallResult (comparison_result res) × (length (result_lines (comparison_result res)) ≤ length out.old) }
    ensures { Put (result_lines (comparison_result res)) out.old out.new result }
{
    let at = report::put_middle(out);
    let numbers = result_numbers(res);
    at + report::put_numbers(&mut out[at..], &numbers)
}
