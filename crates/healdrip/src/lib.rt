// The text check for programs in other languages.
#![tactic(auto)]

ghost use Rattle.model.specs.TextCheck.{coded};
ghost use Rattle.textcheck.specs.Promises.{TextPromise};

use refusals::Refusal;

// Checks a map file and writes the report: its length, or -(number * 100,000,000 + table * 10,000,000 + row) of the refusal, on which the
// buffer is untouched.
#[unsafe(no_mangle)]
pub extern "C" fn healdrip_text_check(text: &[u8], report: &mut [u8]) -> i64
    ensures { TextPromise coded text.now report.old report.new result }
{
    match textcheck::text_check(text, report) {
        Ok(n) => n as i64,
        Err(reason) => refusals::negative_code(Refusal::from(reason)),
    }
}
