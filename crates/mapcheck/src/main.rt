// Checks the map file on standard input and prints the report, or the refusal.
#![tactic(auto)]

ghost use Rattle.std.specs.Prelude.{◌≡◌, ◌≤◌, length};
ghost use Rattle.model.specs.Limits.{report_room};
ghost use Rattle.model.specs.TextCheck.{printed};
ghost use Rattle.report.specs.Put.{Put};

use input::TEXT_ROOM;

// Bytes of the report buffer.
const REPORT_ROOM: usize = 65536;

// Writes what is printed for a text, the report or the refusal, and returns its length.
fn put_printed(text: &[u8], out: &mut [u8]) -> usize
    requires { length out.old ≡ report_room }
    ensures { Put (printed text.now) out.old out.new result }
{
    match textcheck::text_check(text, out) {
        Ok(n) => n,
        Err(reason) => refusals::put_reason(out, reason),
    }
}

// Writes what it is lent, which is what is printed for a text, to standard output. The contract alone names the text, and so differs
// from that in sheetgraph. Where that cannot be written, it says so on standard error.
fn write_printed(rt: &(impl Print + Eprint), text: &[u8], out: &[u8])
    requires { out.now ≡ printed text.now }
{
    if let Err(error) = rt.write_all(out) {
        input::say_failed(rt, "standard output", error);
    }
}

// Prints what is printed for the text of the first n bytes.
fn print_text(rt: &(impl Print + Eprint), text: &[u8], n: usize)
    requires { n ≤ length text.now }
{
    let mut out = [0u8; REPORT_ROOM];
    let length = put_printed(&text[..n], &mut out);
    write_printed(rt, &text[..n], &out[..length]);
}

fn main(rt: HostRuntime) {
    let mut text = [0u8; TEXT_ROOM];
    match input::read_input(&mut rt.stdin(), &mut text) {
        Ok(n) => print_text(&rt, &text, n),
        Err(error) => input::say_failed(&rt, "standard input", error),
    }
}
