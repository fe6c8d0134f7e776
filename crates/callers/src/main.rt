// Checks of several callers, one after the other, and what each gave: who asked, the answer, how many bytes of the buffer changed, and all counts.
#![tactic(auto)]

use model::{COUNT_KINDS, Reason};
use refusals::Refusal;
use tally::Tally;
use tallycheck::Tallied;

// Bytes of the report buffer, of which a check is lent the first ones.
const BUFFER: usize = 200;

// What the buffer is filled with before each check: no report has this byte.
const FILLER: u8 = 7;

// One byte more than a text may have.
const LONG: usize = 65537;

// Counts of a tally that are printed in a line.
const LINE: usize = 4 * COUNT_KINDS;

// What stands behind the count at a place: a line feed, two spaces behind a caller's last count, or one.
fn gap(place: usize) -> &'static str {
    if place % LINE == LINE - 1 {
        "\n"
    } else if place % COUNT_KINDS == COUNT_KINDS - 1 {
        "  "
    } else {
        " "
    }
}

// Prints all counts, four callers in a line. What cannot be written is lost here and below, and the checks go on.
fn say_counts(rt: &impl Print, tally: &Tally) {
    for (place, count) in tally.counts.iter().enumerate() {
        let _ = print!(rt; "{count}{}", gap(place));
    }
}

// Prints the report's length, or the refusal.
fn say_answer(rt: &impl Print, written: Result<usize, Reason>) {
    let _ = match written {
        Ok(n) => print!(rt; "report of {n} bytes"),
        Err(reason) => {
            let Refusal { number, table, row } = Refusal::from(reason);
            print!(rt; "refusal {number} {table} {row}")
        }
    };
}

// How many bytes of the buffer are not what it was filled with.
fn changed(buffer: &[u8]) -> usize {
    buffer.iter().filter(|byte| **byte != FILLER).count()
}

// Checks a text for a caller with as many of the first bytes of the buffer lent for the report as are asked for, at most all.
fn check_into(text: &[u8], buffer: &mut [u8], room: usize, tally: Tally, caller: i64) -> Tallied {
    let end = room.min(buffer.len());
    tallycheck::tally_check(text, &mut buffer[..end], tally, caller)
}

// The same with a buffer that is filled before the check. Prints what came of it and hands the tally on.
fn try_check(rt: &impl Print, text: &[u8], room: usize, tally: Tally, caller: i64) -> Tally {
    let mut buffer = [FILLER; BUFFER];
    let tallied = check_into(text, &mut buffer, room, tally, caller);
    let _ = print!(rt; "caller {caller}: ");
    say_answer(rt, tallied.written);
    let _ = println!(rt; ", {} bytes of the buffer changed", changed(&buffer));
    say_counts(rt, &tallied.tally);
    tallied.tally
}

// The map P2, which is equal.
fn try_equal(rt: &impl Print, tally: Tally, caller: i64) -> Tally {
    try_check(
        rt,
        b"side kind base range unit\n0 0 0 4096 8\n0 2 256 64 8\n1 0 0 4096 8\n1 0 0 32 32\n1 2 0 16 32\n\nside from to offset\n0 0 1 0\n1 0 1 64\n1 1 2 0\n\nrole spec impl\n0 0 0\n1 1 2\n",
        BUFFER,
        tally,
        caller,
    )
}

// The map P1, which is partial.
fn try_partial(rt: &impl Print, room: usize, tally: Tally, caller: i64) -> Tally {
    try_check(
        rt,
        b"side kind base range unit\n0 0 0 4096 8\n0 2 256 64 8\n1 0 0 4096 8\n1 0 0 12 32\n1 2 0 16 32\n\nside from to offset\n0 0 1 0\n1 0 1 64\n1 1 2 0\n\nrole spec impl\n0 0 0\n1 1 2\n",
        room,
        tally,
        caller,
    )
}

// The map P3, which is different.
fn try_different(rt: &impl Print, tally: Tally, caller: i64) -> Tally {
    try_check(
        rt,
        b"side kind base range unit\n0 0 0 4096 8\n0 2 256 64 8\n1 0 0 4096 8\n1 0 0 32 32\n1 2 0 16 32\n\nside from to offset\n0 0 1 0\n1 0 1 64\n1 1 2 -8\n\nrole spec impl\n0 0 0\n1 1 2\n",
        BUFFER,
        tally,
        caller,
    )
}

// A text of no byte, which is refused.
fn try_empty(rt: &impl Print, room: usize, tally: Tally, caller: i64) -> Tally {
    try_check(rt, b"", room, tally, caller)
}

// A text that is too long.
fn try_long(rt: &impl Print, tally: Tally, caller: i64) -> Tally {
    let text = [b'\n'; LONG];
    try_check(rt, &text, BUFFER, tally, caller)
}

// Checks of callers 0, 7 and 15, with two of numbers outside 0..15 between them.
fn try_callers(rt: &impl Print, tally: Tally) -> Tally {
    let t = try_equal(rt, tally, 0);
    let t = try_partial(rt, BUFFER, t, 15);
    let t = try_different(rt, t, 7);
    let t = try_partial(rt, 124, t, 0);
    let t = try_partial(rt, 123, t, 7);
    let t = try_different(rt, t, 0);
    let t = try_empty(rt, BUFFER, t, 15);
    let t = try_equal(rt, t, 16);
    let t = try_equal(rt, t, -1);
    try_empty(rt, 0, t, 0)
}

// Numbers outside 0..15, with texts that a caller is refused for; then callers again.
fn try_numbers(rt: &impl Print, tally: Tally) -> Tally {
    let t = try_empty(rt, 0, tally, 16);
    let t = try_long(rt, t, 16);
    let t = try_long(rt, t, 1);
    let t = try_equal(rt, t, 4294967296);
    let t = try_equal(rt, t, -9223372036854775807 - 1);
    let t = try_equal(rt, t, 9223372036854775807);
    let t = try_equal(rt, t, 15);
    let t = try_equal(rt, t, 7);
    try_equal(rt, t, 0)
}

// A tally in which caller 3 has one less than the ceiling, the ceiling, the highest number that a count can hold, and 0.
fn at_the_ceiling() -> Tally {
    let mut tally = tally::fresh_tally();
    tally.counts[12] = 9223372036854775806;
    tally.counts[13] = 9223372036854775807;
    tally.counts[14] = 18446744073709551615;
    tally
}

// Checks of caller 3, and one of 16, with that tally.
fn try_ceiling(rt: &impl Print) {
    let _ = println!(rt; "counts of caller 3 at the ceiling");
    let t = try_equal(rt, at_the_ceiling(), 3);
    let t = try_equal(rt, t, 3);
    let t = try_partial(rt, BUFFER, t, 3);
    let t = try_different(rt, t, 3);
    let t = try_empty(rt, BUFFER, t, 3);
    try_equal(rt, t, 16);
}

fn main(rt: HostRuntime) {
    let _ = println!(rt; "equal partial different refused, four callers a line from caller 0");
    let t = try_callers(&rt, tally::fresh_tally());
    try_numbers(&rt, t);
    try_ceiling(&rt);
}
