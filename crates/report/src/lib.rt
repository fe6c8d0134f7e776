// Report lines, byte for byte. A writer puts its line at the front of the buffer that it is lent and returns the line's length.
#![tactic(auto)]

ghost use Rattle.std.specs.Prelude.{◌≡◌, ◌≤◌, ◌<◌, ◌^◌, nat_abs, length};
ghost use Rattle.model.specs.Answers.{numbered};
ghost use Rattle.model.specs.Bytes.{bytes, digits, shown};
ghost use Rattle.model.specs.Report.{line_of, refusal_report};
ghost use Rattle.report.specs.Put.{Put, field_at, max_fields, refusal_room};

// A number of 64 bits has at most this many digits.
const NUMBER_DIGITS: usize = 20;

// The distance of v from 0.
pub fn magnitude(v: i64) -> u64
    ensures { result ≡ nat_abs v }
{
    v.unsigned_abs()
}

// Writes the decimal digits of v, which has at most `left`: first those of its tenth.
fn put_digits(out: &mut [u8], v: u64, left: usize) -> usize
    requires { length (digits left v) ≤ length out.old }
    ensures { Put (digits left v) out.old out.new result }
{
    if left == 0 {
        return 0;
    }
    if v < 10 {
        out[0] = b'0' + v as u8;
        return 1;
    }
    let n = put_digits(out, v / 10, left - 1);
    out[n] = b'0' + (v % 10) as u8;
    n + 1
}

// The number of decimal digits of v, which has at most `left`.
fn digits_length(v: u64, left: usize) -> usize
    ensures { result ≡ length (digits left v) }
{
    if left == 0 {
        0
    } else if v < 10 {
        1
    } else {
        digits_length(v / 10, left - 1) + 1
    }
}

// Writes a number in decimal.
pub fn put_number(out: &mut [u8], v: i64) -> usize
    requires { length (shown v) ≤ length out.old }
    ensures { Put (shown v) out.old out.new result }
{
    let m = magnitude(v);
    if v < 0 {
        out[0] = b'-';
        return 1 + put_digits(&mut out[1..], m, NUMBER_DIGITS);
    }
    put_digits(out, m, NUMBER_DIGITS)
}

// The length of a number in decimal.
pub fn number_length(v: i64) -> usize
    ensures { result ≡ length (shown v) }
{
    let n = digits_length(magnitude(v), NUMBER_DIGITS);
    if v < 0 { n + 1 } else { n }
}

// Writes the bytes of a text.
pub fn put_text(out: &mut [u8], text: &[u8]) -> usize
    requires { length text.now ≤ length out.old }
    ensures { Put text.now out.old out.new result }
{
    out[..text.len()].copy_from_slice(text);
    text.len()
}

// Writes the number at a place of a line, with a space before it unless it is the first.
fn put_field(out: &mut [u8], v: i64, place: usize) -> usize
    requires { length (field_at place v) ≤ length out.old }
    ensures { Put (field_at place v) out.old out.new result }
{
    if place == 0 {
        return put_number(out, v);
    }
    out[0] = b' ';
    1 + put_number(&mut out[1..], v)
}

// The length of the number at a place of a line, with the space before it.
fn field_length(v: i64, place: usize) -> usize
    ensures { result ≡ length (field_at place v) }
{
    let n = number_length(v);
    if place == 0 { n } else { n + 1 }
}

// Writes a line of numbers: one space between them and a line feed. Each goes into what remains of the buffer.
pub fn put_numbers(out: &mut [u8], vs: &[i64]) -> usize
    requires { length (line_of vs.now) ≤ length out.old }
    ensures { Put (line_of vs.now) out.old out.new result }
{
    let mut at = 0;
    for (i, v) in vs.iter().enumerate() {
        at += put_field(&mut out[at..], *v, i);
    }
    out[at] = b'\n';
    at + 1
}

// The length of a line of numbers.
pub fn numbers_length(vs: &[i64]) -> usize
    requires { length vs.now ≤ max_fields }
    ensures { result ≡ length (line_of vs.now) }
{
    let mut n = 0;
    for (i, v) in vs.iter().enumerate() {
        n += field_length(*v, i);
    }
    n + 1
}

// Writes the line of names above the pairs.
pub fn put_heading(out: &mut [u8]) -> usize
    requires { length (bytes "root leaf verdict rspec rimpl wspec wimpl\n") ≤ length out.old }
    ensures { Put (bytes "root leaf verdict rspec rimpl wspec wimpl\n") out.old out.new result }
{
    put_text(out, b"root leaf verdict rspec rimpl wspec wimpl\n")
}

// Writes the empty line below the pairs and the line of names above the result.
pub fn put_middle(out: &mut [u8]) -> usize
    requires { length (bytes "\nverdict equal partial different root leaf address\n") ≤ length out.old }
    ensures { Put (bytes "\nverdict equal partial different root leaf address\n") out.old out.new result }
{
    put_text(
        out,
        b"\nverdict equal partial different root leaf address\n",
    )
}

// Writes the line of names above a refusal.
pub fn put_refusal_heading(out: &mut [u8]) -> usize
    requires { length (bytes "refusal table row\n") ≤ length out.old }
    ensures { Put (bytes "refusal table row\n") out.old out.new result }
{
    put_text(out, b"refusal table row\n")
}

// Writes what is printed for a refusal: the names and, into what remains of the buffer, its number, table and row.
pub fn put_refusal(out: &mut [u8], number: usize, table: usize, row: usize) -> usize
    requires { (refusal_room ≤ length out.old) × (number < 2 ^ 32) × (table < 2 ^ 32) × (row < 2 ^ 32) }
    ensures { Put (refusal_report (numbered number table row)) out.old out.new result }
{
    let at = put_refusal_heading(out);
    let line = [number as i64, table as i64, row as i64];
    at + put_numbers(&mut out[at..], &line)
}
