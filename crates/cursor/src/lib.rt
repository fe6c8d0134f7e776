// The text cursor, by value: it reads the fields of a line one after the other, and a line of values whole.
#![tactic(auto)]

ghost use Rattle.std.specs.Prelude.{◌≡◌, suc, ◌+◌, ◌≤◌, length, drop};
ghost use Rattle.cursor.specs.Parts.{ends_field, first_field, blank_first, value_at, rest_at, line_at};
ghost use Rattle.cursor.specs.Given.{FieldGiven, InText, NumGiven, LineGiven};

// ---- fields

// A place in the text, and its line, counted from 1.
#[derive(Clone, Copy)]
pub struct Cursor {
    pub at: usize,
    pub line: usize,
}

// Whether the byte is a space or a line feed, which end a field.
#[tactic(auto, unfolding(crate::specs::Parts::ends_field))]
fn ends_field(b: u8) -> bool
    ensures { result ≡ ends_field b }
{
    matches!(b, b' ' | b'\n')
}

// Where the field that starts at `at` ends: at a space, a line feed or the end of the text.
pub fn field_end(text: &[u8], at: usize) -> usize
    requires { at ≤ length text.now }
    ensures { result ≡ at + length (first_field (drop at text.now)) }
{
    for end in at..text.len() {
        if ends_field(text[end]) {
            return end;
        }
    }
    text.len()
}

// Whether a space stands at this place.
pub fn is_blank(text: &[u8], at: usize) -> bool
    ensures { result ≡ blank_first (drop at text.now) }
{
    at < text.len() && text[at] == b' '
}

// A field: where it ends, whether another follows it on its line, and the number that it writes.
#[derive(Clone, Copy)]
struct Field {
    end: usize,
    more: bool,
    value: Option<i64>,
}

// The field that starts at `at`.
fn read_field(text: &[u8], at: usize) -> Field
    requires { at ≤ length text.now }
    ensures { FieldGiven text.now at result }
{
    let end = field_end(text, at);
    Field {
        end,
        more: is_blank(text, end),
        value: values::signed_value(&text[at..end]),
    }
}

impl Cursor {
    // The start of a text.
    pub fn start() -> Self
        ensures { (result.at ≡ 0) × (result.line ≡ 1) }
    {
        Cursor { at: 0, line: 1 }
    }

    // The number of the field at the cursor, which must be the last of its line if `last`, and else be followed by another, with the cursor behind it.
    pub fn value(self, text: &[u8], last: bool) -> Option<(i64, Cursor)>
        requires { InText text.now self }
        ensures { NumGiven text.now (value_at last (drop self.at text.now)) (rest_at last (drop self.at text.now)) (line_at last self.line) result }
    {
        let field = read_field(text, self.at);
        if field.more == last {
            return None;
        }
        Some((
            field.value?,
            Cursor {
                at: past(text, field.end),
                line: if last { self.line + 1 } else { self.line },
            },
        ))
    }
}

// The place behind the space or line feed at `end`, or the end of the text.
pub fn past(text: &[u8], end: usize) -> usize
    requires { end ≤ length text.now }
    ensures { (result ≤ length text.now) × (drop result text.now ≡ drop (end + 1) text.now) }
{
    text.len().min(end + 1)
}

// ---- value lines

// Reads a line of `width` values into the front of `row`, of which the rest stays.
pub fn read_line(text: &[u8], from: Cursor, width: usize, row: &mut [i64]) -> Option<Cursor>
    requires { InText text.now from × (1 ≤ width) × (width ≤ length row.old) }
    ensures line { LineGiven text.now from width row.new result }
    ensures rest { drop width row.new ≡ drop width row.old }
{
    let mut c = from;
    for i in 0..width {
        let (v, next) = c.value(text, i + 1 == width)?;
        row[i] = v;
        c = next;
    }
    Some(c)
}
