// Names lines: how many fields a line has, and the columns of names among them.
#![tactic(auto)]

ghost use Rattle.std.specs.Prelude.{◌≡◌, suc, ◌+◌, ◌≤◌, length, drop, map};
ghost use Rattle.cursor.specs.Parts.{later_lines};
ghost use Rattle.cursor.specs.Given.{InText, Stands};
ghost use Rattle.columns.specs.Given.{max_names, line_fields, table_with, ColumnGiven, NoName, Seeking, NameGiven, NamesGiven, NamesLineGiven};

use cursor::Cursor;

// Names of a table at most, optional ones among them.
pub const MAX_NAMES: usize = 6;

// The columns of a table's names, in their order, in a names line with so many fields, of which so many are names.
#[derive(Clone, Copy)]
pub struct Columns {
    pub fields: usize,
    pub named: usize,
    pub count: usize,
    pub at: [usize; MAX_NAMES],
}

// A names line: how many fields it has, and the cursor behind it.
#[derive(Clone, Copy)]
pub struct Heading {
    pub fields: usize,
    pub next: Cursor,
}

// Counts the fields of the line that starts at the cursor.
pub fn count_fields(text: &[u8], from: Cursor) -> Heading
    requires { InText text.now from }
    ensures fields { result.fields ≡ length (line_fields text.now from.at) }
    ensures next { Stands text.now (later_lines (drop from.at text.now)) (suc from.line) result.next }
{
    let mut fields: usize = 1;
    let mut end = cursor::field_end(text, from.at);
    while cursor::is_blank(text, end) {
        fields += 1;
        end = cursor::field_end(text, end + 1);
    }
    Heading {
        fields,
        next: Cursor {
            at: cursor::past(text, end),
            line: from.line + 1,
        },
    }
}

// The column of a name among the fields of the line that starts at `from`, which has so many.
fn column_of(text: &[u8], from: usize, fields: usize, name: &[u8]) -> Option<usize>
    requires { (from ≤ length text.now) × (fields ≡ length (line_fields text.now from)) }
    ensures { ColumnGiven name.now (line_fields text.now from) result }
{
    let mut at = from;
    for i in 0..fields {
        let end = cursor::field_end(text, at);
        if name == &text[at..end] {
            return Some(i);
        }
        at = end + 1;
    }
    None
}

impl Columns {
    // No column yet, in a names line with so many fields.
    pub fn none(fields: usize) -> Self
        ensures { NoName fields result }
    {
        Columns {
            fields,
            named: 0,
            count: 0,
            at: [0; MAX_NAMES],
        }
    }
}

// The columns with that of one name more.
pub fn with_name(cs: Columns, text: &[u8], from: usize, name: &[u8]) -> Columns
    requires { Seeking text.now from 1 cs }
    ensures { NameGiven name.now (line_fields text.now from) cs result }
{
    let mut next = cs;
    next.count += 1;
    match column_of(text, from, cs.fields, name) {
        Some(column) => {
            next.at[cs.count] = column;
            next.named += 1;
        }
        None => next.at[cs.count] = cs.fields,
    }
    next
}

// The columns with those of more names.
fn with_names(cs: Columns, text: &[u8], from: usize, names: &[&[u8]]) -> Columns
    requires { Seeking text.now from (length names.now) cs }
    ensures { NamesGiven (map (λ n. n.now) names.now) (line_fields text.now from) cs result }
{
    let mut next = cs;
    for name in names {
        next = with_name(next, text, from, name);
    }
    next
}

// Reads the names line at the cursor: the columns of the names, which it must have, and of those that it may have, with the cursor behind the line. None
// where the line lacks a name that it must have, or has a field that is no name or is one that stands there twice.
pub fn read_names(
    text: &[u8],
    from: Cursor,
    names: &[&[u8]],
    optional: &[&[u8]],
) -> Option<(Columns, Cursor)>
    requires cursor { InText text.now from }
    requires few { length names.now + length optional.now ≤ max_names }
    ensures { NamesLineGiven (table_with (map (λ n. n.now) names.now) (map (λ n. n.now) optional.now)) text.now from result }
{
    let heading = count_fields(text, from);
    let cs = with_names(Columns::none(heading.fields), text, from.at, names);
    if cs.named < names.len() {
        return None;
    }
    let cs = with_names(cs, text, from.at, optional);
    if cs.fields != cs.named {
        return None;
    }
    Some((cs, heading.next))
}
