// The value lines of a table, read as rows: those of side or role 0 go to one slice, those of 1 to another.
#![tactic(auto)]

ghost use Rattle.std.specs.Prelude.{◌≡◌, not, ◌&&◌, [], ◌≤◌, ◌<◌, length, drop};
ghost use Rattle.lists.specs.Lists.{is_nil};
ghost use Rattle.model.specs.MapFile.{lines};
ghost use Rattle.model.specs.Reader.{check_side_or_role, read_values};
ghost use Rattle.cursor.specs.Parts.{first_line};
ghost use Rattle.cursor.specs.Given.{InText};
ghost use Rattle.columns.specs.Given.{layout_in, GoodColumns};
ghost use Rattle.sides.specs.Given.{row_room, Clear, Roomy, row_numbers, RowGiven, Appended, RowsGiven};

use columns::{Columns, MAX_NAMES};
use cursor::Cursor;
use model::Reason;

// Numbers of a row at most, and a place behind them, which no line writes and which stays 0: the value under a name that the names line lacks.
pub const ROW_ROOM: usize = MAX_NAMES + 1;

// The side or role of a row: 0 or 1.
#[derive(Clone, Copy, PartialEq, Eq)]
enum Side {
    First,
    Second,
}

// Reads a value line, of which `row` holds the values afterwards: its side or role, with the cursor before the next line.
fn read_row(text: &[u8], from: Cursor, cs: Columns, row: &mut [i64]) -> Option<(Side, Cursor)>
    requires { InText text.now from × GoodColumns cs × (row_room ≤ length row.old) × Clear cs row.old }
    ensures row { RowGiven text.now from cs row.new result }
    ensures clear { Clear cs row.new }
{
    let next = cursor::read_line(text, from, cs.fields, row)?;
    match row[cs.at[0]] {
        0 => Some((Side::First, next)),
        1 => Some((Side::Second, next)),
        _ => None,
    }
}

// Appends the numbers of a row, in the order of the table's names, behind n numbers of a table, where the room lasts for them.
fn store(table: &mut [i64], n: usize, room: usize, row: &[i64], cs: Columns) -> usize
    requires { (room ≤ length table.old) × (n ≤ room) × GoodColumns cs × (row_room ≤ length row.now) }
    ensures { Appended room (row_numbers cs row.now) table.old table.new n result }
{
    let width = cs.count - 1;
    if room - n < width {
        return n;
    }
    for j in 0..width {
        table[n + j] = row[cs.at[j + 1]];
    }
    n + width
}

// Whether the table ends at this place: the last one ends with the text, another with an empty line.
fn is_table_end(text: &[u8], at: usize, last: bool) -> bool
    requires { at < length text.now }
    ensures { result ≡ (is_nil (first_line (drop at text.now)) && not last) }
{
    !last && text[at] == b'\n'
}

// How many numbers stand in the table of side or role 0, and in that of 1.
#[derive(Clone, Copy)]
pub struct Counts {
    pub first: usize,
    pub second: usize,
}

// Reads the value lines of a table: rows of side or role 0 go to `first`, those of 1 to `second`, as long as the room lasts.
pub fn read_rows(
    text: &[u8],
    from: Cursor,
    cs: Columns,
    last: bool,
    room: usize,
    first: &mut [i64],
    second: &mut [i64],
) -> Result<(Cursor, Counts), Reason>
    requires { InText text.now from × GoodColumns cs × Roomy cs room × (room ≤ length first.old) × (room ≤ length second.old) }
    ensures { RowsGiven (read_values last check_side_or_role (layout_in cs) from.line [] (lines (drop from.at text.now))) text.now room first.old first.new second.old second.new result }
{
    let mut row = [0i64; ROW_ROOM];
    let mut c = from;
    let mut counts = Counts {
        first: 0,
        second: 0,
    };
    // Where the next line starts is known once this one is read, so that no range counts the turns.
    while c.at < text.len() {
        if is_table_end(text, c.at, last) {
            let behind = Cursor {
                at: c.at + 1,
                line: c.line + 1,
            };
            return Ok((behind, counts));
        }
        let Some((side, next)) = read_row(text, c, cs, &mut row) else {
            return Err(Reason::Values { line: c.line });
        };
        match side {
            Side::First => counts.first = store(first, counts.first, room, &row, cs),
            Side::Second => counts.second = store(second, counts.second, room, &row, cs),
        }
        c = next;
    }
    if last {
        Ok((c, counts))
    } else {
        Err(Reason::Names { line: c.line })
    }
}
