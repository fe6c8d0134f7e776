// The lines of a sheet, read and judged: what is kept of them for the two tables, or refusal 13, 14, 17 or 18 with its line.
#![tactic(auto)]

ghost use Rattle.std.specs.Prelude.{◌≡◌, true, [], ◌≤◌, ◌<◌, length, drop};
ghost use Rattle.model.specs.Limits.{sheet_numbers};
ghost use Rattle.model.specs.MapFile.{lines};
ghost use Rattle.model.specs.Reader.{read_values, read_table};
ghost use Rattle.model.specs.SheetFile.{sheet_table, check_sheet_row, line_of_row, is_sheet_number, good_bytes, good_line};
ghost use Rattle.cursor.specs.Given.{InText};
ghost use Rattle.columns.specs.Given.{column_list, layout_in, GoodColumns};
ghost use Rattle.sides.specs.Given.{row_room, Clear, numbers_at, Appended};
ghost use Rattle.sheettables.specs.Kept.{line_numbers, line_room, Sized};
ghost use Rattle.sheetlines.specs.Given.{line_in, is_other, ValueGiven, LinesGiven};

use columns::Columns;
use cursor::Cursor;
use model::{EDGE_WIDTH, MAX_EDGES, Reason, SHEET_BYTES, SHEET_NUMBERS};
use sides::ROW_ROOM;

// Numbers that are kept of the lines at most: those of one line more than a graph may have edges.
pub const LINE_ROOM: usize = EDGE_WIDTH * (MAX_EDGES + 1);

// The names of a sheet, in the order of the numbers of a line.
const NAMES: [&[u8]; 4] = [b"initiator", b"block", b"base", b"size"];

// A line of a sheet.
#[derive(Clone, Copy)]
struct SheetRow {
    initiator: i64,
    block: i64,
    base: i64,
    size: i64,
}

// ---- 17 and 18

// Whether a number is one of an initiator or a block: 0..999.
#[tactic(auto, unfolding(model::specs::SheetFile::is_sheet_number))]
fn is_number(n: i64) -> bool
    ensures { result ≡ is_sheet_number n }
{
    (0..SHEET_NUMBERS as i64).contains(&n)
}

// Whether base and size of a line keep their limits. Each is held to 2^48 before they are added: the sum of two numbers that are not might not fit.
#[tactic(auto, unfolding(model::specs::SheetFile::good_bytes))]
fn good_bytes(s: SheetRow) -> bool
    ensures { result ≡ good_bytes (line_in s) }
{
    (0..=SHEET_BYTES).contains(&s.base)
        && (1..=SHEET_BYTES).contains(&s.size)
        && s.base + s.size <= SHEET_BYTES
}

// Whether 17 is not for the line.
#[tactic(auto, unfolding(model::specs::SheetFile::good_line))]
fn good_line(s: SheetRow) -> bool
    ensures { result ≡ good_line (line_in s) }
{
    is_number(s.initiator) && is_number(s.block) && good_bytes(s)
}

// Whether an earlier line gave the block a size, and another one; 0 is none.
fn is_other(known: i64, size: i64) -> bool
    ensures { result ≡ is_other known size }
{
    known != 0 && known != size
}

// ---- value lines

// The line of the sheet at these columns of a row.
fn line_of(row: &[i64], cs: Columns) -> SheetRow
    requires { GoodColumns cs × (row_room ≤ length row.now) × (cs.count ≡ 4) }
    ensures { line_in result ≡ line_of_row (numbers_at (column_list cs) row.now) }
{
    SheetRow {
        initiator: row[cs.at[0]],
        block: row[cs.at[1]],
        base: row[cs.at[2]],
        size: row[cs.at[3]],
    }
}

// Reads a value line and judges it: 14, then 17, then 18 by the sizes of the blocks so far.
fn read_value(
    text: &[u8],
    from: Cursor,
    cs: Columns,
    row: &mut [i64],
    sizes: &[i64],
) -> Result<(SheetRow, Cursor), Reason>
    requires { InText text.now from × GoodColumns cs × (row_room ≤ length row.old) × Clear cs row.old × (cs.count ≡ 4) × (length sizes.now ≡ sheet_numbers) }
    ensures line { ValueGiven text.now from cs sizes.now result }
    ensures clear { Clear cs row.new }
{
    let Some(next) = cursor::read_line(text, from, cs.fields, row) else {
        return Err(Reason::Values { line: from.line });
    };
    let s = line_of(row, cs);
    if !good_line(s) {
        return Err(Reason::SheetRange { line: from.line });
    }
    if is_other(sizes[s.block as usize], s.size) {
        return Err(Reason::OtherSize { line: from.line });
    }
    Ok((s, next))
}

// Appends what is kept of a line, where the room lasts for it.
fn keep_line(kept: &mut [i64], n: usize, s: SheetRow) -> usize
    requires { (line_room ≤ length kept.old) × (n ≤ line_room) }
    ensures { Appended line_room (line_numbers (line_in s)) kept.old kept.new n result }
{
    if LINE_ROOM - n < EDGE_WIDTH {
        return n;
    }
    kept[n..n + EDGE_WIDTH].copy_from_slice(&[s.initiator, s.block, s.base]);
    n + EDGE_WIDTH
}

// ---- the sheet

// Reads the value lines of a sheet: all lines that are left of the text.
fn read_values(
    text: &[u8],
    from: Cursor,
    cs: Columns,
    kept: &mut [i64],
    sizes: &mut [i64],
) -> Result<usize, Reason>
    requires { InText text.now from × GoodColumns cs × (cs.count ≡ 4) × (line_room ≤ length kept.old) × Sized [] sizes.old }
    ensures { LinesGiven (read_values true check_sheet_row (layout_in cs) from.line [] (lines (drop from.at text.now))) kept.old kept.new sizes.new result }
{
    let mut row = [0i64; ROW_ROOM];
    let mut c = from;
    let mut n: usize = 0;
    // Where the next line starts is known once this one is read, so that no range counts the turns. One loop for this table and those of sides::read_rows
    // would be longer than both: a trait with two structs of lent slices.
    while c.at < text.len() {
        let (s, next) = read_value(text, c, cs, &mut row, sizes)?;
        n = keep_line(kept, n, s);
        sizes[s.block as usize] = s.size;
        c = next;
    }
    Ok(n)
}

// Reads the lines of a sheet, from its names line on. Of more lines than a graph may have edges one is kept beyond them.
pub fn read_lines(text: &[u8], kept: &mut [i64], sizes: &mut [i64]) -> Result<usize, Reason>
    requires { (line_room ≤ length kept.old) × Sized [] sizes.old }
    ensures { LinesGiven (read_table true check_sheet_row sheet_table 1 (lines text.now)) kept.old kept.new sizes.new result }
{
    let from = Cursor::start();
    let Some((cs, next)) = columns::read_names(text, from, &NAMES, &[]) else {
        return Err(Reason::Names { line: from.line });
    };
    read_values(text, next, cs, kept, sizes)
}
