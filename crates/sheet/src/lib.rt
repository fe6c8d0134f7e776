// The reader of global address sheets: a text gives the two tables of the specification graph, or a refusal.
#![tactic(auto)]

ghost use Rattle.sheet.specs.Promises.{SheetPromise};

use model::{Reason, SHEET_NUMBERS, SheetSizes};
use sheetlines::LINE_ROOM;

// Reads a sheet into a node table and an edge table, each at the front of its buffer: how many numbers they have, or the refusal, on which both buffers are
// untouched.
pub fn read_sheet(text: &[u8], nodes: &mut [i64], edges: &mut [i64]) -> Result<SheetSizes, Reason>
    ensures { SheetPromise text.now nodes.old nodes.new edges.old edges.new result }
{
    characters::check_text(text)?;
    let mut lines = [0i64; LINE_ROOM];
    let mut sizes = [0i64; SHEET_NUMBERS];
    let n = sheetlines::read_lines(text, &mut lines, &mut sizes)?;
    sheettables::make_tables(&lines[..n], &sizes, nodes, edges)
}
