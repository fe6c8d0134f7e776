// The reader of map files: a text gives the two graphs and the pairing as six tables, or refusal 12, 13 or 14 with its line.
#![tactic(auto)]

ghost use Rattle.std.specs.Prelude.{◌≡◌, ◌≤◌, length, drop, map};
ghost use Rattle.model.specs.MapFile.{lines};
ghost use Rattle.model.specs.Reader.{check_side_or_role, read_table};
ghost use Rattle.cursor.specs.Given.{InText};
ghost use Rattle.sides.specs.Given.{RowsGiven};
ghost use Rattle.mapfile.specs.Given.{table_of, room_of, is_last, lent, Lent, ReadGiven};

use cursor::Cursor;
use model::{EDGE_WIDTH, MAX_EDGES, MAX_NODES, MAX_PAIRS, NODE_WIDTH, PAIR_WIDTH, Reason};
use sides::Counts;

// Numbers that are kept of each table at most: those of one row more than its limit.
pub const NODE_ROOM: usize = NODE_WIDTH * (MAX_NODES + 1);

pub const EDGE_ROOM: usize = EDGE_WIDTH * (MAX_EDGES + 1);

pub const PAIR_ROOM: usize = PAIR_WIDTH * (MAX_PAIRS + 1);

// ---- tables

// The tables of a map file, in their order.
#[derive(Clone, Copy)]
enum FileTable {
    Nodes,
    Edges,
    Pairs,
}

impl FileTable {
    // The names that a names line of the table must have.
    #[tactic(auto, unfolding(model::specs::Bytes::bytes, model::specs::MapFile::node_table, model::specs::MapFile::edge_table, model::specs::MapFile::pair_table))]
    fn names(self) -> &'static [&'static [u8]]
        ensures { map (λ n. n.now) result.now ≡ (table_of self).names }
    {
        match self {
            FileTable::Nodes => &[b"side", b"kind", b"base", b"range", b"unit"],
            FileTable::Edges => &[b"side", b"from", b"to", b"offset"],
            FileTable::Pairs => &[b"role", b"spec", b"impl"],
        }
    }

    // The names that it may have.
    #[tactic(auto, unfolding(model::specs::Bytes::bytes, model::specs::MapFile::node_table, model::specs::MapFile::edge_table, model::specs::MapFile::pair_table))]
    fn optional(self) -> &'static [&'static [u8]]
        ensures { map (λ n. n.now) result.now ≡ (table_of self).optional }
    {
        match self {
            FileTable::Nodes => &[b"access"],
            FileTable::Edges => &[],
            FileTable::Pairs => &[b"at"],
        }
    }

    // Whether no table follows this one.
    fn is_last(self) -> bool
        ensures { result ≡ is_last self }
    {
        matches!(self, FileTable::Pairs)
    }

    // How many numbers of one side or role are kept of the table.
    fn room(self) -> usize
        ensures { result ≡ room_of self }
    {
        match self {
            FileTable::Nodes => NODE_ROOM,
            FileTable::Edges => EDGE_ROOM,
            FileTable::Pairs => PAIR_ROOM,
        }
    }
}

// Reads a table from its names line on.
fn read_table(
    table: FileTable,
    text: &[u8],
    from: Cursor,
    first: &mut [i64],
    second: &mut [i64],
) -> Result<(Cursor, Counts), Reason>
    requires { InText text.now from × (room_of table ≤ length first.old) × (room_of table ≤ length second.old) }
    ensures { RowsGiven (read_table (is_last table) check_side_or_role (table_of table) from.line (lines (drop from.at text.now))) text.now (room_of table) first.old first.new second.old second.new result }
{
    let Some((cs, next)) = columns::read_names(text, from, table.names(), table.optional()) else {
        return Err(Reason::Names { line: from.line });
    };
    sides::read_rows(text, next, cs, table.is_last(), table.room(), first, second)
}

// ---- the map file

// How many numbers each of the six tables has.
#[derive(Clone, Copy)]
pub struct Sizes {
    pub spec_nodes: usize,
    pub spec_edges: usize,
    pub impl_nodes: usize,
    pub impl_edges: usize,
    pub root_pairs: usize,
    pub leaf_pairs: usize,
}

// Reads a map file into six tables. The whole text is judged; of a table no more rows are kept than one beyond its limit. What stands in the slices
// behind the tables, and on a refusal, is space that was worked in.
pub fn read_map(
    text: &[u8],
    spec_nodes: &mut [i64],
    spec_edges: &mut [i64],
    impl_nodes: &mut [i64],
    impl_edges: &mut [i64],
    root_pairs: &mut [i64],
    leaf_pairs: &mut [i64],
) -> Result<Sizes, Reason>
    requires { Lent (lent spec_nodes.old spec_edges.old impl_nodes.old impl_edges.old root_pairs.old leaf_pairs.old) }
    ensures { ReadGiven text.now (lent spec_nodes.old spec_edges.old impl_nodes.old impl_edges.old root_pairs.old leaf_pairs.old) (lent spec_nodes.new spec_edges.new impl_nodes.new impl_edges.new root_pairs.new leaf_pairs.new) result }
{
    characters::check_text(text)?;
    let (edges_at, nodes) = read_table(
        FileTable::Nodes,
        text,
        Cursor::start(),
        spec_nodes,
        impl_nodes,
    )?;
    let (pairs_at, edges) = read_table(FileTable::Edges, text, edges_at, spec_edges, impl_edges)?;
    let (_, pairs) = read_table(FileTable::Pairs, text, pairs_at, root_pairs, leaf_pairs)?;
    Ok(Sizes {
        spec_nodes: nodes.first,
        spec_edges: edges.first,
        impl_nodes: nodes.second,
        impl_edges: edges.second,
        root_pairs: pairs.first,
        leaf_pairs: pairs.second,
    })
}
