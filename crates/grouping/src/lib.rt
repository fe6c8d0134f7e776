// The groups of leaf pairs, linked once a comparison: the lowest row of each group, and for each leaf row the next row of its group.
#![tactic(auto)]

ghost use Rattle.std.specs.Prelude.{◌≡◌, [], ◌+◌, ◌/◌, ◌<◌, length};
ghost use Rattle.model.specs.Limits.{pair_width};
ghost use Rattle.model.specs.Rows.{pair_rows};
ghost use Rattle.model.specs.Compare.{group};
ghost use Rattle.tables.specs.Tables.{pair_at};
ghost use Rattle.grouping.specs.Links.{next_at, link_room, group_count, group_row, next_row, Linked, Linkable, Passing};
ghost use Rattle.grouping.specs.Passes.{Headed, RowsLinked, lowest_numbers, links_with};
ghost use Rattle.grouping.specs.Totals.{bank_total, Summable};

use model::{MAX_NODES, PAIR_WIDTH};
use pairing::{SPEC_COLUMN, impl_node, pair_node};

// The numbers of the links, and where their parts begin.
pub const LINK_ROOM: usize = 2001;

const NEXT_AT: usize = 1000;

const COUNT_AT: usize = 2000;

// How many groups there are.
pub fn group_count(links: &[usize]) -> usize
    requires { length links.now ≡ link_room }
    ensures { result ≡ group_count links.now }
{
    links[COUNT_AT]
}

// The lowest row of group k.
pub fn group_row(links: &[usize], k: usize) -> usize
    requires { k < length links.now }
    ensures { result ≡ group_row links.now k }
{
    links[k]
}

// The row behind a row in its group, the number of leaf rows where there is none.
pub fn next_row(links: &[usize], row: usize) -> usize
    requires { next_at + row < length links.now }
    ensures { result ≡ next_row links.now row }
{
    links[NEXT_AT + row]
}

// Links the rows of each group, from the last row to the first: head[v] is the lowest row with specification leaf v.
fn link_rows(pairs: &[i64], head: &mut [usize], links: &mut [usize])
    requires { Headed pairs.now (length pairs.now / pair_width) head.old links.old }
    ensures { RowsLinked pairs.now head.new links.new }
{
    for row in (0..pairs.len() / PAIR_WIDTH).rev() {
        let leaf = pair_node(pairs, SPEC_COLUMN, row);
        let next = head[leaf];
        links[NEXT_AT + row] = next;
        head[leaf] = row;
    }
}

// Stores the lowest row of each group in front of the links, and how many groups there are.
fn store_groups(pairs: &[i64], head: &[usize], links: &mut [usize])
    requires { Headed pairs.now 0 head.now links.old }
    ensures { links.new ≡ links_with (lowest_numbers pairs.now) links.old }
{
    let count = pairs.len() / PAIR_WIDTH;
    let mut groups = 0;
    for row in 0..count {
        let v = pair_node(pairs, SPEC_COLUMN, row);
        if head[v] == row {
            links[groups] = row;
            groups += 1;
        }
    }
    links[COUNT_AT] = groups;
}

// Links the groups of the leaf pairs. Two passes over the rows; before them the head of each node is the number of leaf rows, which stands for none. What stands in the links outside their parts is space that was worked in.
pub fn link_banks(pairs: &[i64], links: &mut [usize])
    requires { Linkable pairs.now links.old }
    ensures { Linked pairs.now links.new }
{
    let mut head = [pairs.len() / PAIR_WIDTH; MAX_NODES];
    link_rows(pairs, &mut head, links);
    store_groups(pairs, &head, links);
}

// The counts at the banks of the group of a row, its lowest, together.
pub fn group_total(pairs: &[i64], links: &[usize], lowest: usize, counts: &[usize]) -> usize
    requires { Summable pairs.now links.now counts.now × Passing pairs.now (pair_at pairs.now lowest) [] lowest
        × (lowest < length pairs.now / pair_width) }
    ensures { result ≡ bank_total counts.now (group (pair_rows pairs.now) (pair_at pairs.now lowest)) }
{
    let count = pairs.len() / PAIR_WIDTH;
    let mut total = 0;
    // The next row stands in the links: no range and no slice has the rows of one group.
    let mut bank = lowest;
    while bank < count {
        total += counts[impl_node(pairs, bank)];
        bank = next_row(links, bank);
    }
    total
}
