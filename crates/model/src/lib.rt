// The address map graph model: quantities and answers. The definitions that every contract cites are in specs/.
#![tactic(auto)]

ghost use Rattle.std.specs.Prelude.{◌≡◌, ◌+◌, ◌≤◌, pos, ◌+ℤ◌, ◌-ℤ◌, ◌*ℤ◌};
ghost use Rattle.integers.specs.Integers.{min_z, max_z};
ghost use Rattle.model.specs.Answers.{verdict_number};
ghost use Rattle.model.specs.Quantities.{Addable, Scalable, Movable, Subtractable};

// Numbers of a node row, of an edge row and of a pair row.
pub const NODE_WIDTH: usize = 5;

pub const EDGE_WIDTH: usize = 3;

pub const PAIR_WIDTH: usize = 3;

// Numbers of a record in a list.
pub const RECORD_WIDTH: usize = 3;

// Rows of a table at most.
pub const MAX_NODES: usize = 2000;

pub const MAX_EDGES: usize = 2600;

pub const MAX_PAIRS: usize = 1000;

// Edges of a chain, and paths from a root to a leaf or to the banks of a group together, at most.
pub const MAX_CHAIN: usize = 64;

pub const MAX_PATHS: usize = 1024;

// Numbers of a list at most: RECORD_WIDTH for each of MAX_PATHS records.
pub const MAX_NUMBERS: usize = 3072;

// Addresses of a batch at most, and numbers of a row of its output.
pub const MAX_BATCH: usize = 512;

pub const BATCH_WIDTH: usize = 2;

// Base + range of a node, and the size of an offset, in address units, at most: 2^48.
pub const MAX_UNITS: i64 = 281474976710656;

// The highest leaf bit at which a bank may begin: 2^55 - 1.
pub const LAST_AT: i64 = 36028797018963967;

// Numbers of initiators and of blocks on a sheet lie below this.
pub const SHEET_NUMBERS: usize = 1000;

// Bytes of an initiator's space on a sheet: 2^48.
pub const SHEET_BYTES: i64 = 281474976710656;

// Bits of a byte.
pub const BYTE_BITS: i64 = 8;

// Digits of a value in a text at most.
pub const MAX_DIGITS: usize = 18;

// What a root row counts for in the place of a pair in visiting order: its place is root row × ROOT_STRIDE + lowest leaf row of the group.
pub const ROOT_STRIDE: usize = 1000;

// Callers of a tally, and counts of each: equal, partial, different and refused.
pub const CALLERS: usize = 16;

pub const COUNT_KINDS: usize = 4;

// Tables, by the numbers that refusals give. Numbers and no enum: the clauses of the checks, as of `tables::check_shape`, speak of a table of any number.
pub const SPEC_NODES: usize = 0;

pub const SPEC_EDGES: usize = 1;

pub const IMPL_NODES: usize = 2;

pub const IMPL_EDGES: usize = 3;

pub const ROOT_PAIRS: usize = 4;

pub const LEAF_PAIRS: usize = 5;

pub const TEXT: usize = 6;

pub const OUTPUT: usize = 7;

// Kinds of nodes. Numbers, as a row has them, where any other may stand: `tables::is_kind` tells the three.
pub const SPACE: i64 = 0;

pub const SEGMENT: i64 = 1;

pub const BLOCK: i64 = 2;

// Access of nodes: read and write, read only, write only. Numbers, as a row has them, where any other may stand: `tables::is_access` tells the three.
pub const READ_WRITE: i64 = 0;

pub const READ_ONLY: i64 = 1;

pub const WRITE_ONLY: i64 = 2;

// The kinds of walks: those that read, and those that write.
#[derive(Clone, Copy, PartialEq, Eq)]
pub enum WalkKind {
    Reading,
    Writing,
}

// A count of address units.
#[derive(Clone, Copy, PartialEq, Eq, PartialOrd, Ord)]
pub struct Units(pub i64);

// A bit address, or a difference of two.
#[derive(Clone, Copy, PartialEq, Eq, PartialOrd, Ord)]
pub struct Bits(pub i64);

impl Units {
    // The number of a base, a range or an offset, as it stands in a row.
    pub fn of(number: i64) -> Units
        ensures { result.0 ≡ number }
    {
        Units(number)
    }

    // The sum of a base and a range.
    pub fn plus(self, more: Units) -> Units
        requires { Addable self.0 more.0 }
        ensures { result.0 ≡ self.0 +ℤ more.0 }
    {
        Units(self.0 + more.0)
    }

    // Scaled by the unit of a node: the only way from address units to bits.
    pub fn scaled(self, unit: i64) -> Bits
        requires { Scalable self.0 unit }
        ensures { result.0 ≡ self.0 *ℤ unit }
    {
        Bits(self.0 * unit)
    }
}

impl Bits {
    // A bit address, or a difference of two, as the caller of a walk or a table of bits gives it.
    pub fn of(address: i64) -> Bits
        ensures { result.0 ≡ address }
    {
        Bits(address)
    }

    // The bit address so many bits further up.
    pub fn plus(self, more: Bits) -> Bits
        requires { Addable self.0 more.0 }
        ensures { result.0 ≡ self.0 +ℤ more.0 }
    {
        Bits(self.0 + more.0)
    }

    // The bit address after a walk over an edge with this bit offset.
    pub fn less(self, offset: Bits) -> Bits
        requires { Movable self.0 offset.0 }
        ensures { result.0 ≡ self.0 -ℤ offset.0 }
    {
        Bits(self.0 - offset.0)
    }

    // The difference of two numbers of bits.
    pub fn difference(self, less: Bits) -> Bits
        requires { Subtractable self.0 less.0 }
        ensures { result.0 ≡ self.0 -ℤ less.0 }
    {
        Bits(self.0 - less.0)
    }

    // The bit address before this one.
    pub fn previous(self) -> Bits
        requires { Movable self.0 (pos 1) }
        ensures { result.0 ≡ self.0 -ℤ pos 1 }
    {
        Bits(self.0 - 1)
    }

    // The lower of two bit addresses.
    pub fn lower(self, other: Bits) -> Bits
        ensures { result.0 ≡ min_z self.0 other.0 }
    {
        self.min(other)
    }

    // The higher of two bit addresses.
    pub fn higher(self, other: Bits) -> Bits
        ensures { result.0 ≡ max_z self.0 other.0 }
    {
        self.max(other)
    }
}

// Why a call refuses its input, in the order of the table of refusals. Tables and rows are those of that table.
#[derive(Clone, Copy)]
pub enum Reason {
    Shape { table: usize },
    Node { table: usize, row: usize },
    Edge { table: usize, row: usize },
    FromBlock { table: usize, row: usize },
    Cycle { table: usize },
    LongChain { table: usize },
    NotRootOrLeaf { table: usize, row: usize },
    PairedBefore { table: usize, row: usize },
    NoPair { table: usize },
    ManyPaths { table: usize, row: usize },
    LongOutput,
    Characters { line: usize },
    Names { line: usize },
    Values { line: usize },
    NoCaller,
    At { table: usize, row: usize },
    SheetRange { line: usize },
    OtherSize { line: usize },
    LongBatch,
}

// The verdict on a pair, or on two graphs.
#[derive(Clone, Copy, PartialEq, Eq, PartialOrd, Ord)]
pub enum Verdict {
    Equal,
    Partial,
    Different,
}

// The number of a verdict.
pub fn verdict_number(v: Verdict) -> usize
    ensures { (result ≡ verdict_number v) × (result ≤ 2) }
{
    v as usize
}

// The full result of a comparison. Where the verdict is equal, root, leaf and address are -1.
#[derive(Clone, Copy)]
pub struct Comparison {
    pub equal: usize,
    pub partial: usize,
    pub different: usize,
    pub verdict: Verdict,
    pub root: i64,
    pub leaf: i64,
    pub address: i64,
}

// How many numbers the two tables of a sheet have.
#[derive(Clone, Copy)]
pub struct SheetSizes {
    pub nodes: usize,
    pub edges: usize,
}

// How many rows a batch of addresses gives, and how many records of the list were read for them.
#[derive(Clone, Copy)]
pub struct BatchCounts {
    pub rows: usize,
    pub records: usize,
}
