// The rows that one record of a list gives for a batch of addresses: how many they are, and their numbers in the front of a lent buffer.
#![tactic(auto)]

ghost use Rattle.std.specs.Prelude.{◌≡◌, ◌+◌, ◌*◌, ◌≤◌, ◌<◌, pos, ◌-ℤ◌, length, set};
ghost use Rattle.model.specs.Limits.{max_batch, batch_width};
ghost use Rattle.model.specs.Quantities.{Movable};
ghost use Rattle.model.specs.Verdicts.{has_bit};
ghost use Rattle.batches.specs.Batch.{rows_in};
ghost use Rattle.batches.specs.Buffers.{rows_over};
ghost use Rattle.verdicts.specs.Records.{as_record};
ghost use Rattle.batchrows.specs.LeafBits.{LeafBitsFit};

use model::{BATCH_WIDTH, Bits};
use verdicts::Record;

// Whether the record has a root bit.
fn has_bit(s: Record, address: i64) -> bool
    ensures { result ≡ has_bit address (as_record s) }
{
    (s.first..=s.last).contains(&address)
}

// The leaf bit of a root bit that the record has.
fn leaf_bit(s: Record, address: i64) -> Bits
    requires { Movable address s.displacement }
    ensures { result.0 ≡ address -ℤ s.displacement }
{
    Bits::of(address).less(Bits::of(s.displacement))
}

// How many rows the record gives: the addresses that it has.
pub fn count_rows(s: Record, addresses: &[i64]) -> usize
    ensures { result ≡ length (rows_in (as_record s) 0 addresses.now) }
{
    // No filter with count: a batch of addresses in no order then takes more than twice the time.
    let mut rows = 0;
    for &address in addresses {
        if has_bit(s, address) {
            rows += 1;
        }
    }
    rows
}

// Writes a row behind the first n rows of the buffer.
fn put_row(out: &mut [i64], n: usize, place: usize, bit: Bits)
    requires { (batch_width * n + batch_width ≤ length out.old) × (place < max_batch) }
    ensures { out.new ≡ set (set out.old (batch_width * n) (pos place)) (batch_width * n + 1) bit.0 }
{
    out[BATCH_WIDTH * n] = place as i64;
    out[BATCH_WIDTH * n + 1] = bit.0;
}

// Writes the rows that the record gives to the front of the buffer, by place.
pub fn put_rows(s: Record, addresses: &[i64], out: &mut [i64])
    requires { LeafBitsFit (as_record s) × (length addresses.now ≤ max_batch)
        × (batch_width * length (rows_in (as_record s) 0 addresses.now) ≤ length out.old) }
    ensures { out.new ≡ rows_over (rows_in (as_record s) 0 addresses.now) out.old }
{
    let mut rows = 0;
    for (place, address) in addresses.iter().enumerate() {
        if has_bit(s, *address) {
            put_row(out, rows, place, leaf_bit(s, *address));
            rows += 1;
        }
    }
}
