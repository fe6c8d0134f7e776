// Guarded numbers: no sum wraps and no divisor is 0, so that no caller has anything to show.
ghost use Rattle.std.specs.Prelude.{◌≡◌, ℕ, ◌-◌, ◌^◌, ◌≤◌, ◌<◌, pos};

// No number of a map here is as far from 0 as this, but for the highest bit at which a bank may begin.
const LIMIT: i64 = 1048576;

// The quotient of two counts, or 0 where the divisor is 0.
pub fn quotient(x: usize, y: usize) -> usize
    ensures { result ≤ x }
{
    x.checked_div(y).unwrap_or(0)
}

// The rest of a division, or 0 where the divisor is 0.
pub fn rest(x: usize, y: usize) -> usize
    ensures { result ≤ y - 1 }
{
    x.checked_rem(y).unwrap_or(0)
}

// A number of a table as a count: 0 where it is negative.
pub fn size(number: i64) -> usize
    ensures { (n : ℕ) → number ≡ pos n → result ≡ n }
{
    usize::try_from(number).unwrap_or(0)
}

// A count as a number of a table: 0 where it is too large for one.
pub fn number(count: usize) -> i64
    ensures { count < 2 ^ 63 → result ≡ pos count }
{
    i64::try_from(count).unwrap_or(0)
}

// x - y as a number of a table.
pub fn difference(x: usize, y: usize) -> i64 {
    number(x).saturating_sub(number(y))
}

// A number of a map, or 0 where it is too far from 0.
fn within(number: i64) -> i64 {
    if -LIMIT < number && number < LIMIT {
        number
    } else {
        0
    }
}

// A number of a map with a count added to it.
pub fn raised(offset: i64, by: usize) -> i64 {
    within(offset.saturating_add(number(by)))
}

// A number of a map with a count taken from it.
pub fn lowered(offset: i64, by: usize) -> i64 {
    within(offset.saturating_sub(number(by)))
}

// Twice a number of a map.
pub fn doubled(offset: i64) -> i64 {
    within(offset.saturating_mul(2))
}
