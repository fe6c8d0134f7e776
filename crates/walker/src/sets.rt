// The verdict on a pair, by what each side reaches: root bits with their leaf bits, and no records.
use crate::walks::{ROOT_BITS, Reached, bits_of};
use model::Verdict;

// Whether nothing is reached.
pub(crate) fn is_empty(reached: &Reached) -> bool {
    reached.iter().all(|slots| bits_of(slots).is_empty())
}

// Whether everything in the implementation's set is in the specification's.
fn all_within(spec: &Reached, other: &Reached) -> bool {
    spec.iter().zip(other.iter()).all(|(wanted, slots)| bits_of(slots)
        .iter()
        .all(|bit| wanted.contains(bit)))
}

// The verdict on the reached sets of a pair.
pub(crate) fn verdict(spec: &Reached, other: &Reached) -> Verdict {
    if spec == other {
        Verdict::Equal
    } else if !is_empty(other) && all_within(spec, other) {
        Verdict::Partial
    } else {
        Verdict::Different
    }
}

// The lowest root bit at which two reached sets differ, or the number of root bits.
pub(crate) fn first_difference(spec: &Reached, other: &Reached) -> usize {
    spec.iter()
        .zip(other.iter())
        .position(|(wanted, slots)| wanted != slots)
        .unwrap_or(ROOT_BITS)
}
