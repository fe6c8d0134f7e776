// The generator of draws.
ghost use Rattle.std.specs.Prelude.{◌-◌, ◌≤◌, ◌<◌, length};

use crate::numbers::rest;

// The numbers of the generator.
const FACTOR: usize = 1103515245;

const STEP: usize = 12345;

const MODULUS: usize = 2147483648;

// What of a number of the generator is dropped: its low bits repeat soon.
const DROPPED: usize = 65536;

// A row of draws, by the number that the last of them left.
#[derive(Drop)]
pub struct Draws {
    last: usize,
}

impl Draws {
    // The draws that follow from a seed.
    pub fn new(seed: usize) -> Draws {
        Draws { last: seed }
    }

    // The next draw: a count below `limit`, or 0 where the limit is 0.
    pub fn below(&mut self, limit: usize) -> usize
        ensures { result ≤ limit - 1 }
    {
        self.last = (self.last % MODULUS * FACTOR + STEP) % MODULUS;
        rest(self.last / DROPPED, limit)
    }

    // Whether the next draw of so many is the first.
    pub fn one_in(&mut self, limit: usize) -> bool {
        self.below(limit) == 0
    }

    // One of some choices, by the next draw.
    pub fn pick<T: Copy>(&mut self, choices: &[T]) -> T
        requires { 0 < length choices.now }
    {
        choices[self.below(choices.len())]
    }
}
