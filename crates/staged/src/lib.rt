// Requests 6 to 12: their start, and one function for each stage of a move, over one worker's record and what the
// workers share. No public function has a requires: each refuses by document 01's numbers, and a refusal changes
// nothing.
#![tactic(auto)]

ghost use Rattle.std.specs.Prelude.{◌≡◌};
ghost use Rattle.operations.specs.Operations.{word_of};

use operations::word_of;

mod damage;
pub mod moves;
mod stages;
pub mod start;

// The sightings of request 11 before the one that ends it.
pub const MAX_SIGHTINGS: u64 = 4;

// The largest tag.
pub const MAX_TAG: u64 = 3;

// What the workers share: the two head words, and whether T is on.
#[derive(Clone, Copy, Debug, PartialEq, Eq)]
pub struct Common {
    pub shared: u64,
    pub tagged: u64,
    pub on: bool,
}

impl Common {
    // The head word of an operation: S or T.
    fn head(&self, operation: u64) -> u64
        ensures { result ≡ word_of operation self.now.shared self.now.tagged }
    {
        word_of(operation, self.shared, self.tagged)
    }
}
