// What every function answers: a value, or why it is refused. Document 01 has a number for each.
#![tactic(auto)]

ghost use Rattle.std.specs.Prelude.{◌≡◌};
ghost use Rattle.answers.specs.Refusals.{number_of, told, progress};

use std::convert::From;

// Why a call is refused, with document 01's numbers.
#[derive(Clone, Copy, Debug, PartialEq, Eq)]
pub enum Refusal {
    // n, bw, W or a slice length breaks the page rules
    BadPage = 2,
    // no such worker
    NoWorker = 3,
    // no such operation, block, extent, tag or address
    NoSuch = 4,
    // an operation is under way
    Busy = 5,
    // no operation is under way
    Idle = 6,
    // T is off, or on already
    Switched = 7,
    // got, or T at switching off, is not empty
    NotEmpty = 8,
    // a named block's bit is set
    Listed = 9,
    // own is empty, or no block is unlisted
    NoneLeft = 10,
    // damaged
    Damaged = 11,
}

// The number of an operation that is done, for C and for the words of a run.
pub const DONE: u64 = 0;

// The number of one that is under way, for the same.
pub const UNDER_WAY: u64 = 1;

// Number and value, as C and the words of a run of events are handed them.
#[repr(C)]
#[derive(Clone, Copy, Debug, PartialEq, Eq)]
pub struct Answer {
    pub number: u64,
    pub value: u64,
}

impl From<Refusal> for u64 {
    ghost from_gives = { λ e n. n ≡ number_of e };

    fn from(e: Refusal) -> u64 {
        e as u64
    }
}

// A value is what is done; none, that it is under way.
impl From<Result<Option<u64>, Refusal>> for Answer {
    ghost from_gives = { λ r a. a ≡ progress r };

    fn from(r: Result<Option<u64>, Refusal>) -> Answer {
        match r {
            Ok(Some(value)) => Answer {
                number: DONE,
                value,
            },
            Ok(None) => Answer {
                number: UNDER_WAY,
                value: 0,
            },
            Err(e) => Answer {
                number: u64::from(e),
                value: 0,
            },
        }
    }
}

impl From<Result<u64, Refusal>> for Answer {
    ghost from_gives = { λ r a. a ≡ told r };

    fn from(r: Result<u64, Refusal>) -> Answer {
        Answer::from(r.map(Some))
    }
}
