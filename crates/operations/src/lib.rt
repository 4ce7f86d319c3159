// The operations by the numbers of their requests, the stages of a move, what is asked of them at a start and at a
// move, and a worker's record. No public function has a requires: operations and stages are numbers, not enums, since a
// request and a record may hold any number, and each test has an answer for it.
#![tactic(auto)]

ghost use Rattle.std.specs.Prelude.{◌≡◌};
ghost use Rattle.operations.specs.Operations.{staged_b, pushes_b, takes_b, on_shared_b, on_tagged_b, word_of, off_b, full_b, first_stage, paired_b, busy_b, record8};

use crate::choice::is_one_of;

pub mod choice;

pub const PUSH_SHARED: u64 = 6;

pub const TAKE_SHARED: u64 = 7;

pub const PUSH_TAGGED: u64 = 8;

pub const TAKE_TAGGED: u64 = 9;

pub const SET_TAG: u64 = 10;

pub const ASK_TAG: u64 = 11;

pub const AWAIT_TAG: u64 = 12;

pub const LOADING: u64 = 1;

pub const WRITING: u64 = 2;

pub const EXCHANGING: u64 = 3;

pub const SWAPPING: u64 = 4;

pub const MASKING: u64 = 5;

// A worker's record: eight words, own and got among them, as a host spells it.
#[derive(Clone, Copy, Debug, PartialEq, Eq)]
pub struct Worker {
    pub own: u64,
    pub got: u64,
    pub operation: u64,
    pub stage: u64,
    pub tag: u64,
    pub hand: u64,
    pub seen: u64,
    pub sightings: u64,
}

impl Worker {
    // A worker with these lists and no operation: every other field is 0.
    pub fn resting(own: u64, got: u64) -> Worker
        ensures { result ≡ record8 own got 0 0 0 0 0 0 }
    {
        Worker {
            own,
            got,
            operation: 0,
            stage: 0,
            tag: 0,
            hand: 0,
            seen: 0,
            sightings: 0,
        }
    }

    // Whether an operation is under way.
    pub fn is_busy(&self) -> bool
        ensures { result ≡ busy_b self.now }
    {
        self.operation != 0
    }
}

// Whether an operation is staged.
#[tactic(auto, unfolding(crate::specs::Operations::staged_b))]
pub fn is_staged(operation: u64) -> bool
    ensures { result ≡ staged_b operation }
{
    PUSH_SHARED <= operation && operation <= AWAIT_TAG
}

// Whether it pushes.
#[tactic(auto, unfolding(crate::specs::Operations::pushes_b))]
pub fn pushes(operation: u64) -> bool
    ensures { result ≡ pushes_b operation }
{
    operation == PUSH_SHARED || operation == PUSH_TAGGED
}

// Whether it takes.
#[tactic(auto, unfolding(crate::specs::Operations::takes_b))]
pub fn takes(operation: u64) -> bool
    ensures { result ≡ takes_b operation }
{
    operation == TAKE_SHARED || operation == TAKE_TAGGED
}

// Whether it is on S.
#[tactic(auto, unfolding(crate::specs::Operations::on_shared_b))]
pub fn on_shared(operation: u64) -> bool
    ensures { result ≡ on_shared_b operation }
{
    operation == PUSH_SHARED || operation == TAKE_SHARED
}

// Whether it is on T.
#[tactic(auto, unfolding(crate::specs::Operations::on_tagged_b))]
pub fn on_tagged(operation: u64) -> bool
    ensures { result ≡ on_tagged_b operation }
{
    PUSH_TAGGED <= operation && operation <= AWAIT_TAG
}

// Its head word: S or T, of which the struct that has both stands above this crate.
#[tactic(auto, unfolding(crate::specs::Operations::word_of))]
pub fn word_of(operation: u64, shared: u64, tagged: u64) -> u64
    ensures { result ≡ word_of operation shared tagged }
{
    if on_shared(operation) { shared } else { tagged }
}

// Whether it is on T while T is off.
#[tactic(auto, unfolding(crate::specs::Operations::off_b))]
pub fn is_off(operation: u64, on: bool) -> bool
    ensures { result ≡ off_b operation on }
{
    !on && on_tagged(operation)
}

// Whether it takes while got is not empty.
#[tactic(auto, unfolding(crate::specs::Operations::full_b))]
pub fn is_full(operation: u64, got: u64) -> bool
    ensures { result ≡ full_b operation got }
{
    got != 0 && takes(operation)
}

// The first stage.
#[tactic(auto, unfolding(crate::specs::Operations::first_stage))]
pub fn first_stage(operation: u64) -> u64
    ensures { result ≡ first_stage operation }
{
    if operation == TAKE_TAGGED {
        MASKING
    } else {
        LOADING
    }
}

// Whether a rule pairs an operation and a stage.
#[tactic(auto, unfolding(crate::specs::Operations::stages_of, crate::specs::Operations::pushes_b, crate::specs::Operations::one_of))]
pub fn is_paired(operation: u64, stage: u64) -> bool
    ensures { result ≡ paired_b operation stage }
{
    match operation {
        PUSH_SHARED | PUSH_TAGGED => is_one_of(stage, [LOADING, WRITING, EXCHANGING]),
        TAKE_SHARED => is_one_of(stage, [LOADING, SWAPPING]),
        TAKE_TAGGED => stage == MASKING,
        SET_TAG | ASK_TAG => is_one_of(stage, [LOADING, EXCHANGING]),
        AWAIT_TAG => stage == LOADING,
        _ => false,
    }
}
