// The start of requests 6 to 12: refused with 4, 5, 7, 8 or 9, or under way with the record set afresh. No public
// function has a requires.
ghost use Rattle.std.specs.Prelude.{◌≡◌};
ghost use Rattle.staged.specs.Workers.{begun};
ghost use Rattle.staged.specs.Start.{starter, started, start_fits_b, start_of};

use crate::MAX_TAG;
use answers::Refusal;
use operations::choice::only_if;
use operations::{SET_TAG, Worker, first_stage, is_full, is_off, is_staged, pushes};
use page::Layout;

// Whether there is such an operation, and it has the block or the tag that it asks for.
#[tactic(auto, unfolding(crate::specs::Start::start_fits_b))]
pub fn start_fits(layout: Layout, operation: u64, a: u64) -> bool
    ensures { result ≡ start_fits_b layout.n operation a }
{
    if pushes(operation) {
        layout.is_block(a)
    } else if operation == SET_TAG {
        a <= MAX_TAG
    } else {
        is_staged(operation)
    }
}

// The record with an operation under way: own and got stay, every other field is set afresh.
#[tactic(auto, unfolding(crate::specs::Workers::begun))]
fn begun(k: &Worker, operation: u64, a: u64) -> Worker
    ensures { result ≡ begun k.now operation a }
{
    Worker {
        operation,
        stage: first_stage(operation),
        tag: only_if(operation == SET_TAG, a),
        hand: only_if(pushes(operation), a),
        ..Worker::resting(k.own, k.got)
    }
}

// Starts an operation. A push takes its block in hand: the block's bit is set.
#[tactic(auto, unfolding(crate::specs::Start::start_of, crate::specs::Start::start_refusal, crate::specs::Start::start_act, answers::specs::Rows::first))]
pub fn start(
    k: &mut Worker,
    layout: Layout,
    on: bool,
    bits: &mut [u64],
    operation: u64,
    a: u64,
) -> Result<(), Refusal>
    ensures { started result k.new bits.new ≡ start_of layout.n on (starter k.old bits.old) operation a }
{
    if !start_fits(layout, operation, a) {
        return Err(Refusal::NoSuch);
    }
    if k.is_busy() {
        return Err(Refusal::Busy);
    }
    if is_off(operation, on) {
        return Err(Refusal::Switched);
    }
    if is_full(operation, k.got) {
        return Err(Refusal::NotEmpty);
    }
    if pushes(operation) {
        if bitmap::is_set(bits, a) {
            return Err(Refusal::Listed);
        }
        bitmap::set(bits, a);
    }
    *k = begun(k, operation, a);
    Ok(())
}
