// A move of a worker. No public function has a requires.
ghost use Rattle.std.specs.Prelude.{◌≡◌};
ghost use Rattle.machine.specs.Config.{config, came};
ghost use Rattle.machine.specs.Moves.{move_of};

use crate::State;
use answers::Refusal;
use staged::moves::make;

// Makes one move of a worker. Where the flag is set, an exchange fails.
pub fn make_move(
    state: &mut State,
    worker: u64,
    flag: bool,
    page: &mut [u64],
    bits: &[u64],
) -> Result<Option<u64>, Refusal>
    ensures { came result state.new page.new bits.now ≡ move_of (config state.old page.old bits.now) worker flag }
{
    if !state.keeps_rules(page, bits) {
        return Err(Refusal::BadPage);
    }
    if state.w <= worker {
        return Err(Refusal::NoWorker);
    }
    let layout = state.layout();
    let mut common = state.common();
    let k = &mut state.workers[worker as usize];
    let moved = make(k, &mut common, layout, flag, page, bits);
    state.shared = common.shared;
    state.tagged = common.tagged;
    state.on = common.on;
    moved
}
