// A request to a worker. No public function has a requires.
ghost use Rattle.std.specs.Prelude.{◌≡◌};
ghost use Rattle.machine.specs.Config.{config, came};
ghost use Rattle.machine.specs.Requests.{request_of};

use crate::State;
use crate::ask::ask;
use answers::Refusal;

// Asks something of a worker: requests 1 to 5 and 13 act at once, 6 to 12 start.
pub fn request(
    state: &mut State,
    worker: u64,
    code: u64,
    a: u64,
    b: u64,
    page: &mut [u64],
    bits: &mut [u64],
) -> Result<Option<u64>, Refusal>
    ensures { came result state.new page.new bits.new ≡ request_of (config state.old page.old bits.old) worker code a b }
{
    if !state.keeps_rules(page, bits) {
        return Err(Refusal::BadPage);
    }
    if state.w <= worker {
        return Err(Refusal::NoWorker);
    }
    let layout = state.layout();
    let on = state.on;
    let k = &mut state.workers[worker as usize];
    ask(k, layout, on, page, bits, code, a, b)
}
