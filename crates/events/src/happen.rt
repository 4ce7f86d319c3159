// One event: a request or a move of a worker, or T switched. The page rules are tested before, once for a run, whose
// page numbers and W are handed in: the state is changed in between, and to read them from it at each event is slower.
ghost use Rattle.std.specs.Prelude.{◌≡◌, true, cond, eqb};
ghost use Rattle.answers.specs.Numbers.{no_worker};
ghost use Rattle.answers.specs.Rows.{refused};
ghost use Rattle.records.specs.Records.{kind_number};
ghost use Rattle.machine.specs.Config.{config, came, layout_of, rules_b};
ghost use Rattle.machine.specs.Events.{a_request, event_at, event_of};

use answers::Refusal;
use machine::State;
use machine::ask::ask;
use machine::moves::make_move;
use machine::switch::{switch_off, switch_on};
use page::Layout;
use records::{EVENT_WORDS, Event, Kind};

// Lets the event that five words spell happen, by its kind; the code of a move is its flag.
#[tactic(auto, unfolding(machine::specs::Events::event_of))]
pub fn happen(
    state: &mut State,
    layout: Layout,
    w: u64,
    page: &mut [u64],
    bits: &mut [u64],
    words: [u64; EVENT_WORDS],
) -> Result<Option<u64>, Refusal>
    requires rules { rules_b (config state.old page.old bits.old) ≡ true }
    requires layout { layout ≡ layout_of state.old }
    requires workers { w ≡ state.old.w }
    ensures { came result state.new page.new bits.new ≡ event_at words 0 (config state.old page.old bits.old) }
{
    let e = Event::try_from(words)?;
    let Kind::Request = e.kind else {
        return other(state, page, bits, e);
    };
    if w <= e.worker {
        return Err(Refusal::NoWorker);
    }
    let on = state.on;
    let k = &mut state.workers[e.worker as usize];
    ask(k, layout, on, page, bits, e.code, e.a, e.b)
}

// A move, or T switched.
#[tactic(auto, unfolding(machine::specs::Events::event_of))]
fn other(
    state: &mut State,
    page: &mut [u64],
    bits: &[u64],
    e: Event,
) -> Result<Option<u64>, Refusal>
    ensures { came result state.new page.new bits.now ≡ cond (eqb (kind_number e.kind) a_request)
        (refused no_worker (config state.old page.old bits.now))
        (event_of (config state.old page.old bits.now) (kind_number e.kind) e.worker e.code e.a e.b) }
{
    match e.kind {
        // none comes here; it would be that of no worker
        Kind::Request => Err(Refusal::NoWorker),
        Kind::Move => make_move(state, e.worker, e.code != 0, page, bits),
        Kind::On => switch_on(state, page, bits).map(Some),
        Kind::Off => switch_off(state, page, bits).map(Some),
    }
}
