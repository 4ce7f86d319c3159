// A run of events in a lent slice, with the state changed in place. No public function has a requires.
#![tactic(auto)]

ghost use Rattle.std.specs.Prelude.{◌≡◌, true, ◌+◌, ◌*◌, ◌<◌, ◌≤◌, length, set};
ghost use Rattle.machine.specs.Config.{config, rules_b};
ghost use Rattle.machine.specs.Events.{event_words, answer_words, ran, came_run, run_of, events_of};
ghost use Rattle.events.specs.Parts.{words_at};

use crate::happen::happen;
use answers::{Answer, Refusal};
use machine::State;
pub use records::EVENT_WORDS;

mod happen;

// Words of an answer: number, value.
pub const ANSWER_WORDS: usize = 2;

// Writes answer k, each word to its place.
fn put(answers: &mut [u64], k: usize, answer: Answer)
    requires { k * answer_words + 1 < length answers.old }
    ensures { answers.new ≡ set (set answers.old (k * answer_words) answer.number) (k * answer_words + 1) answer.value }
{
    answers[k * ANSWER_WORDS] = answer.number;
    answers[k * ANSWER_WORDS + 1] = answer.value;
}

// The words of event k, each from its place.
fn read(events: &[u64], k: usize) -> [u64; EVENT_WORDS]
    requires { k * event_words + 4 < length events.now }
    ensures { result ≡ words_at events.now k }
{
    let at = k * EVENT_WORDS;
    [
        events[at],
        events[at + 1],
        events[at + 2],
        events[at + 3],
        events[at + 4],
    ]
}

// Lets the first events happen in turn, and writes the answer of each.
fn run(
    state: &mut State,
    page: &mut [u64],
    bits: &mut [u64],
    events: &[u64],
    count: usize,
    answers: &mut [u64],
)
    requires rules { rules_b (config state.old page.old bits.old) ≡ true }
    requires events { count * event_words ≤ length events.now }
    requires answers { count * answer_words ≤ length answers.old }
    ensures { ran (config state.new page.new bits.new) answers.new ≡ run_of events.now count (ran (config state.old page.old bits.old) answers.old) }
{
    let layout = state.layout();
    let w = state.w;
    for k in 0..count {
        let answer = happen(state, layout, w, page, bits, read(events, k));
        put(answers, k, Answer::from(answer));
    }
}

// Runs the events: the count of them, with each one's answer in its place. Refused with 2, 4 or 10, nothing changes.
#[tactic(auto, unfolding(machine::specs::Events::events_of, machine::specs::Events::events_refusal, answers::specs::Rows::first))]
pub fn events(
    state: &mut State,
    page: &mut [u64],
    bits: &mut [u64],
    events: &[u64],
    answers: &mut [u64],
) -> Result<u64, Refusal>
    ensures { came_run result state.new page.new bits.new answers.new ≡ events_of (ran (config state.old page.old bits.old) answers.old) events.now }
{
    if !state.keeps_rules(page, bits) {
        return Err(Refusal::BadPage);
    }
    if events.len() % EVENT_WORDS != 0 {
        return Err(Refusal::NoSuch);
    }
    let count = events.len() / EVENT_WORDS;
    if answers.len() < count * ANSWER_WORDS {
        return Err(Refusal::NoneLeft);
    }
    run(state, page, bits, events, count, answers);
    Ok(count as u64)
}
