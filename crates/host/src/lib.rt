// The machine for a host program in C or Rust: functions on numbers and lent words. The state is 70 words, an answer
// is number and value. No function has a requires, and a refusal changes no word but those of a fresh start's state.
#![tactic(auto)]

ghost use Rattle.std.specs.Prelude.{◌≡◌};
ghost use Rattle.machine.specs.Config.{config, lent_of, fresh_of};
ghost use Rattle.machine.specs.Requests.{request_of};
ghost use Rattle.machine.specs.Moves.{move_of};
ghost use Rattle.machine.specs.Switch.{switch_on_of, switch_off_of};
ghost use Rattle.machine.specs.Events.{flag_of, came_run, ran, events_of};
ghost use Rattle.machine.specs.Readers.{listed_count_of, first_unlisted_of, entry_answer_of, compare_of};
ghost use Rattle.host.specs.Spelling.{spelled};
ghost use Rattle.host.specs.Calls.{gave, holding, written, in_words, fresh_in_words, gave_run, run_in_words};

use crate::spelling::{W, layout, load, store};
use answers::{Answer, Refusal};
use machine::State;
use page::Layout;
use records::Kind;

mod spelling;

// How many words spell a state.
pub const STATE_WORDS: usize = 70;

// Writes the state unless the number refuses, and hands the answer on.
#[tactic(auto, unfolding(crate::specs::Calls::written))]
fn finish(words: &mut [u64; STATE_WORDS], s: &State, told: Answer) -> Answer
    ensures answer { result ≡ told }
    ensures words { words.new ≡ written words.old told.number s.now }
{
    if told.number < u64::from(Refusal::BadPage) {
        store(words, s);
    }
    told
}

// Runs events on a state. Requests and runs meet here, so that the machine's events have one caller, and the compiler
// one copy of them to put in place.
fn run(
    s: &mut State,
    page: &mut [u64],
    bits: &mut [u64],
    events: &[u64],
    answers: &mut [u64],
) -> Result<u64, Refusal>
    ensures { came_run result s.new page.new bits.new answers.new ≡ events_of (ran (config s.old page.old bits.old) answers.old) events.now }
{
    events::events(s, page, bits, events, answers)
}

// A fresh start over a zeroed bitmap. It reads no word of state; refused, it writes 0 to all of them and to nothing
// else. n, bw and w stand side by side, as C hands them.
#[unsafe(no_mangle)]
pub extern "C" fn albmerik_fresh(
    state: &mut [u64; STATE_WORDS],
    page: &[u64],
    bits: &mut [u64],
    n: u64,
    bw: u64,
    w: u64,
) -> Answer
    ensures { gave result state.new page.now bits.new ≡ fresh_in_words (fresh_of n bw w page.now bits.old) }
{
    let (s, told) = machine::fresh::fresh_or_zero(Layout { n, bw }, w, page, bits);
    store(state, &s);
    Answer::from(told)
}

// A request of a worker, by its code: a run of one event. What the run writes, or leaves as the refusal by 2, is the
// answer.
#[unsafe(no_mangle)]
pub extern "C" fn albmerik_request(
    state: &mut [u64; STATE_WORDS],
    page: &mut [u64],
    bits: &mut [u64],
    worker: u64,
    code: u64,
    a: u64,
    b: u64,
) -> Answer
    ensures { gave result state.new page.new bits.new ≡ in_words state.old (request_of (holding state.old page.old bits.old) worker code a b) }
{
    let mut s = load(state);
    let event = [u64::from(Kind::Request), worker, code, a, b];
    let mut answer = [u64::from(Refusal::BadPage), 0];
    let _ = run(&mut s, page, bits, &event, &mut answer);
    let [number, value] = answer;
    finish(state, &s, Answer { number, value })
}

// A move of a worker; any flag but 0 is set.
#[unsafe(no_mangle)]
pub extern "C" fn albmerik_move(
    state: &mut [u64; STATE_WORDS],
    page: &mut [u64],
    bits: &[u64],
    worker: u64,
    flag: u64,
) -> Answer
    ensures { gave result state.new page.new bits.now ≡ in_words state.old (move_of (holding state.old page.old bits.now) worker (flag_of flag)) }
{
    let mut s = load(state);
    let told = machine::moves::make_move(&mut s, worker, flag != 0, page, bits);
    finish(state, &s, Answer::from(told))
}

// T switched on.
#[unsafe(no_mangle)]
pub extern "C" fn albmerik_on(state: &mut [u64; STATE_WORDS], page: &[u64], bits: &[u64]) -> Answer
    ensures { gave result state.new page.now bits.now ≡ in_words state.old (switch_on_of (holding state.old page.now bits.now)) }
{
    let mut s = load(state);
    let told = machine::switch::switch_on(&mut s, page, bits);
    finish(state, &s, Answer::from(told))
}

// T switched off.
#[unsafe(no_mangle)]
pub extern "C" fn albmerik_off(state: &mut [u64; STATE_WORDS], page: &[u64], bits: &[u64]) -> Answer
    ensures { gave result state.new page.now bits.now ≡ in_words state.old (switch_off_of (holding state.old page.now bits.now)) }
{
    let mut s = load(state);
    let told = machine::switch::switch_off(&mut s, page, bits);
    finish(state, &s, Answer::from(told))
}

// A run of events, each one's answer in its place.
#[unsafe(no_mangle)]
pub extern "C" fn albmerik_events(
    state: &mut [u64; STATE_WORDS],
    page: &mut [u64],
    bits: &mut [u64],
    events: &[u64],
    answers: &mut [u64],
) -> Answer
    ensures { gave_run result state.new page.new bits.new answers.new ≡ run_in_words state.old (events_of (ran (holding state.old page.old bits.old) answers.old) events.now) }
{
    let mut s = load(state);
    let told = run(&mut s, page, bits, events, answers);
    finish(state, &s, Answer::from(told))
}

// How many blocks are listed.
#[tactic(auto, unfolding(crate::specs::Spelling::spelled))]
#[unsafe(no_mangle)]
pub extern "C" fn albmerik_listed_count(
    state: &[u64; STATE_WORDS],
    page: &[u64],
    bits: &[u64],
) -> Answer
    ensures { result ≡ listed_count_of (lent_of (holding state.now page.now bits.now)) (spelled state.now).w }
{
    Answer::from(readers::listed_count(layout(state), state[W], page, bits))
}

// The smallest block that is not listed.
#[tactic(auto, unfolding(crate::specs::Spelling::spelled))]
#[unsafe(no_mangle)]
pub extern "C" fn albmerik_first_unlisted(
    state: &[u64; STATE_WORDS],
    page: &[u64],
    bits: &[u64],
) -> Answer
    ensures { result ≡ first_unlisted_of (lent_of (holding state.now page.now bits.now)) (spelled state.now).w }
{
    Answer::from(readers::first_unlisted(layout(state), state[W], page, bits))
}

// Which number applies to block a's entry.
#[tactic(auto, unfolding(crate::specs::Spelling::spelled))]
#[unsafe(no_mangle)]
pub extern "C" fn albmerik_entry_answer(
    state: &[u64; STATE_WORDS],
    page: &[u64],
    bits: &[u64],
    a: u64,
) -> Answer
    ensures { result ≡ entry_answer_of (lent_of (holding state.now page.now bits.now)) (spelled state.now).w a }
{
    Answer::from(readers::entry_answer(layout(state), state[W], page, bits, a))
}

// How many leading words of two entries are equal.
#[tactic(auto, unfolding(crate::specs::Spelling::spelled))]
#[unsafe(no_mangle)]
pub extern "C" fn albmerik_compare_entries(
    state: &[u64; STATE_WORDS],
    page: &[u64],
    bits: &[u64],
    a: u64,
    b: u64,
) -> Answer
    ensures { result ≡ compare_of (lent_of (holding state.now page.now bits.now)) (spelled state.now).w a b }
{
    Answer::from(readers::compare_entries(layout(state), state[W], page, bits, a, b))
}
