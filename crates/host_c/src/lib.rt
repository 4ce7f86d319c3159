// The archive for a host program in C or Rust: the ten functions of `host`, each under its own name and with its own
// clause. A crate is a library or a static library, so the machine for a host stands in `host`, and this is what C
// calls.
#![tactic(auto)]

ghost use Rattle.std.specs.Prelude.{◌≡◌};
ghost use Rattle.machine.specs.Config.{lent_of, fresh_of};
ghost use Rattle.machine.specs.Requests.{request_of};
ghost use Rattle.machine.specs.Moves.{move_of};
ghost use Rattle.machine.specs.Switch.{switch_on_of, switch_off_of};
ghost use Rattle.machine.specs.Events.{flag_of, ran, events_of};
ghost use Rattle.machine.specs.Readers.{listed_count_of, first_unlisted_of, entry_answer_of, compare_of};
ghost use Rattle.host.specs.Spelling.{spelled};
ghost use Rattle.host.specs.Calls.{gave, holding, in_words, fresh_in_words, gave_run, run_in_words};

use answers::Answer;
use host::STATE_WORDS;

// A fresh start over a zeroed bitmap. It reads no word of state; refused, it writes 0 to all of them and to nothing
// else.
#[unsafe(no_mangle)]
pub extern "C" fn albmerik_fresh(
    state: &mut [u64; STATE_WORDS],
    page: &[u64],
    bits: &mut [u64],
    n: u64,
    bw: u64,
    w: u64,
) -> Answer
    ensures { gave result state.new page.now bits.new ≡ fresh_in_words (fresh_of n bw w page.now bits.old) }
{
    host::albmerik_fresh(state, page, bits, n, bw, w)
}

// A request of a worker, by its code.
#[unsafe(no_mangle)]
pub extern "C" fn albmerik_request(
    state: &mut [u64; STATE_WORDS],
    page: &mut [u64],
    bits: &mut [u64],
    worker: u64,
    code: u64,
    a: u64,
    b: u64,
) -> Answer
    ensures { gave result state.new page.new bits.new ≡ in_words state.old (request_of (holding state.old page.old bits.old) worker code a b) }
{
    host::albmerik_request(state, page, bits, worker, code, a, b)
}

// A move of a worker; any flag but 0 is set.
#[unsafe(no_mangle)]
pub extern "C" fn albmerik_move(
    state: &mut [u64; STATE_WORDS],
    page: &mut [u64],
    bits: &[u64],
    worker: u64,
    flag: u64,
) -> Answer
    ensures { gave result state.new page.new bits.now ≡ in_words state.old (move_of (holding state.old page.old bits.now) worker (flag_of flag)) }
{
    host::albmerik_move(state, page, bits, worker, flag)
}

// T switched on.
#[unsafe(no_mangle)]
pub extern "C" fn albmerik_on(state: &mut [u64; STATE_WORDS], page: &[u64], bits: &[u64]) -> Answer
    ensures { gave result state.new page.now bits.now ≡ in_words state.old (switch_on_of (holding state.old page.now bits.now)) }
{
    host::albmerik_on(state, page, bits)
}

// T switched off.
#[unsafe(no_mangle)]
pub extern "C" fn albmerik_off(state: &mut [u64; STATE_WORDS], page: &[u64], bits: &[u64]) -> Answer
    ensures { gave result state.new page.now bits.now ≡ in_words state.old (switch_off_of (holding state.old page.now bits.now)) }
{
    host::albmerik_off(state, page, bits)
}

// A run of events, each one's answer in its place.
#[unsafe(no_mangle)]
pub extern "C" fn albmerik_events(
    state: &mut [u64; STATE_WORDS],
    page: &mut [u64],
    bits: &mut [u64],
    events: &[u64],
    answers: &mut [u64],
) -> Answer
    ensures { gave_run result state.new page.new bits.new answers.new ≡ run_in_words state.old (events_of (ran (holding state.old page.old bits.old) answers.old) events.now) }
{
    host::albmerik_events(state, page, bits, events, answers)
}

// How many blocks are listed.
#[unsafe(no_mangle)]
pub extern "C" fn albmerik_listed_count(
    state: &[u64; STATE_WORDS],
    page: &[u64],
    bits: &[u64],
) -> Answer
    ensures { result ≡ listed_count_of (lent_of (holding state.now page.now bits.now)) (spelled state.now).w }
{
    host::albmerik_listed_count(state, page, bits)
}

// The smallest block that is not listed.
#[unsafe(no_mangle)]
pub extern "C" fn albmerik_first_unlisted(
    state: &[u64; STATE_WORDS],
    page: &[u64],
    bits: &[u64],
) -> Answer
    ensures { result ≡ first_unlisted_of (lent_of (holding state.now page.now bits.now)) (spelled state.now).w }
{
    host::albmerik_first_unlisted(state, page, bits)
}

// Which number applies to block a's entry.
#[unsafe(no_mangle)]
pub extern "C" fn albmerik_entry_answer(
    state: &[u64; STATE_WORDS],
    page: &[u64],
    bits: &[u64],
    a: u64,
) -> Answer
    ensures { result ≡ entry_answer_of (lent_of (holding state.now page.now bits.now)) (spelled state.now).w a }
{
    host::albmerik_entry_answer(state, page, bits, a)
}

// How many leading words of two entries are equal.
#[unsafe(no_mangle)]
pub extern "C" fn albmerik_compare_entries(
    state: &[u64; STATE_WORDS],
    page: &[u64],
    bits: &[u64],
    a: u64,
    b: u64,
) -> Answer
    ensures { result ≡ compare_of (lent_of (holding state.now page.now bits.now)) (spelled state.now).w a b }
{
    host::albmerik_compare_entries(state, page, bits, a, b)
}
