// Runs of records on a fresh page, and what can be asked of them.
ghost use Rattle.std.specs.Prelude.{◌≡◌, true, ◌<◌, length, get_or, take};
ghost use Rattle.table_check.specs.Runs.{left, zeros_run, Answers};

use answers::Answer;
use machine::State;
use machine::fresh::fresh;
use page::Layout;
use records::EVENT_WORDS;

// The page of document 01's table: n, bw, W, and the words of page and bitmap.
const BLOCKS: u64 = 63;

const BLOCK_WORDS: u64 = 4;

const WORKERS: u64 = 8;

const PAGE_WORDS: usize = 256;

const BITMAP_WORDS: usize = 1;

// Room for 32 records: words of their events and of their answers.
const EVENTS: usize = 160;

const ANSWERS: usize = 64;

// What a run leaves: its answer, the state, the page and the bitmap, and the answers of its events. The answer is a
// number with a value, as in `Outcome`, since `Answers` counts by the value of a refused run too.
#[derive(Drop)]
pub struct Ran {
    pub answer: Answer,
    pub state: State,
    pub page: [u64; PAGE_WORDS],
    pub bits: [u64; BITMAP_WORDS],
    pub answers: [u64; ANSWERS],
}

// Runs the records from a fresh start, which the page rules allow.
#[tactic(auto, unfolding(machine::specs::Config::fresh_of, machine::specs::Config::rules_b, page::specs::Page::fits_b, page::specs::Page::workers_b, answers::specs::Rows::all))]
fn run(records: &[u8]) -> Ran
    ensures { left result ≡ zeros_run records.now }
{
    let mut page = [0u64; PAGE_WORDS];
    let mut bits = [0u64; BITMAP_WORDS];
    let mut words = [0u64; EVENTS];
    let mut answers = [0u64; ANSWERS];
    let filled = records::fill(records, &mut words);
    let used = EVENT_WORDS * filled.records;
    let layout = Layout {
        n: BLOCKS,
        bw: BLOCK_WORDS,
    };
    let mut state = fresh(layout, WORKERS, &page, &mut bits).unwrap();
    let came = events::events(
        &mut state,
        &mut page,
        &mut bits,
        &words[..used],
        &mut answers,
    );
    Ran {
        answer: Answer::from(came),
        state,
        page,
        bits,
        answers,
    }
}

// Whether words begin with these bytes.
fn begins(words: &[u64], expected: &[u8]) -> bool
    ensures { take (length expected.now) words.now ≡ expected.now → result ≡ true }
{
    expected.len() <= words.len() && expected.iter().zip(words).all(|(x, y)| u64::from(*x) == *y)
}

// Whether these are the answers of a run, number and value of each.
pub fn answers(records: &[u8], expected: &[u8]) -> bool
    ensures { Answers records.now expected.now → result ≡ true }
{
    let ran = run(records);
    ran.answer.value == (expected.len() / 2) as u64 && begins(&ran.answers, expected)
}

// The tagged word after a run.
pub fn tagged(records: &[u8]) -> u64
    ensures { result ≡ (zeros_run records.now).after.config.state.tagged }
{
    run(records).state.tagged
}

// A word of the page after a run.
pub fn word(records: &[u8], at: usize) -> u64
    requires { at < 256 }
    ensures { result ≡ get_or (zeros_run records.now).after.config.page at 0 }
{
    run(records).page[at]
}
