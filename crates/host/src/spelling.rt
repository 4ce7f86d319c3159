// The state in 70 words: read from them, and written to them.
ghost use Rattle.std.specs.Prelude.{◌≡◌, ◌<◌, length};
ghost use Rattle.std.proofs.lemmas.List.Edits.{sets};
ghost use Rattle.page.specs.Limits.{max_workers};
ghost use Rattle.machine.specs.Config.{layout_of};
ghost use Rattle.host.specs.Spelling.{state_words, record_at, worker_at, spelled, worker_words, words_of};

use crate::STATE_WORDS;
use machine::State;
use operations::Worker;
use page::Layout;

// The places of n, bw, W, S, T and of whether T is on.
const N: usize = 0;

const BW: usize = 1;

pub const W: usize = 2;

const S: usize = 3;

const T: usize = 4;

const ON: usize = 5;

// Where the worker records begin.
const FIRST_RECORD: usize = 6;

// How many words spell a worker record.
const RECORD_WORDS: usize = 8;

// The page's numbers.
#[tactic(auto, unfolding(crate::specs::Spelling::spelled))]
pub fn layout(words: &[u64; STATE_WORDS]) -> Layout
    ensures { result ≡ layout_of (spelled words.now) }
{
    Layout {
        n: words[N],
        bw: words[BW],
    }
}

// Reads worker i's record, each word from its place in the header.
fn worker_at(words: &[u64; STATE_WORDS], i: usize) -> Worker
    requires { i < max_workers }
    ensures { result ≡ worker_at words.now i }
{
    let at = FIRST_RECORD + i * RECORD_WORDS;
    Worker {
        own: words[at],
        got: words[at + 1],
        operation: words[at + 2],
        stage: words[at + 3],
        tag: words[at + 4],
        hand: words[at + 5],
        seen: words[at + 6],
        sightings: words[at + 7],
    }
}

// The state that the words spell; any word but 0 means on.
pub fn load(words: &[u64; STATE_WORDS]) -> State
    ensures { result ≡ spelled words.now }
{
    // written out, since a closure over the places would have to be shown that each is below 8
    let workers = [
        worker_at(words, 0),
        worker_at(words, 1),
        worker_at(words, 2),
        worker_at(words, 3),
        worker_at(words, 4),
        worker_at(words, 5),
        worker_at(words, 6),
        worker_at(words, 7),
    ];
    State {
        n: words[N],
        bw: words[BW],
        w: words[W],
        shared: words[S],
        tagged: words[T],
        on: words[ON] != 0,
        workers,
    }
}

// Writes worker i's record, each word to its place: a copy of eight words is slower.
fn put_worker(words: &mut [u64], i: usize, k: Worker)
    requires { (i < max_workers) × (length words.old ≡ state_words) }
    ensures { words.new ≡ sets words.old (record_at i) (worker_words k) }
{
    let at = FIRST_RECORD + i * RECORD_WORDS;
    words[at] = k.own;
    words[at + 1] = k.got;
    words[at + 2] = k.operation;
    words[at + 3] = k.stage;
    words[at + 4] = k.tag;
    words[at + 5] = k.hand;
    words[at + 6] = k.seen;
    words[at + 7] = k.sightings;
}

// Writes the words that spell a state; on becomes 0 or 1.
pub fn store(words: &mut [u64], s: &State)
    requires { length words.old ≡ state_words }
    ensures { words.new ≡ words_of s.now }
{
    words[N] = s.n;
    words[BW] = s.bw;
    words[W] = s.w;
    words[S] = s.shared;
    words[T] = s.tagged;
    words[ON] = s.on as u64;
    for (i, k) in s.workers.iter().enumerate() {
        put_worker(words, i, *k);
    }
}
