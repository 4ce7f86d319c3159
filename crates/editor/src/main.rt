// The program of document 01: records of 8 bytes from standard input, a line for each to standard output, `bad` at an
// unknown mark or a cut record. It reads and writes here; decoding, the machine and the text are calls.
#![tactic(auto)]

ghost use Rattle.std.specs.Prelude.{◌≡◌, ◌&&◌, ◌*◌, ◌≤◌, Some, eqb, length, take, replicate, OnOk};
ghost use Rattle.std.specs.Io.KnownBytes.{Appends};
ghost use Rattle.machine.specs.Config.{config, fresh_of};
ghost use Rattle.editor.specs.Chunk.{performed, perform_of};

mod text;

use anyhow::{Context, Result};
use events::ANSWER_WORDS;
use machine::State;
use machine::fresh::fresh;
use page::Layout;
use records::{EVENT_WORDS, Filled, Stop};
use std::io;
use std::io::{Read, Write};
use text::Text;

// The page: n blocks of bw words, W workers.
const BLOCKS: u64 = 63;

const BLOCK_WORDS: u64 = 4;

const WORKERS: u64 = 8;

// The words of the page, (n + 1) * bw, and of the bitmap, (n + 64) / 64.
const PAGE_WORDS: usize = 256;

const BITMAP_WORDS: usize = 1;

// The records of one read, and the room that they need: bytes, words of events, words of answers.
const RECORDS: usize = 1024;

const BYTES: usize = 8 * RECORDS;

const EVENTS: usize = EVENT_WORDS * RECORDS;

const ANSWERS: usize = ANSWER_WORDS * RECORDS;

// A proved loop has to end, and nothing says that the input does: it is read at most so often, more than any run does.
const READS: u64 = 1 << 60;

// The machine on its page, and the room for the records of one read. No event changes the page's numbers.
#[derive(Drop)]
struct Editor {
    state: State,
    page: [u64; PAGE_WORDS],
    bits: [u64; BITMAP_WORDS],
    bytes: [u8; BYTES],
    events: [u64; EVENTS],
    answers: [u64; ANSWERS],
    text: Text,
    ghost blocks: { state.n ≡ 63 },
    ghost block_words: { state.bw ≡ 4 },
    ghost workers: { state.w ≡ 8 },
}

fn main(rt: HostRuntime) -> Result<()> {
    let mut editor = Editor::new();
    editor.run(&mut rt.stdin(), &mut rt.stdout())
}

impl Editor {
    // A fresh start, which the page rules allow.
    #[tactic(auto, unfolding(machine::specs::Config::fresh_of, machine::specs::Config::rules_b, page::specs::Page::fits_b, page::specs::Page::workers_b, answers::specs::Rows::all))]
    fn new() -> Editor
        ensures { config result.state result.page result.bits ≡ (fresh_of 63 4 8 (replicate 256 0) (replicate 1 0)).after }
    {
        let page = [0u64; PAGE_WORDS];
        let mut bits = [0u64; BITMAP_WORDS];
        let layout = Layout {
            n: BLOCKS,
            bw: BLOCK_WORDS,
        };
        let state = fresh(layout, WORKERS, &page, &mut bits).unwrap();
        Editor {
            state,
            page,
            bits,
            bytes: [0; BYTES],
            events: [0; EVENTS],
            answers: [0; ANSWERS],
            text: Text::new(),
        }
    }

    // Reads, answers and writes until the input ends, `bad` was written, or a read or a write failed.
    fn run<R: Read, W: Write>(&mut self, input: &mut R, output: &mut W) -> Result<()> {
        for _ in 0..READS {
            if !self.turn(&mut *input, &mut *output)? {
                break;
            }
        }
        Ok(())
    }

    // Reads once, answers the records that came, writes the answers, and says whether more is to be read. A read that
    // fails ends the turn once what came before is answered, as the input's end would.
    fn turn<R: Read, W: Write>(&mut self, input: &mut R, output: &mut W) -> Result<bool> {
        let mut got = 0;
        let ended = read_full(input, &mut self.bytes, &mut got);
        let filled = self.perform(got);
        let whole = filled.stop == Stop::Ended;
        self.text.chunk(&self.answers, filled.records, whole);
        put(output, self.text.bytes())?;
        ended.context("the records cannot be read")?;
        Ok(goes_on(whole, got, self.bytes.len()))
    }

    // Decodes the records of the first bytes and lets their events happen, with each one's answer in its place.
    fn perform(&mut self, got: usize) -> Filled
        ensures answers_after { performed result.records (Some result.stop) (config self.new.state self.new.page self.new.bits) self.new.answers ≡ perform_of (config self.old.state self.old.page self.old.bits) (take got self.old.bytes) self.old.events self.old.answers }
        ensures records_in_bounds { 8 * result.records ≤ got }
        ensures bytes_stay { self.new.bytes ≡ self.old.bytes }
        ensures text_stays { self.new.text ≡ self.old.text }
    {
        let room = self.bytes.len();
        let filled = records::fill(&self.bytes[..got.min(room)], &mut self.events);
        let words = EVENT_WORDS * filled.records;
        // They have these values already. Written here, they are known to the compiler through the run.
        self.state.n = BLOCKS;
        self.state.bw = BLOCK_WORDS;
        self.state.w = WORKERS;
        // The count is that of the records, and a refused run is one that `perform_of` tells of too.
        let _ = events::events(
            &mut self.state,
            &mut self.page,
            &mut self.bits,
            &self.events[..words],
            &mut self.answers,
        );
        filled
    }
}

// Reads until the room is full, the input ends or a read fails, and counts the bytes that came. What came before a
// failed read counts too, so the count is not in the result. A read says where the next one starts, so no `for` fits.
fn read_full<R: Read>(input: &mut R, bytes: &mut [u8], got: &mut usize) -> io::Result<()>
    ensures { got.new ≤ length bytes.new }
{
    *got = 0;
    while *got < bytes.len() {
        match input.read(&mut bytes[*got..])? {
            0 => break,
            n => *got += n,
        }
    }
    Ok(())
}

// Writes text.
fn put<W: Write>(output: &mut W, text: &[u8]) -> Result<()>
    ensures { OnOk result (Appends (W.contents output.old) (W.contents output.new) text.now) }
{
    output
        .write_all(text)
        .context("the answers cannot be written")
}

// Whether more is to be read: all bytes were records, and they filled their room.
fn goes_on(whole: bool, got: usize, room: usize) -> bool
    ensures { result ≡ (whole && eqb got room) }
{
    whole && got == room
}
