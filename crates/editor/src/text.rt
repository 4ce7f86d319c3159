// Answers as text: a line for each, number, space, value. What a method writes is a definition of `specs/Text`.
ghost use Rattle.std.specs.Prelude.{◌≡◌, ◌+◌, ◌*◌, ◌≤◌, length, take};
ghost use Rattle.editor.specs.Text.{Wrote, number_text, line_text, lines_text, chunk_text};

use crate::RECORDS;

// The most digits of a number of 64 bits.
const DIGITS: usize = 20;

// The most bytes of a line: two numbers, a space and a line's end.
const LINE: usize = 42;

// The bytes of `bad` and its line's end.
const BAD: usize = 4;

// Room for the lines of one read's answers, and `bad`.
const ROOM: usize = LINE * RECORDS + BAD;

// A text and the room that it stands in: it ends before the byte at `end`. There is no heap, so a room has its end
// beside it.
#[derive(Drop)]
pub struct Text {
    pub room: [u8; ROOM],
    pub end: usize,
    ghost within: { end ≤ length room },
    ghost long: { length room ≡ 43012 },
}

impl Text {
    // No text.
    pub fn new() -> Text
        ensures { result.end ≡ 0 }
    {
        Text {
            room: [0; ROOM],
            end: 0,
        }
    }

    // Its bytes.
    pub fn bytes(&self) -> &[u8]
        ensures { result.now ≡ take self.now.end self.now.room }
    {
        &self.room[..self.end]
    }

    // Puts bytes behind the text.
    fn push(&mut self, bytes: &[u8])
        requires { self.old.end + length bytes.now ≤ length self.old.room }
        ensures wrote { Wrote self.old.room self.old.end bytes.now self.new.room self.new.end }
        ensures end { self.new.end ≡ self.old.end + length bytes.now }
    {
        let end = self.end + bytes.len();
        self.room[self.end..end].copy_from_slice(bytes);
        self.end = end;
    }

    // Puts a number's decimal digits behind the text.
    fn number(&mut self, n: u64)
        requires { self.old.end + 20 ≤ length self.old.room }
        ensures wrote { Wrote self.old.room self.old.end (number_text n) self.new.room self.new.end }
        ensures upper_bound { self.new.end ≤ self.old.end + 20 }
    {
        let mut digits = [0u8; DIGITS];
        let count = io::decimal(n, &mut digits);
        self.push(&digits[..count]);
    }

    // Puts an answer's line behind the text.
    fn line(&mut self, first: u64, value: u64)
        requires { self.old.end + 42 ≤ length self.old.room }
        ensures wrote { Wrote self.old.room self.old.end (line_text first value) self.new.room self.new.end }
        ensures upper_bound { self.new.end ≤ self.old.end + 42 }
    {
        self.number(first);
        self.push(b" ");
        self.number(value);
        self.push(b"\n");
    }

    // Puts the lines of the first count answers behind the text.
    fn lines(&mut self, answers: &[u64], count: usize)
        requires { (2 * count ≤ length answers.now) × (self.old.end + 42 * count ≤ length self.old.room) }
        ensures wrote { Wrote self.old.room self.old.end (lines_text answers.now count) self.new.room self.new.end }
        ensures upper_bound { self.new.end ≤ self.old.end + 42 * count }
    {
        for k in 0..count {
            self.line(answers[2 * k], answers[2 * k + 1]);
        }
    }

    // The text of a chunk: the lines of the first count answers, then `bad` unless all its bytes were records.
    pub fn chunk(&mut self, answers: &[u64], count: usize, whole: bool)
        requires { (2 * count ≤ length answers.now) × (42 * count + 4 ≤ length self.old.room) }
        ensures { Wrote self.old.room 0 (chunk_text answers.now count whole) self.new.room self.new.end }
    {
        self.end = 0;
        self.lines(answers, count);
        if !whole {
            self.push(b"bad\n");
        }
    }
}
