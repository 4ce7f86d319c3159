// An event and its two spellings: a record of 8 bytes, which is a two-byte mark, worker, code, then a and b as two
// bytes each, low first; and five words. No public function has a requires: any bytes, at any place, and any words.
#![tactic(auto)]

ghost use Rattle.std.specs.Prelude.{◌≡◌, ◌+◌, ◌*◌, ◌≤◌, length};
ghost use Rattle.records.specs.Records.{kind_number, two_bytes, known, marked_by, words_of, read, decode_at};
ghost use Rattle.records.specs.Words.{heard, spelled_by};
ghost use Rattle.records.specs.Fill.{going, put_event, turned, filling, next, came, fill_of};

use answers::Refusal;
use std::convert::{From, TryFrom};

// The kinds of an event, with the number that its first word has.
#[derive(Clone, Copy, Debug, PartialEq, Eq)]
pub enum Kind {
    Request = 1,
    Move = 2,
    On = 3,
    Off = 4,
}

// What is asked for. A move's flag is its code: nonzero is set.
#[derive(Clone, Copy, Debug, PartialEq, Eq)]
pub struct Event {
    pub kind: Kind,
    pub worker: u64,
    pub code: u64,
    pub a: u64,
    pub b: u64,
}

// Why no more records are used.
#[derive(Clone, Copy, Debug, PartialEq, Eq)]
pub enum Stop {
    // no byte is left
    Ended,
    // fewer than 8 bytes are left
    Cut,
    // no such mark
    Unknown,
    // no room for five more words
    NoRoom,
}

// How many records were decoded, and why no more: a fill has both.
#[derive(Clone, Copy, Debug, PartialEq, Eq)]
pub struct Filled {
    pub records: usize,
    pub stop: Stop,
}

// The bytes of a record, and the words of an event.
const RECORD_BYTES: usize = 8;

pub const EVENT_WORDS: usize = 5;

impl From<Kind> for u64 {
    ghost from_gives = { λ kind n. n ≡ kind_number kind };

    fn from(kind: Kind) -> u64 {
        kind as u64
    }
}

// The marks are SU, MV, EN and DI, here as numbers of two bytes in the order in which they stand.
impl TryFrom<[u8; 2]> for Kind {
    type Error = Stop;

    ghost try_from_gives = { λ mark r. known r ≡ marked_by mark };

    #[tactic(auto, unfolding(crate::specs::Records::kind_of, crate::specs::Records::is_mark, answers::specs::Rows::all, answers::specs::Rows::first))]
    fn try_from(mark: [u8; 2]) -> Result<Kind, Stop> {
        match u16::from_be_bytes(mark) {
            0x5355 => Ok(Kind::Request),
            0x4D56 => Ok(Kind::Move),
            0x454E => Ok(Kind::On),
            0x4449 => Ok(Kind::Off),
            _ => Err(Stop::Unknown),
        }
    }
}

// An unknown kind is refused with 4.
impl TryFrom<[u64; EVENT_WORDS]> for Event {
    type Error = Refusal;

    ghost try_from_gives = { λ words r. heard r ≡ spelled_by words };

    fn try_from(words: [u64; EVENT_WORDS]) -> Result<Event, Refusal> {
        let [number, worker, code, a, b] = words;
        let kind = match number {
            1 => Kind::Request,
            2 => Kind::Move,
            3 => Kind::On,
            4 => Kind::Off,
            _ => return Err(Refusal::NoSuch),
        };
        Ok(Event {
            kind,
            worker,
            code,
            a,
            b,
        })
    }
}

// The number of two bytes, low first.
fn two_bytes(low: u8, high: u8) -> u64
    ensures { result ≡ two_bytes low high }
{
    u64::from(u16::from_le_bytes([low, high]))
}

// What stands at a place: an event, or why none does.
pub fn decode(bytes: &[u8], at: usize) -> Result<Event, Stop>
    ensures { read result ≡ decode_at bytes.now at }
{
    if bytes.len() <= at {
        return Err(Stop::Ended);
    }
    if bytes.len() - at < RECORD_BYTES {
        return Err(Stop::Cut);
    }
    let kind = Kind::try_from([bytes[at], bytes[at + 1]])?;
    Ok(Event {
        kind,
        worker: u64::from(bytes[at + 2]),
        code: u64::from(bytes[at + 3]),
        a: two_bytes(bytes[at + 4], bytes[at + 5]),
        b: two_bytes(bytes[at + 6], bytes[at + 7]),
    })
}

// Writes an event's five words from to on, each to its place: a copy of five words is slower.
fn put(words: &mut [u64], to: usize, event: Event)
    requires { to + 5 ≤ length words.old }
    ensures { words.new ≡ put_event words.old to (words_of event) }
{
    words[to] = u64::from(event.kind);
    words[to + 1] = event.worker;
    words[to + 2] = event.code;
    words[to + 3] = event.a;
    words[to + 4] = event.b;
}

// Puts the event of record k behind the k before it, or says why that cannot be.
fn fill_one(bytes: &[u8], events: &mut [u64], k: usize) -> Result<(), Stop>
    requires { (8 * k ≤ length bytes.now) × (5 * k ≤ length events.old) }
    ensures { turned k result events.new ≡ next bytes.now (filling k going events.old) }
{
    let event = decode(bytes, RECORD_BYTES * k)?;
    let to = EVENT_WORDS * k;
    if events.len() - to < EVENT_WORDS {
        return Err(Stop::NoRoom);
    }
    put(events, to, event);
    Ok(())
}

// Decodes the records from the start of bytes to five words each: kind, worker, code, a, b. It stops where the bytes
// end, at a cut record, at an unknown mark, or where five more words have no room. The first 8 * records bytes are
// used. No `for` counts the records, since the stop that ends them is part of the result.
pub fn fill(bytes: &[u8], events: &mut [u64]) -> Filled
    ensures { came result events.new ≡ fill_of bytes.now events.old }
{
    let mut records = 0;
    loop {
        match fill_one(bytes, &mut *events, records) {
            Ok(()) => records += 1,
            Err(stop) => return Filled { records, stop },
        }
    }
}
