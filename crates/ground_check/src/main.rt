// Worked examples of words and bits, run and proved: document 01's P2 and P3, refusals, and the edges of a bitmap.
#![tactic(auto, unfolding(words::specs::Digits::digit, words::specs::Digits::put_digit, words::specs::Tagged::set_ptr_of, words::specs::Tagged::set_delay_of, bitmap::specs::Bitmap::bit_at, bitmap::specs::Bitmap::bit_put, bitmap::specs::Bitmap::listed_count, bitmap::specs::Bitmap::first_from, bitmap::specs::Bitmap::any_from, bitmap::specs::Bitmap::put_run))]

use answers::{Answer, Refusal};
use bitmap::count::listed_count;
use bitmap::first::first_unlisted;
use bitmap::runs::{any_set, set_run};
use bitmap::{clear, is_set, set};
use check::expect;

fn main() {
    splits();
    joins();
    refusals();
    tests();
    sets();
    clears();
    past_end();
    counts();
    firsts();
    runs();
}

// A word is an address and a tag (P2).
fn splits() {
    expect(words::masked_ptr_delay_get_ptr(99) == 96);
    expect(words::masked_ptr_delay_get_delay(99) == 3);
    expect(words::masked_ptr_delay_get_is_use_delayed(96));
}

// A tag (P3: 1 on 98) or an address put into a word.
fn joins() {
    expect(words::masked_ptr_delay_set_freeing(98) == 97);
    let tagged = words::masked_ptr_delay_set_delay(98, 3);
    expect(tagged == Ok(99));
    expect(Answer::from(tagged).number == 0);
    expect(Answer::from(tagged).value == 99);
    let moved = words::masked_ptr_delay_set_ptr(99, 64);
    expect(moved == Ok(67));
    expect(Answer::from(moved).number == 0);
    expect(Answer::from(moved).value == 67);
}

// A tag above 3, and an address that is no multiple of 4.
fn refusals() {
    let tagged = words::masked_ptr_delay_set_delay(98, 4);
    expect(tagged == Err(Refusal::NoSuch));
    expect(Answer::from(tagged).number == 4);
    expect(Answer::from(tagged).value == 0);
    let moved = words::masked_ptr_delay_set_ptr(97, 98);
    expect(moved == Err(Refusal::NoSuch));
    expect(Answer::from(moved).number == 4);
    expect(Answer::from(moved).value == 0);
    expect(u64::from(Refusal::NoSuch) == 4);
}

// Bits of three words, and past their end.
fn tests() {
    let bits = [5u64, 0, 1 << 63];
    expect(is_set(&bits, 2));
    expect(!is_set(&bits, 1));
    expect(is_set(&bits, 191));
    expect(!is_set(&bits, 192));
}

// A bit set is set, and its neighbour is not.
fn sets() {
    let mut bits = [0u64; 2];
    set(&mut bits, 65);
    expect(is_set(&bits, 65));
    expect(!is_set(&bits, 64));
}

// A bit cleared is clear, and its neighbour is not.
fn clears() {
    let mut bits = [0u64, 6];
    clear(&mut bits, 65);
    expect(!is_set(&bits, 65));
    expect(is_set(&bits, 66));
}

// A bit past the end is not set.
fn past_end() {
    let mut bits = [1u64; 1];
    set(&mut bits, 64);
    expect(!is_set(&bits, 64));
    expect(is_set(&bits, 0));
}

// Bit 0 and the bits above n are not counted.
fn counts() {
    let bits = [7u64, 6, !0];
    expect(listed_count(&bits, 65) == 3);
    expect(listed_count(&bits, 63) == 2);
    expect(listed_count(&bits, 0) == 0);
    expect(listed_count(&bits[..0], 9) == 0);
}

// Full words are stepped over; past the end the first block is unlisted.
fn firsts() {
    let bits = [!0u64, !0, 3];
    expect(first_unlisted(&bits, 200) == Some(130));
    expect(first_unlisted(&bits, 129) == None);
    expect(first_unlisted(&bits[..2], 128) == Some(128));
    expect(first_unlisted(&bits[..0], 9) == Some(1));
}

// A run is set and seen, ends where it ends, and stops at the slice's end.
fn runs() {
    let mut bits = [0u64; 2];
    set_run(&mut bits, 62, 4);
    expect(any_set(&bits, 65, 9));
    expect(!any_set(&bits, 66, 99));
    expect(!any_set(&bits, 0, 62));
    expect(listed_count(&bits, 127) == 4);
}
