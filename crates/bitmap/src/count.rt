// The listed count: the ones of each word summed, bit 0 and the bits above n left out.
ghost use Rattle.std.specs.Prelude.{◌≡◌, ◌+◌, ◌%◌, ◌^◌, ◌<◌, get_or};
ghost use Rattle.std.specs.Int.Count.{ones};
ghost use Rattle.bitmap.specs.Bitmap.{bit_put, listed_count};

use crate::word_at;

// The ones of a word.
fn ones_of(word: u64) -> u64
    ensures { result ≡ ones word }
{
    u64::count_ones(word) as u64
}

// The ones among bits 0 to k of a word.
fn ones_to(word: u64, k: u64) -> u64
    requires { k < 64 }
    ensures { result ≡ ones (word % 2 ^ (k + 1)) }
{
    ones_of(word & (!0 >> (63 - k)))
}

// Word w, with bit 0 of the bitmap clear. Its like that sets the bit has another operator.
fn without_zero(bits: &[u64], w: u64) -> u64
    ensures { result ≡ get_or (bit_put bits.now 0 0) w 0 }
{
    if w == 0 {
        word_at(bits, 0) & !1
    } else {
        word_at(bits, w)
    }
}

// How many of the bits 1 to n are set.
pub fn listed_count(bits: &[u64], n: u64) -> u64
    ensures { result ≡ listed_count bits.now n }
{
    let last = n >> 6;
    let mut sum: u64 = 0;
    for w in 0..bits.len() as u64 {
        let word = without_zero(bits, w);
        if w == last {
            return sum + ones_to(word, n & 63);
        }
        sum += ones_of(word);
    }
    sum
}
