// The first unlisted block: full words are stepped over, then the trailing ones of a word counted.
ghost use Rattle.std.specs.Prelude.{◌≡◌, Some, None, cond, leb};
ghost use Rattle.bitmap.specs.Bitmap.{first_unlisted, found, with_zero, FirstClear};

use crate::word_at;

// The lowest clear bit of a word; 64 if there is none.
fn first_clear(word: u64) -> u64
    ensures { FirstClear word result }
{
    u64::trailing_zeros(!word) as u64
}

// Word w, with bit 0 of the bitmap set; the count has it clear, by another operator.
fn with_zero(bits: &[u64], w: u64) -> u64
    ensures { result ≡ with_zero bits.now w }
{
    if w == 0 {
        word_at(bits, 0) | 1
    } else {
        word_at(bits, w)
    }
}

// i if it is at most n.
fn within(i: u64, n: u64) -> Option<u64>
    ensures { result ≡ cond (leb i n) (Some i) None }
{
    if i <= n { Some(i) } else { None }
}

// The smallest of 1 to n whose bit is clear, if there is one. Past the slice's end every bit is clear.
pub fn first_unlisted(bits: &[u64], n: u64) -> Option<u64>
    ensures { result ≡ found (first_unlisted bits.now n) }
{
    for w in 0..=n >> 6 {
        let k = first_clear(with_zero(bits, w));
        if k < 64 {
            return within(w * 64 + k, n);
        }
    }
    None
}
