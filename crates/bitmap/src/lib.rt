// A bitmap in lent words: block i is bit i mod 64 of word i / 64. No public function has a requires: a bit past the
// slice's end is not set, and putting one changes nothing.
#![tactic(auto)]

ghost use Rattle.std.specs.Prelude.{◌≡◌, eqb, get_or};
ghost use Rattle.bitmap.specs.Bitmap.{bit_at, bit_put};

pub mod count;
pub mod first;
pub mod runs;

// Word w; past the slice's end 0, where no bit is set.
fn word_at(bits: &[u64], w: u64) -> u64
    ensures { result ≡ get_or bits.now w 0 }
{
    bits.get(w as usize).copied().unwrap_or(0)
}

// Whether bit i is set.
pub fn is_set(bits: &[u64], i: u64) -> bool
    ensures { result ≡ eqb (bit_at bits.now i) 1 }
{
    (word_at(bits, i >> 6) >> (i & 63)) & 1 == 1
}

// Sets bit i.
pub fn set(bits: &mut [u64], i: u64)
    ensures { bits.new ≡ bit_put bits.old i 1 }
{
    let w = (i >> 6) as usize;
    if w < bits.len() {
        bits[w] |= 1 << (i & 63);
    }
}

// Clears bit i. One function with `set` would choose between two operators, and each caller knows which it wants.
pub fn clear(bits: &mut [u64], i: u64)
    ensures { bits.new ≡ bit_put bits.old i 0 }
{
    let w = (i >> 6) as usize;
    if w < bits.len() {
        bits[w] &= !(1 << (i & 63));
    }
}
