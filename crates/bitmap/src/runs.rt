// Runs of bits: the b bits from a on, as far as a number of 64 bits names them. Both stop at the slice's end.
ghost use Rattle.std.specs.Prelude.{◌≡◌};
ghost use Rattle.bitmap.specs.Bitmap.{any_set, put_run, run_length};

use crate::{is_set, set};

// How many of the b numbers from a on a number of 64 bits can name.
fn reach(a: u64, b: u64) -> u64
    ensures { result ≡ run_length a b }
{
    let above = !0 - a;
    if b <= above { b } else { above + 1 }
}

// Whether any bit of the run is set.
pub fn any_set(bits: &[u64], a: u64, b: u64) -> bool
    ensures { result ≡ any_set bits.now a (run_length a b) }
{
    for seen in 0..reach(a, b) {
        let i = a + seen;
        if bits.len() as u64 <= i >> 6 {
            return false;
        }
        if is_set(bits, i) {
            return true;
        }
    }
    false
}

// Sets every bit of the run. What it has in common with the test, how far a run reaches, is `reach`.
pub fn set_run(bits: &mut [u64], a: u64, b: u64)
    ensures { bits.new ≡ put_run bits.old a (run_length a b) 1 }
{
    for done in 0..reach(a, b) {
        let i = a + done;
        if bits.len() as u64 <= i >> 6 {
            return;
        }
        set(&mut *bits, i);
    }
}
