// What every call asks first: the page rules with W, and whether a worker is busy.
ghost use Rattle.std.specs.Prelude.{◌≡◌, ◌&&◌};
ghost use Rattle.page.specs.Page.{fits_b, workers_b};
ghost use Rattle.machine.specs.Table.{any_busy};

use crate::State;
use page::{Layout, workers_fit};

// Whether n, bw, the two lengths and W keep the page rules.
pub fn rules(layout: Layout, w: u64, page_words: usize, bits_words: usize) -> bool
    ensures { result ≡ (fits_b layout.n layout.bw page_words bits_words && workers_b w) }
{
    layout.fits(page_words, bits_words) && workers_fit(w)
}

// Whether any of the first W workers has an operation under way.
pub fn any_busy(state: &State) -> bool
    ensures { result ≡ any_busy state.now.workers state.now.w }
{
    for (i, k) in state.workers.iter().enumerate() {
        if state.w <= i as u64 {
            return false;
        }
        if k.is_busy() {
            return true;
        }
    }
    false
}
