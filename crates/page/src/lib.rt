// The page: its rules, its addresses, and lists linked inside it. No public function has a requires: whatever numbers
// and slices come, the answer is the definition's.
#![tactic(auto)]

ghost use Rattle.std.specs.Prelude.{◌≡◌, cond, ◌&&◌, ◌/◌, leb, set};
ghost use Rattle.page.specs.Limits.{max_blocks, max_width};
ghost use Rattle.page.specs.Page.{lent, fits_b, workers_b, block_b, run_b, address_of, block_of, link_at, good_b, sound_b};
ghost use Rattle.page.specs.Walk.{walk_of, tally};

pub const MAX_BLOCKS: u64 = 4095;

pub const MAX_WIDTH: u64 = 64;

pub const MAX_WORKERS: u64 = 8;

// Whether there may be w workers.
#[tactic(auto, unfolding(crate::specs::Page::workers_b, answers::specs::Rows::all))]
pub fn workers_fit(w: u64) -> bool
    ensures { result ≡ workers_b w }
{
    1 <= w && w <= MAX_WORKERS
}

// The link at an address; past the page's end 0, which is no block's address.
pub fn link(page: &[u64], h: u64) -> u64
    ensures { result ≡ link_at page.now h }
{
    page.get((h / 8) as usize).copied().unwrap_or(0)
}

// Writes the link at an address; past the page's end nothing changes.
pub fn set_link(page: &mut [u64], h: u64, to: u64)
    ensures { page.new ≡ set page.old (h / 8) to }
{
    let at = (h / 8) as usize;
    if at < page.len() {
        page[at] = to;
    }
}

// What a walk tells where it came to 0: how many blocks it met, and the last of them (0 if none).
#[derive(Clone, Copy, Debug, PartialEq, Eq)]
pub struct Walked {
    pub count: u64,
    pub last: u64,
}

// A page's numbers: n blocks of bw words. It has no invariant: the numbers come from outside, and `fits` tests them.
#[derive(Clone, Copy, Debug, PartialEq, Eq)]
pub struct Layout {
    pub n: u64,
    pub bw: u64,
}

impl Layout {
    // Whether n, bw and the two lengths keep the page rules.
    #[tactic(auto, unfolding(crate::specs::Page::fits_b, answers::specs::Rows::all))]
    pub fn fits(self, page_words: usize, bits_words: usize) -> bool
        ensures { result ≡ fits_b self.n self.bw page_words bits_words }
    {
        if self.n > MAX_BLOCKS || self.bw < 1 || self.bw > MAX_WIDTH {
            return false;
        }
        page_words as u64 == (self.n + 1) * self.bw && bits_words as u64 == (self.n + 64) / 64
    }

    // Whether a is a block's number.
    #[tactic(auto, unfolding(crate::specs::Page::block_b, answers::specs::Rows::all))]
    pub fn is_block(self, a: u64) -> bool
        ensures { result ≡ block_b self.n a }
    {
        1 <= a && a <= self.n
    }

    // Whether a to a+b−1 are blocks' numbers, one at least. No sum is made that could wrap.
    #[tactic(auto, unfolding(crate::specs::Page::run_b, crate::specs::Page::block_b, answers::specs::Rows::all))]
    pub fn is_run(self, a: u64, b: u64) -> bool
        ensures { result ≡ run_b self.n a b }
    {
        if !self.is_block(a) || b < 1 {
            return false;
        }
        b - 1 <= self.n - a
    }

    // The address of block a; 0 where a or bw is past its limit. No Option: a head is a word, and 0 means none.
    pub fn address(self, a: u64) -> u64
        ensures { result ≡ cond (leb self.bw max_width && leb a max_blocks) (address_of self.bw a) 0 }
    {
        if self.bw > MAX_WIDTH || a > MAX_BLOCKS {
            return 0;
        }
        8 * (a * self.bw)
    }

    // The block at an address; 0, which is no block, where bw is past its limits.
    pub fn block(self, h: u64) -> u64
        ensures { result ≡ cond (leb 1 self.bw && leb self.bw max_width) (block_of self.bw h) 0 }
    {
        if self.bw < 1 || self.bw > MAX_WIDTH {
            return 0;
        }
        h / (8 * self.bw)
    }

    // Whether h is the address of a block.
    pub fn good(self, h: u64) -> bool
        ensures { result ≡ good_b self.n self.bw h }
    {
        if self.bw < 1 || self.bw > MAX_WIDTH {
            return false;
        }
        let size = 8 * self.bw;
        let i = h / size;
        self.is_block(i) && i * size == h
    }

    // Whether h is 0, or the address of a block whose bit is set.
    #[tactic(auto, unfolding(crate::specs::Page::sound_b))]
    pub fn sound(self, bits: &[u64], h: u64) -> bool
        ensures { result ≡ sound_b self.n self.bw bits.now h }
    {
        h == 0 || self.good(h) && bitmap::is_set(bits, self.block(h))
    }

    // Walks a list from its head; None where it does not come to 0. It stops at n blocks: a ring would go on for ever.
    pub fn walk(self, head: u64, page: &[u64], bits: &[u64]) -> Option<Walked>
        ensures { result ≡ tally 0 0 (walk_of (lent self.n self.bw page.now bits.now) head) }
    {
        let mut h = head;
        let mut last = 0;
        for count in 0..=self.n {
            if h == 0 {
                return Some(Walked { count, last });
            }
            if !self.sound(bits, h) {
                return None;
            }
            last = self.block(h);
            h = link(page, h);
        }
        None
    }
}
