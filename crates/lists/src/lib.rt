// Upstream's LL over two heads and the two lent slices. Each method takes the page's numbers and the slices, and
// changes the heads in place. No public function has a requires: each refuses by document 01's numbers, the smallest
// first, and a refusal changes nothing. Page and bitmap are lent apart, since each call writes one of them, both or
// none.
#![tactic(auto)]

ghost use Rattle.std.specs.Prelude.{◌≡◌};
ghost use Rattle.lists.specs.Lists.{lists, came};
ghost use Rattle.lists.specs.Own.{insert_of, pop_of, append_of, extend_of, release_of, empty_of};

use answers::Refusal;
use page::{Layout, link, set_link};

mod clear;
mod lay;

// The head of an empty list.
pub fn new() -> u64
    ensures { result ≡ 0 }
{
    0
}

// The head of an empty list, by upstream's other name.
pub fn empty() -> u64
    ensures { result ≡ 0 }
{
    new()
}

// The heads of a worker's two lists: addresses, as the page's words hold them, where 0 means none.
#[derive(Clone, Copy, Debug, PartialEq, Eq)]
pub struct Heads {
    pub own: u64,
    pub got: u64,
}

impl Heads {
    // Puts block a at the front of own: its link becomes the old head, and its bit is set. Done has value 0.
    pub fn insert_block(
        &mut self,
        layout: Layout,
        page: &mut [u64],
        bits: &mut [u64],
        a: u64,
    ) -> Result<u64, Refusal>
        ensures { came layout.n layout.bw result self.new page.new bits.new
            ≡ insert_of (lists self.old.own self.old.got layout.n layout.bw page.old bits.old) a }
    {
        if !layout.fits(page.len(), bits.len()) {
            return Err(Refusal::BadPage);
        }
        if !layout.is_block(a) {
            return Err(Refusal::NoSuch);
        }
        if bitmap::is_set(&*bits, a) {
            return Err(Refusal::Listed);
        }
        if !layout.sound(&*bits, self.own) {
            return Err(Refusal::Damaged);
        }
        let head = layout.address(a);
        set_link(&mut *page, head, self.own);
        bitmap::set(&mut *bits, a);
        self.own = head;
        Ok(0)
    }

    // Takes own's front block: its bit is cleared, and its link becomes the head. No page word changes.
    pub fn pop_block(
        &mut self,
        layout: Layout,
        page: &[u64],
        bits: &mut [u64],
    ) -> Result<u64, Refusal>
        ensures { came layout.n layout.bw result self.new page.now bits.new
            ≡ pop_of (lists self.old.own self.old.got layout.n layout.bw page.now bits.old) }
    {
        if !layout.fits(page.len(), bits.len()) {
            return Err(Refusal::BadPage);
        }
        if self.own == 0 {
            return Err(Refusal::NoneLeft);
        }
        if !layout.sound(&*bits, self.own) {
            return Err(Refusal::Damaged);
        }
        let next = link(page, self.own);
        if !layout.sound(&*bits, next) {
            return Err(Refusal::Damaged);
        }
        let front = layout.block(self.own);
        bitmap::clear(&mut *bits, front);
        self.own = next;
        Ok(front)
    }

    // Puts got before own: the link of got's last block becomes own's head, and got becomes empty.
    pub fn append(&mut self, layout: Layout, page: &mut [u64], bits: &[u64]) -> Result<u64, Refusal>
        ensures { came layout.n layout.bw result self.new page.new bits.now
            ≡ append_of (lists self.old.own self.old.got layout.n layout.bw page.old bits.now) }
    {
        if !layout.fits(page.len(), bits.len()) {
            return Err(Refusal::BadPage);
        }
        if self.got == 0 {
            return Ok(0);
        }
        if !layout.sound(bits, self.own) {
            return Err(Refusal::Damaged);
        }
        let taken = layout.walk(self.got, &*page, bits).ok_or(Refusal::Damaged)?;
        set_link(&mut *page, layout.address(taken.last), self.own);
        self.own = self.got;
        self.got = 0;
        Ok(taken.count)
    }

    // Puts blocks a, a+1, .. a+b−1 before own, in ascending order, and sets their bits.
    pub fn prepend_contiguous_blocks(
        &mut self,
        layout: Layout,
        page: &mut [u64],
        bits: &mut [u64],
        a: u64,
        b: u64,
    ) -> Result<u64, Refusal>
        ensures { came layout.n layout.bw result self.new page.new bits.new
            ≡ extend_of (lists self.old.own self.old.got layout.n layout.bw page.old bits.old) a b }
    {
        if !layout.fits(page.len(), bits.len()) {
            return Err(Refusal::BadPage);
        }
        if !layout.is_run(a, b) {
            return Err(Refusal::NoSuch);
        }
        if bitmap::runs::any_set(&*bits, a, b) {
            return Err(Refusal::Listed);
        }
        if !layout.sound(&*bits, self.own) {
            return Err(Refusal::Damaged);
        }
        self.own = lay::lay(&mut *page, layout, a, b, self.own);
        bitmap::runs::set_run(&mut *bits, a, b);
        Ok(b)
    }

    // Clears the bits of all own blocks and empties own.
    pub fn make_empty(
        &mut self,
        layout: Layout,
        page: &[u64],
        bits: &mut [u64],
    ) -> Result<u64, Refusal>
        ensures { came layout.n layout.bw result self.new page.now bits.new
            ≡ release_of (lists self.old.own self.old.got layout.n layout.bw page.now bits.old) }
    {
        if !layout.fits(page.len(), bits.len()) {
            return Err(Refusal::BadPage);
        }
        let met = layout.walk(self.own, page, &*bits).ok_or(Refusal::Damaged)?;
        clear::clear_met(self.own, met.count, layout, page, &mut *bits);
        self.own = 0;
        Ok(met.count)
    }

    // Answers 1 if own is empty, else 0, document 01's values. It looks at the head alone.
    #[tactic(auto, unfolding(crate::specs::Own::empty_of, crate::specs::Own::empty_refusal, crate::specs::Own::empty_act, answers::specs::Rows::first))]
    pub fn is_empty(&self, layout: Layout, page: &[u64], bits: &[u64]) -> Result<u64, Refusal>
        ensures { came layout.n layout.bw result self.now page.now bits.now
            ≡ empty_of (lists self.now.own self.now.got layout.n layout.bw page.now bits.now) }
    {
        if !layout.fits(page.len(), bits.len()) {
            return Err(Refusal::BadPage);
        }
        Ok(u64::from(self.own == 0))
    }
}
