// The whole machine over a State, the page and the bitmap. No public function has a requires: each refuses by document
// 01's numbers, the smallest first, and a refusal changes nothing. Page and bitmap are lent apart, as a host lends
// them.
#![tactic(auto)]

ghost use Rattle.std.specs.Prelude.{◌≡◌};
ghost use Rattle.machine.specs.Config.{common_of, config, fresh_state, layout_of, rules_b};

use crate::guards::rules;
use operations::Worker;
use page::Layout;
use staged::Common;

pub mod ask;
pub mod fresh;
pub mod guards;
pub mod moves;
pub mod request;
pub mod switch;
pub mod toggle;

// The worker records that a state has: as many as there may be workers.
pub const RECORDS: usize = 8;

// The state: the page's numbers, the shared head, the tagged word and its switch, and the worker records. Its fields
// stand side by side, as the theorems of `demands` name them; any numbers may stand in them.
#[derive(Clone, Copy)]
pub struct State {
    pub n: u64,
    pub bw: u64,
    pub w: u64,
    pub shared: u64,
    pub tagged: u64,
    pub on: bool,
    pub workers: [Worker; RECORDS],
}

impl State {
    // Heads 0, T off, workers idle.
    pub fn at_rest(layout: Layout, w: u64) -> State
        ensures { result ≡ fresh_state layout.n layout.bw w }
    {
        State {
            n: layout.n,
            bw: layout.bw,
            w,
            shared: 0,
            tagged: 0,
            on: false,
            workers: [Worker::resting(0, 0); RECORDS],
        }
    }

    // The page's numbers.
    pub fn layout(&self) -> Layout
        ensures { result ≡ layout_of self.now }
    {
        Layout {
            n: self.n,
            bw: self.bw,
        }
    }

    // Whether n, bw, W and the lengths of the slices keep the page rules.
    #[tactic(auto, unfolding(crate::specs::Config::rules_b))]
    pub fn keeps_rules(&self, page: &[u64], bits: &[u64]) -> bool
        ensures { result ≡ rules_b (config self.now page.now bits.now) }
    {
        rules(self.layout(), self.w, page.len(), bits.len())
    }

    // What the workers share.
    pub fn common(&self) -> Common
        ensures { result ≡ common_of self.now }
    {
        Common {
            shared: self.shared,
            tagged: self.tagged,
            on: self.on,
        }
    }
}
