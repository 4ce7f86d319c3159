// The fresh start. No public function has a requires.
ghost use Rattle.std.specs.Prelude.{◌≡◌};
ghost use Rattle.machine.specs.Config.{came_fresh, came_told, fresh_of};

use crate::State;
use crate::guards::rules;
use answers::Refusal;
use page::Layout;

// A fresh state over a zeroed bitmap. Refused, it writes nothing.
#[tactic(auto, unfolding(crate::specs::Config::fresh_of, crate::specs::Config::rules_b))]
pub fn fresh(layout: Layout, w: u64, page: &[u64], bits: &mut [u64]) -> Result<State, Refusal>
    ensures { came_fresh result page.now bits.new ≡ fresh_of layout.n layout.bw w page.now bits.old }
{
    if !rules(layout, w, page.len(), bits.len()) {
        return Err(Refusal::BadPage);
    }
    bits.fill(0);
    Ok(State::at_rest(layout, w))
}

// The same with the state beside the answer, for a host that keeps one either way: refused, its numbers are all 0.
#[tactic(auto, unfolding(crate::specs::Config::fresh_of))]
pub fn fresh_or_zero(
    layout: Layout,
    w: u64,
    page: &[u64],
    bits: &mut [u64],
) -> (State, Result<u64, Refusal>)
    ensures { came_told result.1 result.0 page.now bits.new ≡ fresh_of layout.n layout.bw w page.now bits.old }
{
    match fresh(layout, w, page, bits) {
        Ok(state) => (state, Ok(0)),
        Err(refusal) => (State::at_rest(Layout { n: 0, bw: 0 }, 0), Err(refusal)),
    }
}
