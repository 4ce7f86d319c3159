// T switched on and off. No public function has a requires.
ghost use Rattle.std.specs.Prelude.{◌≡◌};
ghost use Rattle.machine.specs.Config.{config, came_told};
ghost use Rattle.machine.specs.Switch.{switch_on_of, switch_off_of};

use crate::State;
use crate::guards::any_busy;
use crate::toggle::{toggle_off, toggle_on};
use answers::Refusal;

// Switches T on: it becomes 0.
#[tactic(auto, unfolding(crate::specs::Switch::switch_on_of, crate::specs::Table::on_refusal, crate::specs::Parts::toggle_on_of, answers::specs::Rows::first))]
pub fn switch_on(state: &mut State, page: &[u64], bits: &[u64]) -> Result<u64, Refusal>
    ensures { came_told result state.new page.now bits.now ≡ switch_on_of (config state.old page.now bits.now) }
{
    if !state.keeps_rules(page, bits) {
        return Err(Refusal::BadPage);
    }
    toggle_on(&mut state.tagged, &mut state.on)
}

// Switches T off: the tag is told, and T becomes 0. A T that holds a list is refused, and not dropped.
#[tactic(auto, unfolding(crate::specs::Switch::switch_off_of, crate::specs::Table::off_refusal, crate::specs::Parts::toggle_off_of, answers::specs::Rows::first))]
pub fn switch_off(state: &mut State, page: &[u64], bits: &[u64]) -> Result<u64, Refusal>
    ensures { came_told result state.new page.now bits.now ≡ switch_off_of (config state.old page.now bits.now) }
{
    if !state.keeps_rules(page, bits) {
        return Err(Refusal::BadPage);
    }
    let busy = any_busy(state);
    toggle_off(busy, &mut state.tagged, &mut state.on)
}
