// T switched on and off: its word and its switch alone, which the state lends one beside the other. The page rules are
// tested before.
ghost use Rattle.std.specs.Prelude.{◌≡◌};
ghost use Rattle.machine.specs.Parts.{toggles, toggle_on_of, toggle_off_of};

use answers::Refusal;
use words::{masked_ptr_delay_get_delay, masked_ptr_delay_get_ptr};

// Switches T on; its word becomes 0. Done has value 0.
#[tactic(auto, unfolding(crate::specs::Parts::toggle_on_of))]
pub fn toggle_on(tagged: &mut u64, on: &mut bool) -> Result<u64, Refusal>
    ensures { toggles result tagged.new on.new ≡ toggle_on_of tagged.old on.old }
{
    if *on {
        return Err(Refusal::Switched);
    }
    *tagged = 0;
    *on = true;
    Ok(0)
}

// Switches T off, unless a worker is busy or T's address part is not 0; the tag is the value, and the word becomes 0.
#[tactic(auto, unfolding(crate::specs::Parts::toggle_off_of))]
pub fn toggle_off(busy: bool, tagged: &mut u64, on: &mut bool) -> Result<u64, Refusal>
    ensures { toggles result tagged.new on.new ≡ toggle_off_of busy tagged.old on.old }
{
    if busy {
        return Err(Refusal::Busy);
    }
    if !*on {
        return Err(Refusal::Switched);
    }
    if masked_ptr_delay_get_ptr(*tagged) != 0 {
        return Err(Refusal::NotEmpty);
    }
    let tag = masked_ptr_delay_get_delay(*tagged);
    *tagged = 0;
    *on = false;
    Ok(tag)
}
