// One move of a worker. No public function has a requires.
ghost use Rattle.std.specs.Prelude.{◌≡◌};
ghost use Rattle.page.specs.Page.{lent};
ghost use Rattle.staged.specs.Damage.{turn_of};
ghost use Rattle.staged.specs.Moves.{went, move_of};

use crate::Common;
use crate::damage::is_damaged;
use crate::stages::{exchange, load, mask, swap, write};
use answers::Refusal;
use operations::{EXCHANGING, LOADING, SWAPPING, WRITING, Worker};
use page::Layout;

// Makes one move of a worker, by its stage: None while its operation is under way, its value where it ended. The slices
// are lent apart from the layout, since a move writes the page and only reads the bits.
#[tactic(auto, unfolding(crate::specs::Moves::move_of, crate::specs::Moves::move_refusal, crate::specs::Moves::move_act, answers::specs::Rows::first))]
pub fn make(
    k: &mut Worker,
    common: &mut Common,
    layout: Layout,
    flag: bool,
    page: &mut [u64],
    bits: &[u64],
) -> Result<Option<u64>, Refusal>
    ensures { went layout.n layout.bw result k.new common.new page.new bits.now ≡ move_of (turn_of k.old common.old (lent layout.n layout.bw page.old bits.now)) flag }
{
    if !layout.fits(page.len(), bits.len()) {
        return Err(Refusal::BadPage);
    }
    if !k.is_busy() {
        return Err(Refusal::Idle);
    }
    if is_damaged(k, common, layout, bits) {
        return Err(Refusal::Damaged);
    }
    // the stage is a number of the record, and the damage test has shut out all but the five
    Ok(match k.stage {
        LOADING => load(k, common),
        WRITING => write(k, layout, page),
        EXCHANGING => exchange(k, common, layout, flag),
        SWAPPING => swap(k, common, layout),
        _ => mask(k, common, layout),
    })
}
