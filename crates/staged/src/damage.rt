// When a move finds its operation damaged: one test for each case, and all of them.
ghost use Rattle.std.specs.Prelude.{◌≡◌, List, ℕ};
ghost use Rattle.page.specs.Page.{lent};
ghost use Rattle.staged.specs.Damage.{turn_of, hand_bad, tag_bad, sightings_bad, tag_on_shared, head_bad, seen_bad, damaged_b};

use crate::{Common, MAX_SIGHTINGS, MAX_TAG};
use operations::choice::is_one_of;
use operations::{
    ASK_TAG, EXCHANGING, LOADING, MASKING, SET_TAG, SWAPPING, WRITING, Worker, is_full, is_off,
    is_paired, on_shared, pushes,
};
use page::Layout;
use words::{masked_ptr_delay_get_delay, masked_ptr_delay_get_ptr};

// For 6 and 8, whether the block in hand is not 1 to n or its bit is clear.
#[tactic(auto, unfolding(crate::specs::Damage::hand_bad))]
fn hand_bad(k: &Worker, layout: Layout, bits: &[u64]) -> bool
    ensures { result ≡ hand_bad layout.n bits.now k.now }
{
    pushes(k.operation) && (!layout.is_block(k.hand) || !bitmap::is_set(bits, k.hand))
}

// For S, whether a word has a tag.
#[tactic(auto, unfolding(crate::specs::Damage::tag_on_shared))]
fn tag_on_shared(operation: u64, word: u64) -> bool
    ensures { result ≡ tag_on_shared operation word }
{
    on_shared(operation) && masked_ptr_delay_get_delay(word) != 0
}

// At write or exchange, whether the word seen is neither 0 nor good; for S, whether it has a tag.
#[tactic(auto, unfolding(crate::specs::Damage::seen_bad))]
fn seen_bad(k: &Worker, layout: Layout) -> bool
    ensures { result ≡ seen_bad layout.n layout.bw k.now }
{
    let address = masked_ptr_delay_get_ptr(k.seen);
    is_one_of(k.stage, [WRITING, EXCHANGING])
        && (address != 0 && !layout.good(address) || tag_on_shared(k.operation, k.seen))
}

// At load, swap or masking, whether the head is not sound; for S, whether it has a tag.
#[tactic(auto, unfolding(crate::specs::Damage::head_bad))]
fn head_bad(k: &Worker, layout: Layout, word: u64, bits: &[u64]) -> bool
    ensures { result ≡ head_bad layout.n layout.bw bits.now k.now word }
{
    is_one_of(k.stage, [LOADING, SWAPPING, MASKING])
        && (!layout.sound(bits, masked_ptr_delay_get_ptr(word)) || tag_on_shared(k.operation, word))
}

// For 11, whether the sightings are above 4.
#[tactic(auto, unfolding(crate::specs::Damage::sightings_bad))]
fn sightings_bad(k: &Worker) -> bool
    ensures { result ≡ sightings_bad k.now }
{
    k.operation == ASK_TAG && MAX_SIGHTINGS < k.sightings
}

// For 10, whether the wanted tag is above 3.
#[tactic(auto, unfolding(crate::specs::Damage::tag_bad))]
fn tag_bad(k: &Worker) -> bool
    ensures { result ≡ tag_bad k.now }
{
    k.operation == SET_TAG && MAX_TAG < k.tag
}

// Whether a move finds its operation damaged, whatever stands in the page.
#[tactic(auto, unfolding(crate::specs::Damage::damaged_b, crate::specs::Damage::any))]
pub fn is_damaged(k: &Worker, common: &Common, layout: Layout, bits: &[u64]) -> bool
    ensures { (page : List ℕ) → result ≡ damaged_b (turn_of k.now common.now (lent layout.n layout.bw page bits.now)) }
{
    !is_paired(k.operation, k.stage)
        || hand_bad(k, layout, bits)
        || seen_bad(k, layout)
        || head_bad(k, layout, common.head(k.operation), bits)
        || is_off(k.operation, common.on)
        || sightings_bad(k)
        || tag_bad(k)
        || is_full(k.operation, k.got)
}
