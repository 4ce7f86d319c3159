// One function for each stage of a move: what it makes of the record, the two head words and, at write, the page. It
// gives the value where the operation ends, and None while it is under way. What some of them require, the page rules
// and the damage test give.
ghost use Rattle.std.specs.Prelude.{◌≡◌, List, ℕ, Ok, Some, None, ◌≤◌};
ghost use Rattle.page.specs.Limits.{max_blocks, max_width};
ghost use Rattle.page.specs.Page.{Lent, lent};
ghost use Rattle.staged.specs.declared.Common.{Common};
ghost use Rattle.staged.specs.Workers.{rested, saw};
ghost use Rattle.staged.specs.Damage.{turn_of};
ghost use Rattle.staged.specs.Moves.{Fitting, leaves, went, fails_b, new_word, exchange_value, load_ask, load_await, load_act, write_act, exchange_act, swap_act, mask_act};

use crate::{Common, MAX_SIGHTINGS};
use operations::choice::only_if;
use operations::{
    ASK_TAG, EXCHANGING, LOADING, PUSH_SHARED, PUSH_TAGGED, SET_TAG, SWAPPING, TAKE_SHARED,
    WRITING, Worker, on_shared, pushes,
};
use page::Layout;
use words::{
    FREEING, NO_DELAYED_FREE, masked_ptr_delay_get_delay, masked_ptr_delay_get_ptr,
    masked_ptr_delay_set_delay, masked_ptr_delay_set_ptr,
};

// Ended with a value: own and got stay, and every other field is 0.
fn ends(k: &mut Worker, value: u64) -> Option<u64>
    ensures record { k.new ≡ rested k.old }
    ensures value { result ≡ Some value }
{
    *k = Worker::resting(k.own, k.got);
    Some(value)
}

// The word is stored as the word seen, and the next move is another stage.
fn sees(k: &mut Worker, word: u64, stage: u64) -> Option<u64>
    ensures record { k.new ≡ saw k.old word stage }
    ensures under_way { result ≡ None }
{
    k.stage = stage;
    k.seen = word;
    None
}

// A load of 11: tag 1 is a sighting, and the fifth ends it; tag 2 goes to an exchange; any other tag ends it.
#[tactic(auto, unfolding(crate::specs::Moves::load_ask))]
fn load_ask(k: &mut Worker, word: u64) -> Option<u64>
    ensures { (c : Common) (l : Lent) → leaves (Ok result) k.new c l ≡ load_ask (turn_of k.old c l) word }
{
    match masked_ptr_delay_get_delay(word) {
        FREEING if MAX_SIGHTINGS <= k.sightings => ends(k, 0),
        FREEING => {
            k.sightings += 1;
            sees(k, word, LOADING)
        }
        NO_DELAYED_FREE => sees(k, word, EXCHANGING),
        _ => ends(k, 1),
    }
}

// A load of 12: tag 1 loads again, any other tag is the value.
#[tactic(auto, unfolding(crate::specs::Moves::load_await))]
fn load_await(k: &mut Worker, word: u64) -> Option<u64>
    ensures { (c : Common) (l : Lent) → leaves (Ok result) k.new c l ≡ load_await (turn_of k.old c l) word }
{
    match masked_ptr_delay_get_delay(word) {
        FREEING => sees(k, word, LOADING),
        tag => ends(k, tag),
    }
}

// Loads the head word. It is stored as the word seen unless it ends the operation.
#[tactic(auto, unfolding(crate::specs::Moves::load_act, operations::specs::Operations::pushes_b))]
pub fn load(k: &mut Worker, common: &Common) -> Option<u64>
    ensures { (l : Lent) → leaves (Ok result) k.new common.now l ≡ load_act (turn_of k.old common.now l) }
{
    let word = common.head(k.operation);
    match k.operation {
        PUSH_SHARED | PUSH_TAGGED => sees(k, word, WRITING),
        TAKE_SHARED if word == 0 => ends(k, 0),
        TAKE_SHARED => sees(k, word, SWAPPING),
        SET_TAG => sees(k, word, EXCHANGING),
        ASK_TAG => load_ask(k, word),
        _ => load_await(k, word),
    }
}

// Writes the link of the block in hand: the address part of the word seen.
#[tactic(auto, using(crate::proofs::StageArms::placed), unfolding(crate::specs::Moves::write_act))]
pub fn write(k: &mut Worker, layout: Layout, page: &mut [u64]) -> Option<u64>
    requires { (layout.bw ≤ max_width) × (k.old.hand ≤ max_blocks) }
    ensures { (c : Common) (bits : List ℕ) → went layout.n layout.bw (Ok result) k.new c page.new bits ≡ write_act (turn_of k.old c (lent layout.n layout.bw page.old bits)) }
{
    let link = masked_ptr_delay_get_ptr(k.seen);
    page::set_link(page, layout.address(k.hand), link);
    k.stage = EXCHANGING;
    None
}

// Whether an exchange fails: the flag is set, or the head differs from the word seen.
#[tactic(auto, unfolding(crate::specs::Moves::fails_b))]
fn fails(head: u64, seen: u64, flag: bool) -> bool
    ensures { result ≡ fails_b head seen flag }
{
    flag || head != seen
}

// The new head: a push's block with the tag seen, or the address seen with the tag wanted.
fn new_word(k: &Worker, layout: Layout) -> u64
    requires { Fitting k.now layout.bw }
    ensures { result ≡ new_word k.now layout.bw }
{
    if pushes(k.operation) {
        masked_ptr_delay_set_ptr(k.seen, layout.address(k.hand)).unwrap()
    } else {
        masked_ptr_delay_set_delay(k.seen, only_if(k.operation == SET_TAG, k.tag)).unwrap()
    }
}

// The value of an exchange: 1 for 11, else the tag before.
#[tactic(auto, unfolding(crate::specs::Moves::exchange_value))]
fn exchange_value(k: &Worker) -> u64
    ensures { result ≡ exchange_value k.now }
{
    if k.operation == ASK_TAG {
        1
    } else {
        masked_ptr_delay_get_delay(k.seen)
    }
}

// Exchanges the head. Where that fails, only the stage changes: the next move loads again.
#[tactic(auto, unfolding(crate::specs::Moves::exchange_act))]
pub fn exchange(k: &mut Worker, common: &mut Common, layout: Layout, flag: bool) -> Option<u64>
    requires { Fitting k.old layout.bw }
    ensures { (page bits : List ℕ) → went layout.n layout.bw (Ok result) k.new common.new page bits ≡ exchange_act (turn_of k.old common.old (lent layout.n layout.bw page bits)) flag }
{
    if fails(common.head(k.operation), k.seen, flag) {
        k.stage = LOADING;
        return None;
    }
    let word = new_word(k, layout);
    if on_shared(k.operation) {
        common.shared = word;
    } else {
        common.tagged = word;
    }
    let value = exchange_value(k);
    ends(k, value)
}

// Takes S: got becomes what was there, and S 0.
#[tactic(auto, using(page::proofs::Rules::block_within), unfolding(crate::specs::Moves::swap_act))]
pub fn swap(k: &mut Worker, common: &mut Common, layout: Layout) -> Option<u64>
    requires { (1 ≤ layout.bw) × (layout.bw ≤ max_width) }
    ensures { (page bits : List ℕ) → went layout.n layout.bw (Ok result) k.new common.new page bits ≡ swap_act (turn_of k.old common.old (lent layout.n layout.bw page bits)) }
{
    let head = common.shared;
    common.shared = 0;
    k.got = head;
    ends(k, layout.block(head))
}

// Takes T: got becomes the address part, and T keeps only its tag.
#[tactic(auto, using(page::proofs::Rules::block_within), unfolding(crate::specs::Moves::mask_act))]
pub fn mask(k: &mut Worker, common: &mut Common, layout: Layout) -> Option<u64>
    requires { (1 ≤ layout.bw) × (layout.bw ≤ max_width) }
    ensures { (page bits : List ℕ) → went layout.n layout.bw (Ok result) k.new common.new page bits ≡ mask_act (turn_of k.old common.old (lent layout.n layout.bw page bits)) }
{
    let address = masked_ptr_delay_get_ptr(common.tagged);
    common.tagged = masked_ptr_delay_get_delay(common.tagged);
    k.got = address;
    ends(k, layout.block(address))
}
