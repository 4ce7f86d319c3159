// Tagged words: an address, a multiple of 4, and a tag of 0 to 3 in the two low bits. The six helpers keep upstream's
// names. No public function has a requires: a tag above 3 or an address that is no multiple of 4 is refused.
#![tactic(auto)]

ghost use Rattle.std.specs.Prelude.{◌≡◌, ◌+◌, eqb};
ghost use Rattle.answers.specs.Refusals.{told};
ghost use Rattle.words.specs.Tagged.{address_of, tag_of, use_delayed_free, freeing, set_ptr_of, set_delay_of};

use answers::Refusal;

// The tags. They are numbers, not an enum: a tag is handed in as any number, and told as the value of a call.
pub const USE_DELAYED_FREE: u64 = 0;

pub const FREEING: u64 = 1;

pub const NO_DELAYED_FREE: u64 = 2;

pub const NEVER_DELAYED_FREE: u64 = 3;

// The two low bits, where the tag stands.
const TAG: u64 = 3;

// Whether the tag is 0.
pub fn masked_ptr_delay_get_is_use_delayed(v: u64) -> bool
    ensures { result ≡ eqb (tag_of v) use_delayed_free }
{
    v & TAG == USE_DELAYED_FREE
}

// The tag of a word.
pub fn masked_ptr_delay_get_delay(v: u64) -> u64
    ensures { result ≡ tag_of v }
{
    v & TAG
}

// The address part of a word.
pub fn masked_ptr_delay_get_ptr(v: u64) -> u64
    ensures { result ≡ address_of v }
{
    v & !TAG
}

// The word with another address and its own tag.
pub fn masked_ptr_delay_set_ptr(v: u64, address: u64) -> Result<u64, Refusal>
    ensures { told result ≡ set_ptr_of v address }
{
    if address & TAG != 0 {
        return Err(Refusal::NoSuch);
    }
    Ok(address | (v & TAG))
}

// The word with its own address and tag 1.
pub fn masked_ptr_delay_set_freeing(v: u64) -> u64
    ensures { result ≡ address_of v + freeing }
{
    v & !TAG | FREEING
}

// The word with its own address and another tag.
pub fn masked_ptr_delay_set_delay(v: u64, tag: u64) -> Result<u64, Refusal>
    ensures { told result ≡ set_delay_of v tag }
{
    if tag > TAG {
        return Err(Refusal::NoSuch);
    }
    Ok(v & !TAG | tag)
}
