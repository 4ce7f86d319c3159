// The five readers, over the page's numbers, W and the two slices, which stand side by side as a host lends them. None
// changes anything, and none has a requires.
#![tactic(auto)]

ghost use Rattle.std.specs.Prelude.{◌≡◌};
ghost use Rattle.answers.specs.Refusals.{told};
ghost use Rattle.page.specs.Page.{lent};
ghost use Rattle.machine.specs.Readers.{listed_count_of, first_unlisted_of, entry_refusal, entry_of, entry_answer_of, equal_leading, compare_refusal, compare_of};
ghost use Rattle.readers.specs.Parts.{readable};

use answers::Refusal;
use machine::guards::rules;
use page::Layout;

// How many blocks are listed.
#[tactic(auto, unfolding(machine::specs::Readers::listed_count_of, machine::specs::Readers::reads_b, answers::specs::Rows::first))]
pub fn listed_count(layout: Layout, w: u64, page: &[u64], bits: &[u64]) -> Result<u64, Refusal>
    ensures { told result ≡ listed_count_of (lent layout.n layout.bw page.now bits.now) w }
{
    if !rules(layout, w, page.len(), bits.len()) {
        return Err(Refusal::BadPage);
    }
    Ok(bitmap::count::listed_count(bits, layout.n))
}

// The smallest block that is not listed.
#[tactic(auto, unfolding(machine::specs::Readers::first_unlisted_of, machine::specs::Readers::reads_b, answers::specs::Rows::first))]
pub fn first_unlisted(layout: Layout, w: u64, page: &[u64], bits: &[u64]) -> Result<u64, Refusal>
    ensures { told result ≡ first_unlisted_of (lent layout.n layout.bw page.now bits.now) w }
{
    if !rules(layout, w, page.len(), bits.len()) {
        return Err(Refusal::BadPage);
    }
    bitmap::first::first_unlisted(bits, layout.n).ok_or(Refusal::NoneLeft)
}

// Whether the entry of a block may be read: 2, 4 or 9 where it may not.
#[tactic(auto, unfolding(machine::specs::Readers::entry_refusal, machine::specs::Readers::reads_b, answers::specs::Rows::first))]
fn entry_readable(layout: Layout, w: u64, page: &[u64], bits: &[u64], a: u64) -> Result<(), Refusal>
    ensures { readable result ≡ entry_refusal (lent layout.n layout.bw page.now bits.now) w a }
{
    if !rules(layout, w, page.len(), bits.len()) {
        return Err(Refusal::BadPage);
    }
    if !layout.is_block(a) {
        return Err(Refusal::NoSuch);
    }
    if bitmap::is_set(bits, a) {
        return Err(Refusal::Listed);
    }
    Ok(())
}

// The part of the page after block a's link word, or an empty part where a number applies.
pub fn entry<'a>(layout: Layout, w: u64, page: &'a [u64], bits: &[u64], a: u64) -> &'a [u64]
    ensures { result.now ≡ entry_of (lent layout.n layout.bw page.now bits.now) w a }
{
    match entry_readable(layout, w, page, bits, a) {
        Ok(()) => {
            let from = (a * layout.bw + 1) as usize;
            let end = (a * layout.bw + layout.bw) as usize;
            &page[from..end]
        }
        Err(_) => &page[..0],
    }
}

// Which number applies to block a's entry.
#[tactic(auto, unfolding(machine::specs::Readers::entry_answer_of))]
pub fn entry_answer(
    layout: Layout,
    w: u64,
    page: &[u64],
    bits: &[u64],
    a: u64,
) -> Result<u64, Refusal>
    ensures { told result ≡ entry_answer_of (lent layout.n layout.bw page.now bits.now) w a }
{
    entry_readable(layout, w, page, bits, a)?;
    Ok(0)
}

// How many words are equal before the first that differ. A chain of `zip`, `take_while` and `count` was not found to be
// the definition, which goes word by word.
fn equal_leading(x: &[u64], y: &[u64]) -> u64
    ensures { result ≡ equal_leading x.now y.now }
{
    let both = x.len().min(y.len());
    for i in 0..both {
        if x[i] != y[i] {
            return i as u64;
        }
    }
    both as u64
}

// Whether both entries may be read: 2, 4 or 9 where one may not, the smallest first. For one and for two blocks the
// tests are written out: a number of blocks as a parameter would need loops, and a definition over lists.
#[tactic(auto, unfolding(machine::specs::Readers::compare_refusal, machine::specs::Readers::reads_b, answers::specs::Rows::first))]
fn both_readable(
    layout: Layout,
    w: u64,
    page: &[u64],
    bits: &[u64],
    a: u64,
    b: u64,
) -> Result<(), Refusal>
    ensures { readable result ≡ compare_refusal (lent layout.n layout.bw page.now bits.now) w a b }
{
    if !rules(layout, w, page.len(), bits.len()) {
        return Err(Refusal::BadPage);
    }
    if !layout.is_block(a) || !layout.is_block(b) {
        return Err(Refusal::NoSuch);
    }
    if bitmap::is_set(bits, a) || bitmap::is_set(bits, b) {
        return Err(Refusal::Listed);
    }
    Ok(())
}

// How many leading words of two entries are equal; each entry is handed on as a part.
#[tactic(auto, unfolding(machine::specs::Readers::compare_of))]
pub fn compare_entries(
    layout: Layout,
    w: u64,
    page: &[u64],
    bits: &[u64],
    a: u64,
    b: u64,
) -> Result<u64, Refusal>
    ensures { told result ≡ compare_of (lent layout.n layout.bw page.now bits.now) w a b }
{
    both_readable(layout, w, page, bits, a, b)?;
    let x = entry(layout, w, page, bits, a);
    let y = entry(layout, w, page, bits, b);
    Ok(equal_leading(x, y))
}
