// A worker's part of a request: its record, the switch and the lent slices. The page rules and the worker are tested
// before. Code, a and b stand side by side, as a host and the words of an event hand them in.
ghost use Rattle.std.specs.Prelude.{◌≡◌};
ghost use Rattle.page.specs.Page.{lent};
ghost use Rattle.lists.specs.Lists.{lists, came};
ghost use Rattle.operations.specs.Operations.{busy_b};
ghost use Rattle.machine.specs.Table.{arguments_fit_b};
ghost use Rattle.machine.specs.Config.{with_heads};
ghost use Rattle.machine.specs.Parts.{asker, answered, came_at_once, on_lists, at_once_of, ask_lists_of, ask_of, heads_in, meant, number_of, numbered};

use answers::Refusal;
use lists::Heads;
use operations::{AWAIT_TAG, PUSH_SHARED, Worker, is_staged};
use page::Layout;
use staged::start::{start, start_fits};
use std::convert::TryFrom;

// The requests that act at once, by their numbers.
#[derive(Clone, Copy, Debug, PartialEq, Eq)]
pub enum AtOnce {
    Insert = 1,
    Pop = 2,
    Append = 3,
    Extend = 4,
    Release = 5,
    AskEmpty = 13,
}

// Any other number is refused with 4.
impl TryFrom<u64> for AtOnce {
    type Error = Refusal;

    ghost try_from_gives = { λ code r. meant r ≡ numbered code };

    fn try_from(code: u64) -> Result<AtOnce, Refusal> {
        Ok(match code {
            1 => AtOnce::Insert,
            2 => AtOnce::Pop,
            3 => AtOnce::Append,
            4 => AtOnce::Extend,
            5 => AtOnce::Release,
            13 => AtOnce::AskEmpty,
            _ => return Err(Refusal::NoSuch),
        })
    }
}

// Whether a request has the block or the run that it asks for.
#[tactic(auto, unfolding(crate::specs::Table::arguments_fit_b, operations::specs::Operations::staged_b))]
fn arguments_fit(layout: Layout, request: AtOnce, a: u64, b: u64) -> bool
    ensures { result ≡ arguments_fit_b layout.n (number_of request) a b }
{
    match request {
        AtOnce::Insert => layout.is_block(a),
        AtOnce::Extend => layout.is_run(a, b),
        AtOnce::Pop | AtOnce::Append | AtOnce::Release | AtOnce::AskEmpty => true,
    }
}

// The requests that act at once on own and got.
#[tactic(auto, unfolding(crate::specs::Parts::at_once_of))]
fn at_once(
    heads: &mut Heads,
    layout: Layout,
    page: &mut [u64],
    bits: &mut [u64],
    request: AtOnce,
    a: u64,
    b: u64,
) -> Result<u64, Refusal>
    ensures { came layout.n layout.bw result heads.new page.new bits.new ≡ at_once_of (lists heads.old.own heads.old.got layout.n layout.bw page.old bits.old) (number_of request) a b }
{
    match request {
        AtOnce::Insert => heads.insert_block(layout, page, bits, a),
        AtOnce::Pop => heads.pop_block(layout, page, bits),
        AtOnce::Append => heads.append(layout, page, bits),
        AtOnce::Extend => heads.prepend_contiguous_blocks(layout, page, bits, a, b),
        AtOnce::Release => heads.make_empty(layout, page, bits),
        AtOnce::AskEmpty => heads.is_empty(layout, page, bits),
    }
}

// Refused with 4 or 5, or it acts at once on own and got.
#[tactic(auto, unfolding(crate::specs::Parts::ask_lists_of))]
fn act(
    k: &mut Worker,
    layout: Layout,
    page: &mut [u64],
    bits: &mut [u64],
    request: AtOnce,
    a: u64,
    b: u64,
) -> Result<u64, Refusal>
    ensures lists { came layout.n layout.bw result (heads_in k.new) page.new bits.new ≡ ask_lists_of (busy_b k.old) (lists k.old.own k.old.got layout.n layout.bw page.old bits.old) (number_of request) a b }
    ensures record { k.new ≡ with_heads k.old k.new.own k.new.got }
{
    if !arguments_fit(layout, request, a, b) {
        return Err(Refusal::NoSuch);
    }
    if k.is_busy() {
        return Err(Refusal::Busy);
    }
    let mut heads = Heads {
        own: k.own,
        got: k.got,
    };
    let answer = at_once(&mut heads, layout, page, bits, request, a, b);
    k.own = heads.own;
    k.got = heads.got;
    answer
}

// For a request that is none of 6 to 12, by its code: refused with 4 or 5, or it acts at once on own and got. Asked for
// one of those, which `start` starts, it makes the tests of the table and then looks at own as 13 does.
#[tactic(auto, unfolding(crate::specs::Parts::ask_lists_of, crate::specs::Parts::at_once_of, crate::specs::Table::arguments_fit_b, operations::specs::Operations::staged_b))]
pub fn ask_lists(
    k: &mut Worker,
    layout: Layout,
    page: &mut [u64],
    bits: &mut [u64],
    code: u64,
    a: u64,
    b: u64,
) -> Result<u64, Refusal>
    ensures { came_at_once layout.n layout.bw result k.new page.new bits.new ≡ on_lists (busy_b k.old) (asker k.old (lent layout.n layout.bw page.old bits.old)) code a b }
{
    let request = if is_staged(code) {
        let fitting = start_fits(layout, code, a).then_some(AtOnce::AskEmpty);
        fitting.ok_or(Refusal::NoSuch)?
    } else {
        AtOnce::try_from(code)?
    };
    act(k, layout, page, bits, request, a, b)
}

// A request, decided by its code: 1 to 5 and 13 act at once, 6 to 12 start, and there is no other.
#[tactic(auto, unfolding(crate::specs::Parts::ask_of, crate::specs::Parts::ask_lists_of, crate::specs::Table::arguments_fit_b, operations::specs::Operations::staged_b))]
pub fn ask(
    k: &mut Worker,
    layout: Layout,
    on: bool,
    page: &mut [u64],
    bits: &mut [u64],
    code: u64,
    a: u64,
    b: u64,
) -> Result<Option<u64>, Refusal>
    ensures { answered layout.n layout.bw result k.new page.new bits.new ≡ ask_of on (asker k.old (lent layout.n layout.bw page.old bits.old)) code a b }
{
    match code {
        1..=5 | 13 => ask_lists(k, layout, page, bits, code, a, b).map(Some),
        PUSH_SHARED..=AWAIT_TAG => {
            start(k, layout, on, bits, code, a)?;
            Ok(None)
        }
        _ => Err(Refusal::NoSuch),
    }
}
