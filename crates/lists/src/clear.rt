// The bits of a list's blocks cleared, for `make_empty`.
ghost use Rattle.std.specs.Prelude.{◌≡◌, ◌≤◌};
ghost use Rattle.page.specs.Limits.{max_width};
ghost use Rattle.lists.specs.Own.{clear_all, blocks_from};

use page::{Layout, link};

// Clears the bits of the first count blocks from head on. The width's limits are asked for, since a layout's numbers
// may be any.
pub fn clear_met(head: u64, count: u64, layout: Layout, page: &[u64], bits: &mut [u64])
    requires { (1 ≤ layout.bw) × (layout.bw ≤ max_width) }
    ensures { bits.new ≡ clear_all bits.old (blocks_from layout.bw page.now count head) }
{
    let mut h = head;
    for _ in 0..count {
        bitmap::clear(&mut *bits, layout.block(h));
        h = link(page, h);
    }
}
