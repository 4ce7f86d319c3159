// Blocks laid before a list, for `prepend_contiguous_blocks`.
ghost use Rattle.std.specs.Prelude.{◌≡◌, ◌+◌, ◌≤◌};
ghost use Rattle.page.specs.Limits.{max_blocks, max_width};
ghost use Rattle.page.specs.Page.{place};
ghost use Rattle.page.specs.Sequences.{up_from, head_of, laid};

use page::{Layout, set_link};

// Writes the links of blocks a to a+b−1, the last to own; the head. Laid from the last down, each is an insert.
pub fn lay(page: &mut [u64], layout: Layout, a: u64, b: u64, own: u64) -> u64
    requires { (a + b ≤ max_blocks + 1) × (layout.bw ≤ max_width) }
    ensures { (result ≡ head_of (place layout.bw) own (up_from a b))
        × (page.new ≡ laid (place layout.bw) page.old own (up_from a b)) }
{
    let mut head = own;
    for i in (a..a + b).rev() {
        let at = layout.address(i);
        set_link(&mut *page, at, head);
        head = at;
    }
    head
}
