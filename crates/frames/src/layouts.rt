// The layout of each kind by its type: the widths of its fields, the type's own byte first.
ghost use Rattle.std.specs.Prelude.{◌≡◌};
ghost use Rattle.frames.specs.Layout.{layout_of};

// `count` numbers, `head` bytes in all; the widths past them are 0.
// Kept: an array with its count beside it. A slice would be of a static, whose place no view of an answer fixes; and fixed memory holds no list.
// Kept: a type that is unknown has the layout of no fields, as `layout_of` of specs/ says it. An `Option` would be opened thrice where the type is known.
#[derive(Drop)]
pub struct Layout {
    pub count: u8,
    pub head: u8,
    pub widths: [u8; 15],
}

#[tactic(auto, unfolding(crate::specs::Layout::layout_of))]
pub fn layout_of(code: u8) -> Layout
    ensures { result ≡ layout_of code }
{
    match code {
        0x11 => laid(6, 9, [1, 2, 2, 1, 2, 1, 0, 0, 0, 0, 0, 0, 0, 0, 0]),
        0x21 => laid(5, 7, [1, 2, 1, 2, 1, 0, 0, 0, 0, 0, 0, 0, 0, 0, 0]),
        0x22 => laid(6, 12, [1, 2, 1, 2, 4, 2, 0, 0, 0, 0, 0, 0, 0, 0, 0]),
        0x23 => laid(5, 6, [1, 2, 1, 1, 1, 0, 0, 0, 0, 0, 0, 0, 0, 0, 0]),
        0x24 => laid(5, 6, [1, 2, 1, 1, 1, 0, 0, 0, 0, 0, 0, 0, 0, 0, 0]),
        0x25 => laid(7, 12, [1, 2, 2, 1, 1, 1, 4, 0, 0, 0, 0, 0, 0, 0, 0]),
        0x26 => laid(3, 4, [1, 2, 1, 0, 0, 0, 0, 0, 0, 0, 0, 0, 0, 0, 0]),
        0x31 => laid(4, 8, [1, 2, 1, 4, 0, 0, 0, 0, 0, 0, 0, 0, 0, 0, 0]),
        0x46 => laid(15, 33, [1, 2, 2, 1, 2, 4, 2, 1, 4, 2, 1, 4, 4, 1, 2]),
        0x47 => laid(10, 18, [1, 2, 2, 1, 2, 1, 4, 2, 1, 2, 0, 0, 0, 0, 0]),
        _ => laid(0, 0, [0, 0, 0, 0, 0, 0, 0, 0, 0, 0, 0, 0, 0, 0, 0]),
    }
}

fn laid(count: u8, head: u8, widths: [u8; 15]) -> Layout
    ensures { result ≡ record { count = count; head = head; widths = widths } }
{
    Layout {
        count,
        head,
        widths,
    }
}
