// Sets of slots as masks: slot i is in the set where bit i of the mask is set.
ghost use Rattle.std.specs.Prelude.{◌≡◌, ◌&&◌, ◌-◌, leb};
ghost use Rattle.slot_sets.specs.Sets.{slots_of, has, union, minus, count, is_empty, disjoint, firsts, lowest, without_highest};

// How many slots.
pub fn size(m: u64) -> u32
    ensures { result ≡ count (slots_of m) }
{
    u64::count_ones(m)
}

pub fn is_empty(m: u64) -> bool
    ensures { result ≡ is_empty (slots_of m) }
{
    m == 0
}

// No mask has a slot past 63.
pub fn holds(m: u64, i: u32) -> bool
    ensures { result ≡ has (slots_of m) i }
{
    if i < 64 { (m >> i) & 1 == 1 } else { false }
}

// A mask without its lowest slot. A mask and one less differ from its lowest slot down.
fn dropped(m: u64) -> u64
    ensures { count (slots_of result) ≡ count (slots_of m) - 1 }
{
    if 0 < m {
        return m & (m - 1);
    }
    0
}

// Whether there are 1 to 4 slots: to drop four is less work than to count all.
pub fn one_to_four(m: u64) -> bool
    ensures { result ≡ (leb 1 (count (slots_of m)) && leb (count (slots_of m)) 4) }
{
    let more = dropped(dropped(dropped(dropped(m))));
    !is_empty(m) & is_empty(more)
}

// Whether no slot is in both.
pub fn apart(a: u64, b: u64) -> bool
    ensures { result ≡ disjoint (slots_of a) (slots_of b) }
{
    a & b == 0
}

pub fn joined(a: u64, b: u64) -> u64
    ensures { slots_of result ≡ union (slots_of a) (slots_of b) }
{
    a | b
}

// The slots of a that are not in b.
pub fn without(a: u64, b: u64) -> u64
    ensures { slots_of result ≡ minus (slots_of a) (slots_of b) }
{
    a & !b
}

// The slots below d. A shift by 64 would trap, and no slot is left out there.
pub fn below(d: u32) -> u64
    ensures { slots_of result ≡ firsts d }
{
    if 64 <= d {
        return u64::MAX;
    }
    let next = 1u64 << d;
    next - 1
}

// The k lowest slots, or all where there are fewer. A mask and one less differ from its lowest slot down, so a turn drops that slot; what
// has been dropped at the end is the answer. Where none is left, no further turn is made.
pub fn lowest(m: u64, k: u32) -> u64
    ensures { slots_of result ≡ lowest k (slots_of m) }
{
    let mut left = m;
    for _ in 0..k {
        if left == 0 {
            return m;
        }
        left = left & (left - 1);
    }
    without(m, left)
}

// A mask without its k highest slots, which is to keep the others as its lowest; nothing where there are no more than k.
pub fn released(m: u64, k: u32) -> u64
    ensures { slots_of result ≡ without_highest k (slots_of m) }
{
    let held = size(m);
    if held <= k {
        return 0;
    }
    lowest(m, held - k)
}
