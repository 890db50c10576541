// A number that bytes hold, the lowest first: read from a place of a slice and stored at one, at each of four widths. A byte past the end is read as 0, and
// never written. Where all bytes are there, no test stands between them, and the machine reads or stores them at once.
// Kept: a `read` for each width, which is made of narrower ones; one for all would be a loop with a test for each byte.
ghost use Rattle.std.specs.Prelude.{◌≡◌, ℕ, ◌+◌, ◌<◌, ◌≤◌, length};
ghost use Rattle.std.proofs.lemmas.List.Edits.{sets};
ghost use Rattle.octets.specs.Numbers.{num, digits};

use crate::numbers::put_number;

pub trait Stored {
    // how many bytes, and the number that they say
    ghost width: { ℕ };

    ghost number: { Self → ℕ };

    fn read(s: &[u8], at: usize) -> Self
        ensures { number result ≡ num width s.now at };

    fn store(self, out: &mut [u8], at: usize)
        ensures { out.new ≡ sets out.old at (digits width (number self)) };
}

// A byte that is there.
fn byte(s: &[u8], at: usize) -> u32
    requires { at < length s.now }
    ensures { (result ≡ num 1 s.now at) × (result ≤ 255) }
{
    u32::from(s[at])
}

// The number in four bytes that are all there.
fn whole(s: &[u8], at: usize) -> u32
    requires { at + 4 ≤ length s.now }
    ensures { result ≡ num 4 s.now at }
{
    byte(s, at) + byte(s, at + 1) * 256 + byte(s, at + 2) * 65536 + byte(s, at + 3) * 16777216
}

// The same, stored.
fn store_whole(out: &mut [u8], at: usize, value: u32)
    requires { at + 4 ≤ length out.old }
    ensures { (out.new ≡ sets out.old at (digits 4 value)) × (length out.new ≡ length out.old) }
{
    let second = value / 256;
    let third = second / 256;
    let fourth = third / 256;
    out[at] = (value % 256) as u8;
    out[at + 1] = (second % 256) as u8;
    out[at + 2] = (third % 256) as u8;
    out[at + 3] = (fourth % 256) as u8;
}

impl Stored for u8 {
    ghost width = { 1 };

    ghost number = { λ n. n };

    fn read(s: &[u8], at: usize) -> u8
        ensures { result ≡ num 1 s.now at }
    {
        if at < s.len() { s[at] } else { 0 }
    }

    fn store(self, out: &mut [u8], at: usize)
        ensures { out.new ≡ sets out.old at (digits 1 self) }
    {
        if out.len() <= at {
            return;
        }
        out[at] = self;
    }
}

impl Stored for u16 {
    ghost width = { 2 };

    ghost number = { λ n. n };

    fn read(s: &[u8], at: usize) -> u16
        ensures { result ≡ num 2 s.now at }
    {
        let n = s.len();
        if n <= at {
            return 0;
        }
        if 2 <= n - at {
            return (byte(s, at) + byte(s, at + 1) * 256) as u16;
        }
        u16::from(u8::read(s, at))
    }

    fn store(self, out: &mut [u8], at: usize)
        ensures { out.new ≡ sets out.old at (digits 2 self) }
    {
        let n = out.len();
        if n <= at {
            return;
        }
        if n - at < 2 {
            put_number(out, at, 2, u64::from(self));
            return;
        }
        out[at] = (self % 256) as u8;
        out[at + 1] = (self / 256) as u8;
    }
}

impl Stored for u32 {
    ghost width = { 4 };

    ghost number = { λ n. n };

    fn read(s: &[u8], at: usize) -> u32
        ensures { result ≡ num 4 s.now at }
    {
        let n = s.len();
        if n <= at {
            return 0;
        }
        if 4 <= n - at {
            return whole(s, at);
        }
        u32::from(u16::read(s, at)) + u32::from(u16::read(s, at + 2)) * 65536
    }

    fn store(self, out: &mut [u8], at: usize)
        ensures { out.new ≡ sets out.old at (digits 4 self) }
    {
        let n = out.len();
        if n <= at {
            return;
        }
        if n - at < 4 {
            put_number(out, at, 4, u64::from(self));
            return;
        }
        store_whole(out, at, self);
    }
}

impl Stored for u64 {
    ghost width = { 8 };

    ghost number = { λ n. n };

    fn read(s: &[u8], at: usize) -> u64
        ensures { result ≡ num 8 s.now at }
    {
        let n = s.len();
        if n <= at {
            return 0;
        }
        if 8 <= n - at {
            return u64::from(whole(s, at)) + u64::from(whole(s, at + 4)) * 4294967296;
        }
        u64::from(u32::read(s, at)) + u64::from(u32::read(s, at + 4)) * 4294967296
    }

    fn store(self, out: &mut [u8], at: usize)
        ensures { out.new ≡ sets out.old at (digits 8 self) }
    {
        let n = out.len();
        if n <= at {
            return;
        }
        if n - at < 8 {
            put_number(out, at, 8, self);
            return;
        }
        store_whole(out, at, (self % 4294967296) as u32);
        store_whole(out, at + 4, (self / 4294967296) as u32);
    }
}
