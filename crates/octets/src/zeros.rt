// Zeros in a slice of bytes: whether all behind a place are, and so many stored from a place on.
ghost use Rattle.std.specs.Prelude.{◌≡◌, replicate};
ghost use Rattle.std.proofs.lemmas.List.Edits.{sets};
ghost use Rattle.octets.specs.Zeros.{zeros_from};

// Whether every byte from a place on is 0. With no way out of the loop the machine looks at many bytes at once.
pub fn zeros_from(s: &[u8], at: usize) -> bool
    ensures { result ≡ zeros_from at s.now }
{
    let mut ok = true;
    for byte in &s[at.min(s.len())..] {
        ok = ok & (*byte == 0);
    }
    ok
}

// So many zeros from a place on, as far as there is room.
pub fn put_zeros(out: &mut [u8], at: usize, count: usize)
    ensures { out.new ≡ sets out.old at (replicate count 0) }
{
    if out.len() <= at {
        return;
    }
    let n = count.min(out.len() - at);
    out[at..at + n].fill(0);
}
