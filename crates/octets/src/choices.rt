// One of two values, by a test. A function that decides several things one after the other calls this: each `if` of its own would double the ways
// through it.
ghost use Rattle.std.specs.Prelude.{◌≡◌, cond};

pub fn either<T: Drop>(test: bool, yes: T, no: T) -> T
    ensures { result ≡ cond test yes no }
{
    if test { yes } else { no }
}
