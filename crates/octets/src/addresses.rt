// Addresses of units, in frames, rows and arguments.
ghost use Rattle.std.specs.Prelude.{◌≡◌};
ghost use Rattle.octets.specs.Addresses.{address};

pub fn is_address(unit: u16) -> bool
    ensures { result ≡ address unit }
{
    (1 <= unit) & (unit <= 0xFFFE)
}
