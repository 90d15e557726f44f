ghost use Rattle.std.specs.Prelude.{◌≡◌};
ghost use Rattle.msl_ops.specs.Gcd.{gcd};

// The greatest common divisor, by Euclid's algorithm.
pub fn gcd(mut a: u64, mut b: u64) -> u64
    ensures { result ≡ gcd a b }
{
    while b != 0 {
        let rest = a % b;
        a = b;
        b = rest;
    }
    a
}
