// Remainders from 0 to m - 1.

ghost use Rattle.std.specs.Prelude.{◌≡◌, pos, ◌≤ℤ◌, ◌<ℤ◌, ◌+ℤ◌, ◌*ℤ◌};
ghost use Rattle.std.specs.Int.{int_rem_euclid};
ghost use Rattle.msl_base.specs.declared.limits.TheConstants.{GREATEST_MODULUS};

pub fn modulo(x: i128, m: i128) -> i128
    requires { pos 1 ≤ℤ m }
    ensures { result ≡ int_rem_euclid x m }
{
    x.rem_euclid(m)
}

pub fn sum_modulo(a: i128, b: i128, m: i128) -> i128
    requires a { (pos 0 ≤ℤ a) × (a <ℤ m) }
    requires b { (pos 0 ≤ℤ b) × (b <ℤ m) }
    requires m { m ≤ℤ GREATEST_MODULUS }
    ensures { result ≡ int_rem_euclid (a +ℤ b) m }
{
    modulo(a + b, m)
}

pub fn product_modulo(a: i128, b: i128, m: i128) -> i128
    requires a { (pos 0 ≤ℤ a) × (a <ℤ m) }
    requires b { (pos 0 ≤ℤ b) × (b <ℤ m) }
    requires m { m ≤ℤ GREATEST_MODULUS }
    ensures { result ≡ int_rem_euclid (a *ℤ b) m }
{
    modulo(a * b, m)
}
