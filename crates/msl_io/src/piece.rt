ghost use Rattle.std.specs.Prelude.{◌≡◌, ◌+◌, ◌≤◌, ◌<◌, [], ◌∷◌, ◌++◌, length, decimal};
ghost use Rattle.std.specs.Fmt.{signed_decimal};

use itoa::write_digits;
use std::marker::Model;

/// How many bytes a piece may have.
pub const SIZE: usize = 320;

/// Text that is to be written in one piece, seen as its bytes, at most 320. It takes no memory.
#[derive(Drop)]
pub struct Piece {
    bytes: [u8; SIZE],
    len: usize,
}

impl Model for Piece {
    ghost use Rattle.std.specs.Prelude.{ℕ, List, take, ◌≤◌};

    ghost Value = { List ℕ };

    ghost view = { λ p. take p.len p.bytes };

    ghost invariant = { λ p. p.len ≤ 320 };
}

impl Piece {
    /// The empty text.
    pub fn new() -> Piece
        ensures { result ≡ [] }
    {
        Piece {
            bytes: [0; SIZE],
            len: 0,
        }
    }

    /// The text.
    pub fn as_slice(&self) -> &[u8]
        ensures { result.now ≡ self.now }
    {
        &self.bytes[..self.len]
    }

    /// Makes the text empty.
    pub fn clear(&mut self)
        ensures { self.new ≡ [] }
    {
        self.len = 0;
    }

    /// Appends a byte.
    pub fn push(&mut self, byte: u8)
        requires { length self.old < 320 }
        ensures text { self.new ≡ self.old ++ byte ∷ [] }
        ensures size { length self.new ≡ length self.old + 1 }
    {
        self.bytes[self.len] = byte;
        self.len += 1;
    }

    /// Appends bytes.
    pub fn push_bytes(&mut self, bytes: &[u8])
        requires { length self.old + length bytes.now ≤ 320 }
        ensures text { self.new ≡ self.old ++ bytes.now }
        ensures size { length self.new ≡ length self.old + length bytes.now }
    {
        let end = self.len + bytes.len();
        self.bytes[self.len..end].copy_from_slice(bytes);
        self.len = end;
    }

    /// Appends a number in decimal, which has at most 20 bytes, and at most 2 where it is below 100.
    pub fn push_decimal(&mut self, n: u64)
        requires { length self.old + 20 ≤ 320 }
        ensures text { self.new ≡ self.old ++ decimal n }
        ensures short { length self.new ≤ length self.old + 20 }
        ensures small { n < 100 → length self.new ≤ length self.old + 2 }
    {
        self.push_digits(n);
    }

    /// Appends a signed number in decimal, which has at most 20 bytes.
    #[inline(always)]
    pub fn push_number(&mut self, x: &i64)
        requires { length self.old + 20 ≤ 320 }
        ensures text { self.new ≡ self.old ++ signed_decimal x.now }
        ensures short { length self.new ≤ length self.old + 20 }
    {
        if *x < 0 {
            self.push(b'-');
        }
        self.push_digits(x.unsigned_abs());
    }

    // Appends a number in decimal.
    #[inline(always)]
    fn push_digits(&mut self, n: u64)
        requires { length self.old + length (decimal n) ≤ 320 }
        ensures text { self.new ≡ self.old ++ decimal n }
        ensures size { length self.new ≡ length self.old + length (decimal n) }
    {
        let end = self.len + digit_count(n);
        write_digits(n, &mut self.bytes, end);
        self.len = end;
    }
}

// How many digits a number has in decimal.
#[inline]
fn digit_count(n: u64) -> usize
    ensures { result ≡ length (decimal n) }
{
    match n.checked_ilog10() {
        Some(power) => power as usize + 1,
        None => 1,
    }
}
