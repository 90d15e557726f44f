ghost use Rattle.std.specs.Prelude.{◌≡◌, ◌+◌, ◌-◌, ◌*◌, ◌⊎◌, List, [], ◌∷◌, ◌++◌, ℕ, min, not, ◌&&◌, take};
ghost use Rattle.std.specs.Int.{IsInRange};
ghost use Rattle.std.specs.Str.Parse.{digits_value};
ghost use Rattle.msl_io.specs.Lines.{number_of};
ghost use Rattle.msl_io.specs.Taking.{is_sign, IsWord, IsDigitsFront, too_great};

// The least magnitude that no number of 64 bits has.
const TOO_GREAT: u64 = (1 << 63) + 1;

/// A word that is being read: a sign or none, and decimal digits.
#[derive(Clone, Copy)]
pub struct Word {
    begun: bool,
    negative: bool,
    digits: bool,
    // at most `TOO_GREAT`
    magnitude: u64,
}

impl Word {
    /// The word with no byte.
    #[inline]
    pub fn none() -> Word
        ensures { IsWord result [] }
    {
        Word {
            begun: false,
            negative: false,
            digits: false,
            magnitude: 0,
        }
    }

    /// The word that is a sign alone.
    #[inline]
    pub fn of_sign(sign: u8) -> Word
        requires { (sign ≡ 43) ⊎ (sign ≡ 45) }
        ensures { IsWord result (sign ∷ []) }
    {
        Word {
            begun: true,
            negative: sign == b'-',
            digits: false,
            magnitude: 0,
        }
    }

    /// Whether the word has a byte.
    #[inline]
    pub fn has_begun(self) -> bool
        ensures { result ≡ self.begun }
    {
        self.begun
    }

    /// Whether the word has no byte, and this is a sign that it may begin with.
    #[inline]
    pub fn may_begin_with(self, b: u8) -> bool
        ensures { result ≡ (not self.begun && is_sign b) }
    {
        !self.begun && (b == b'-' || b == b'+')
    }

    /// The word with the digits at the front of a text, and how many they are.
    #[inline]
    pub fn with_digits(self, text: &[u8]) -> (Word, usize)
        ensures word { (bytes : List ℕ) → IsWord self bytes → IsWord result.0 (bytes ++ take result.1 text.now) }
        ensures front { IsDigitsFront text.now result.1 }
    {
        let (magnitude, n) = append_digits(self.magnitude, text);
        let word = Word {
            begun: self.begun | (n > 0),
            digits: self.digits | (n > 0),
            magnitude,
            ..self
        };
        (word, n)
    }

    /// The number that the word spells, if it spells one.
    #[inline]
    pub fn value(self) -> Option<i64>
        ensures { (bytes : List ℕ) → IsWord self bytes → result ≡ number_of bytes }
    {
        let n = self.magnitude;
        if !self.digits {
            None
        } else if self.negative {
            if n <= 1 << 63 {
                Some((-i128::from(n)) as i64)
            } else {
                None
            }
        } else if n < 1 << 63 {
            Some(n as i64)
        } else {
            None
        }
    }
}

// A magnitude with the digits at the front of a text, and how many they are.
#[inline]
fn append_digits(magnitude: u64, text: &[u8]) -> (u64, usize)
    ensures value { (ds : List ℕ) → magnitude ≡ min (digits_value 10 ds) too_great → result.0 ≡ min (digits_value 10 (ds ++ take result.1 text.now)) too_great }
    ensures front { IsDigitsFront text.now result.1 }
{
    let mut magnitude = magnitude;
    for (i, &b) in text.iter().enumerate() {
        if !b.is_ascii_digit() {
            return (magnitude, i);
        }
        magnitude = append_digit(magnitude, b);
    }
    (magnitude, text.len())
}

// A magnitude with one more digit, which stays at `TOO_GREAT` once it is there.
#[inline]
fn append_digit(magnitude: u64, digit: u8) -> u64
    requires { IsInRange 48 57 digit }
    ensures { (value : ℕ) → magnitude ≡ min value too_great → result ≡ min (value * 10 + (digit - 48)) too_great }
{
    if magnitude <= TOO_GREAT / 10 {
        magnitude * 10 + u64::from(digit - b'0')
    } else {
        TOO_GREAT
    }
}
