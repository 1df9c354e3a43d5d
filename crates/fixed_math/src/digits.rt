// The digits of a number that count.
ghost use Rattle.std.specs.Prelude.{◌≡◌, ◌<◌, ◌≤◌, ◌^◌, ◌+◌, ◌++◌, ◌∷◌, [], List, ℕ, true};
ghost use Rattle.fixed_math.specs.NumberBytes.{is_digit};

/// The first 18 digits behind leading zeros, as a number, how many these are, and how many come behind them.
#[derive(Clone, Copy)]
pub struct Digits {
    value: u64,
    kept: u32,
    dropped: u64,
    ghost small: { value < 10 ^ kept },
    ghost few: { kept ≤ 18 },
}

impl Digits {
    ghost use Rattle.fixed_math.specs.Digits.{IsDigitsOf};

    pub fn none() -> Digits
        ensures { IsDigitsOf [] result }
    {
        Digits {
            value: 0,
            kept: 0,
            dropped: 0,
        }
    }

    pub fn value(self) -> u64
        ensures { result ≡ self.value }
    {
        self.value
    }

    pub fn dropped(self) -> u64
        ensures { result ≡ self.dropped }
    {
        self.dropped
    }

    /// One more digit.
    pub fn add(self, byte: u8) -> Digits
        requires digit { is_digit byte ≡ true }
        requires room { self.dropped + 1 < 2 ^ 64 }
        ensures more { (ds : List ℕ) → IsDigitsOf ds self → IsDigitsOf (ds ++ byte ∷ []) result }
        ensures dropped { result.dropped ≤ self.dropped + 1 }
    {
        let digit = (byte - b'0') as u64;
        if self.kept == 0 && digit == 0 {
            return self;
        }
        if self.kept >= 18 {
            return Digits {
                value: self.value,
                kept: self.kept,
                dropped: self.dropped + 1,
            };
        }
        Digits {
            value: self.value * 10 + digit,
            kept: self.kept + 1,
            dropped: self.dropped,
        }
    }
}
