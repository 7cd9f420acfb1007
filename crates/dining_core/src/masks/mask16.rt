//! A set of numbers below 16.

ghost use Rattle.std.specs.Prelude.{◌≡◌, ◌<◌, ℕ, true, false, ◌&&◌, ◌||◌, not};
ghost use Rattle.bottle_values.specs.Maps.{put};
ghost use Rattle.dining_core.specs.masks.Sets.{IsLeast};
ghost use Rattle.dining_core.specs.masks.Sets.{is_in16, size16};

/// Numbers below 16, each a bit of one word.
#[derive(Clone, Copy, PartialEq, Eq)]
pub struct Mask16 {
    bits: u16,
}

impl Mask16 {
    /// No number.
    pub fn empty() -> Mask16
        ensures { (i : ℕ) → is_in16 result i ≡ false }
    {
        Mask16 { bits: 0 }
    }

    /// Whether it has the number.
    pub fn has(self, k: u32) -> bool
        requires { k < 16 }
        ensures { result ≡ is_in16 self k }
    {
        (self.bits >> k) & 1 == 1
    }

    /// The number is in it from now on, if it is below 16.
    pub fn set(&mut self, k: u32)
        ensures { (i : ℕ) → i < 16 → is_in16 self.new i ≡ put (is_in16 self.old) k true i }
    {
        if k < 16 {
            self.bits |= 1u16 << k;
        }
    }

    /// The number is in it no more.
    pub fn clear(&mut self, k: u32)
        ensures cleared { (i : ℕ) → i < 16 → is_in16 self.new i ≡ put (is_in16 self.old) k false i }
        ensures smaller { k < 16 → is_in16 self.old k ≡ true → size16 self.new < size16 self.old }
    {
        if k < 16 {
            self.bits &= !(1u16 << k);
        }
    }

    /// Whether the number, if it is below 16, is in it from now on.
    pub fn put(&mut self, k: u32, is_in: bool)
        ensures { (i : ℕ) → i < 16 → is_in16 self.new i ≡ put (is_in16 self.old) k is_in i }
    {
        if is_in {
            self.set(k);
        } else {
            self.clear(k);
        }
    }

    /// The numbers that both have.
    pub fn and(self, other: Mask16) -> Mask16
        ensures { (i : ℕ) → is_in16 result i ≡ (is_in16 self i && is_in16 other i) }
    {
        Mask16 {
            bits: self.bits & other.bits,
        }
    }

    /// The numbers that it has and the other one hasn't.
    pub fn and_not(self, other: Mask16) -> Mask16
        ensures { (i : ℕ) → i < 16 → is_in16 result i ≡ (is_in16 self i && not (is_in16 other i)) }
    {
        Mask16 {
            bits: self.bits & !other.bits,
        }
    }

    /// The numbers that one of them has.
    pub fn or(self, other: Mask16) -> Mask16
        ensures { (i : ℕ) → is_in16 result i ≡ (is_in16 self i || is_in16 other i) }
    {
        Mask16 {
            bits: self.bits | other.bits,
        }
    }

    /// The least number, or none where there is none.
    pub fn first(self) -> Option<u32>
        ensures { IsLeast 16 (is_in16 self) result }
    {
        if self.bits == 0 {
            None
        } else {
            Some(self.bits.trailing_zeros())
        }
    }
}
