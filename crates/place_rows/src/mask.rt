// Sets of places of a grid.
ghost use Rattle.std.specs.Prelude.{◌≡◌, ℕ, ◌<◌, ◌≤◌, ◌&&◌, ◌||◌, not, true, false, length, get_or};
ghost use Rattle.grid_code.specs.Masked.{any};

/// A set of places of a grid, which has at most 17 columns of 17 places.
#[derive(Clone, Copy)]
pub struct Mask {
    pub places: [bool; 289],
}

/// Whether both hold.
pub fn both(a: bool, b: bool) -> bool
    ensures { result ≡ (a && b) }
{
    a && b
}

fn either(a: bool, b: bool) -> bool
    ensures { result ≡ (a || b) }
{
    a || b
}

impl Mask {
    /// All places.
    pub fn full() -> Mask
        ensures { (i : ℕ) → i < 289 → get_or result.places i false ≡ true }
    {
        Mask {
            places: [true; 289],
        }
    }

    /// No place.
    pub fn none() -> Mask
        ensures long { length result.places ≡ 289 }
        ensures each { (i : ℕ) → get_or result.places i false ≡ false }
    {
        Mask {
            places: [false; 289],
        }
    }

    /// Whether a place is in it.
    pub fn any(&self, count: usize) -> bool
        requires { count ≤ 289 }
        ensures { result ≡ any count (λ i. get_or self.now.places i false) }
    {
        for place in 0..count {
            if self.places[place] {
                return true;
            }
        }
        false
    }

    /// The places that are in both.
    pub fn and(&self, other: &Mask, count: usize) -> Mask
        requires { count ≤ 289 }
        ensures { (i : ℕ) → i < count → get_or result.places i false ≡ (get_or self.now.places i false && get_or other.now.places i false) }
    {
        let mut mask = Mask::none();
        for place in 0..count {
            mask.places[place] = both(self.places[place], other.places[place]);
        }
        mask
    }

    /// The places that are in this one alone.
    pub fn without(&self, other: &Mask, count: usize) -> Mask
        requires { count ≤ 289 }
        ensures { (i : ℕ) → i < count → get_or result.places i false ≡ (get_or self.now.places i false && not (get_or other.now.places i false)) }
    {
        let mut mask = Mask::none();
        for place in 0..count {
            mask.places[place] = both(self.places[place], !other.places[place]);
        }
        mask
    }

    /// The places that are in one of them.
    pub fn or(&self, other: &Mask, count: usize) -> Mask
        requires { count ≤ 289 }
        ensures { (i : ℕ) → i < count → get_or result.places i false ≡ (get_or self.now.places i false || get_or other.now.places i false) }
    {
        let mut mask = Mask::none();
        for place in 0..count {
            mask.places[place] = either(self.places[place], other.places[place]);
        }
        mask
    }
}
