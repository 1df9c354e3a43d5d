// The test of places against an edge, by rows.
ghost use Rattle.std.specs.Prelude.{◌≡◌, ◌≤◌, ◌<◌, ◌^◌, ℕ, ℤ, pos, ◌*ℤ◌, ◌-ℤ◌, unsigned_abs, int_le, length};
ghost use Rattle.lanes.specs.Masks.{mask_of};
ghost use Rattle.lanes.specs.Rows.{at};
ghost use Rattle.lanes.specs.Edges.{spot, spot_of, inside, value_at, least_of, from_step};

#[inline(always)]
fn difference(a: i32, b: i32) -> i64
    requires a { unsigned_abs a ≤ 2 ^ 28 }
    requires b { unsigned_abs b ≤ 2 ^ 28 }
    ensures value { result ≡ a -ℤ b }
    ensures bound { unsigned_abs result ≤ 2 ^ 29 }
{
    a as i64 - b as i64
}

#[inline(always)]
fn product(a: i64, b: i64) -> i64
    requires a { unsigned_abs a ≤ 2 ^ 29 }
    requires b { unsigned_abs b ≤ 2 ^ 29 }
    ensures value { result ≡ a *ℤ b }
    ensures bound { unsigned_abs result ≤ 2 ^ 58 }
{
    a * b
}

// The value of the edge of step (`dx`, `dy`) from (`ax`, `ay`).
#[inline(always)]
fn value_at(ax: i32, ay: i32, dx: i64, dy: i64, x: i32, y: i32) -> i64
    requires from { (unsigned_abs ax ≤ 2 ^ 28) × (unsigned_abs ay ≤ 2 ^ 28) }
    requires step { (unsigned_abs dx ≤ 2 ^ 29) × (unsigned_abs dy ≤ 2 ^ 29) }
    requires place { (unsigned_abs x ≤ 2 ^ 28) × (unsigned_abs y ≤ 2 ^ 28) }
    ensures value { result ≡ value_at ax ay dx dy x y }
    ensures bound { unsigned_abs result ≤ 2 ^ 59 }
{
    let first = product(dx, difference(y, ay));
    let second = product(dy, difference(x, ax));
    first - second
}

// The least value of an edge with this step at a place that is covered: 0 where the edge owns its places, else 1.
#[inline(always)]
fn least_of(dx: i64, dy: i64) -> i64
    ensures { result ≡ least_of dx dy }
{
    if dy < 0 || dy == 0 && 0 < dx { 0 } else { 1 }
}

// The mask of one place, by the least value of a covered one.
#[inline(always)]
#[tactic(auto, unfolding(crate::specs::Edges::from_step))]
fn mask_at(ax: i32, ay: i32, dx: i64, dy: i64, least: i64, x: i32, y: i32) -> i32
    requires from { (unsigned_abs ax ≤ 2 ^ 28) × (unsigned_abs ay ≤ 2 ^ 28) }
    requires step { (unsigned_abs dx ≤ 2 ^ 29) × (unsigned_abs dy ≤ 2 ^ 29) }
    requires least { least ≡ least_of dx dy }
    requires place { (unsigned_abs x ≤ 2 ^ 28) × (unsigned_abs y ≤ 2 ^ 28) }
    ensures { result ≡ from_step ax ay dx dy x y }
{
    let value = value_at(ax, ay, dx, dy, x, y);
    if least <= value { -1 } else { 0 }
}

fn edge_from(ax: i32, ay: i32, dx: i64, dy: i64, xs: &[i32], ys: &[i32], out: &mut [i32])
    requires same { (length ys.now ≡ length xs.now) × (length out.old ≡ length xs.now) }
    requires from { (unsigned_abs ax ≤ 2 ^ 28) × (unsigned_abs ay ≤ 2 ^ 28) }
    requires step { (unsigned_abs dx ≤ 2 ^ 29) × (unsigned_abs dy ≤ 2 ^ 29) }
    requires xs { (i : ℕ) → unsigned_abs (at xs.now i) ≤ 2 ^ 28 }
    requires ys { (i : ℕ) → unsigned_abs (at ys.now i) ≤ 2 ^ 28 }
    ensures long { length out.new ≡ length out.old }
    ensures each { (i : ℕ) → i < length xs.now → at out.new i ≡ from_step ax ay dx dy (at xs.now i) (at ys.now i) }
{
    let least = least_of(dx, dy);
    for i in 0..xs.len() {
        out[i] = mask_at(ax, ay, dx, dy, least, xs[i], ys[i]);
    }
}

/// The masks of the places on the inner side of the edge from `a` to `b`, and of those on it where the edge owns them: where it goes
/// up, or to the right along a row. Coordinates have a magnitude of at most 2^28.
pub fn edge(a: [i32; 2], b: [i32; 2], xs: &[i32], ys: &[i32], out: &mut [i32])
    requires same { (length ys.now ≡ length xs.now) × (length out.old ≡ length xs.now) }
    requires a { (i : ℕ) → unsigned_abs (at a i) ≤ 2 ^ 28 }
    requires b { (i : ℕ) → unsigned_abs (at b i) ≤ 2 ^ 28 }
    requires xs { (i : ℕ) → unsigned_abs (at xs.now i) ≤ 2 ^ 28 }
    requires ys { (i : ℕ) → unsigned_abs (at ys.now i) ≤ 2 ^ 28 }
    ensures long { length out.new ≡ length out.old }
    ensures each { (i : ℕ) → i < length xs.now → at out.new i ≡ inside (spot_of a) (spot_of b) (spot (at xs.now i) (at ys.now i)) }
{
    let [ax, ay] = a;
    let [bx, by] = b;
    edge_from(ax, ay, difference(bx, ax), difference(by, ay), xs, ys, out);
}
