// The operations on rows, by name.
ghost use Rattle.std.specs.Prelude.{◌≡◌, ℕ, ℤ, ◌<◌, length};
ghost use Rattle.std.specs.List.{list_any};
ghost use Rattle.fixed_math.specs.Fixed.{add, sub, mul};
ghost use Rattle.lanes.specs.Rows.{at};
ghost use Rattle.lanes.specs.Kernels.{least, greatest};
ghost use Rattle.lanes.specs.Masks.{less, less_equal, equal, both, either, turned, choose, is_set};

use crate::kernels::{
    Add, And, Equal, Greatest, Least, Less, LessEqual, Multiply, Or, Subtract, Two,
};
use crate::mask;

fn two_rows<K: Two>(a: &[i32], b: &[i32], out: &mut [i32])
    requires same { (length b.now ≡ length a.now) × (length out.old ≡ length a.now) }
    ensures long { length out.new ≡ length out.old }
    ensures each { (i : ℕ) → i < length a.now → at out.new i ≡ K.formula (at a.now i) (at b.now i) }
{
    for i in 0..a.len() {
        out[i] = K::apply(a[i], b[i]);
    }
}

/// The sums, saturated.
pub fn add(a: &[i32], b: &[i32], out: &mut [i32])
    requires same { (length b.now ≡ length a.now) × (length out.old ≡ length a.now) }
    ensures long { length out.new ≡ length out.old }
    ensures each { (i : ℕ) → i < length a.now → at out.new i ≡ add (at a.now i) (at b.now i) }
{
    two_rows::<Add>(a, b, out);
}

/// The differences, saturated.
pub fn sub(a: &[i32], b: &[i32], out: &mut [i32])
    requires same { (length b.now ≡ length a.now) × (length out.old ≡ length a.now) }
    ensures long { length out.new ≡ length out.old }
    ensures each { (i : ℕ) → i < length a.now → at out.new i ≡ sub (at a.now i) (at b.now i) }
{
    two_rows::<Subtract>(a, b, out);
}

/// The products, rounded down and saturated.
pub fn mul(a: &[i32], b: &[i32], out: &mut [i32])
    requires same { (length b.now ≡ length a.now) × (length out.old ≡ length a.now) }
    ensures long { length out.new ≡ length out.old }
    ensures each { (i : ℕ) → i < length a.now → at out.new i ≡ mul (at a.now i) (at b.now i) }
{
    two_rows::<Multiply>(a, b, out);
}

/// The lesser of two at each place.
pub fn min(a: &[i32], b: &[i32], out: &mut [i32])
    requires same { (length b.now ≡ length a.now) × (length out.old ≡ length a.now) }
    ensures long { length out.new ≡ length out.old }
    ensures each { (i : ℕ) → i < length a.now → at out.new i ≡ least (at a.now i) (at b.now i) }
{
    two_rows::<Least>(a, b, out);
}

/// The greater of two at each place.
pub fn max(a: &[i32], b: &[i32], out: &mut [i32])
    requires same { (length b.now ≡ length a.now) × (length out.old ≡ length a.now) }
    ensures long { length out.new ≡ length out.old }
    ensures each { (i : ℕ) → i < length a.now → at out.new i ≡ greatest (at a.now i) (at b.now i) }
{
    two_rows::<Greatest>(a, b, out);
}

/// The masks of `a < b`.
pub fn less(a: &[i32], b: &[i32], out: &mut [i32])
    requires same { (length b.now ≡ length a.now) × (length out.old ≡ length a.now) }
    ensures long { length out.new ≡ length out.old }
    ensures each { (i : ℕ) → i < length a.now → at out.new i ≡ less (at a.now i) (at b.now i) }
{
    two_rows::<Less>(a, b, out);
}

/// The masks of `a <= b`.
pub fn less_equal(a: &[i32], b: &[i32], out: &mut [i32])
    requires same { (length b.now ≡ length a.now) × (length out.old ≡ length a.now) }
    ensures long { length out.new ≡ length out.old }
    ensures each { (i : ℕ) → i < length a.now → at out.new i ≡ less_equal (at a.now i) (at b.now i) }
{
    two_rows::<LessEqual>(a, b, out);
}

/// The masks of `a == b`.
pub fn equal(a: &[i32], b: &[i32], out: &mut [i32])
    requires same { (length b.now ≡ length a.now) × (length out.old ≡ length a.now) }
    ensures long { length out.new ≡ length out.old }
    ensures each { (i : ℕ) → i < length a.now → at out.new i ≡ equal (at a.now i) (at b.now i) }
{
    two_rows::<Equal>(a, b, out);
}

/// The masks that are set where both are.
pub fn and(a: &[i32], b: &[i32], out: &mut [i32])
    requires same { (length b.now ≡ length a.now) × (length out.old ≡ length a.now) }
    ensures long { length out.new ≡ length out.old }
    ensures each { (i : ℕ) → i < length a.now → at out.new i ≡ both (at a.now i) (at b.now i) }
{
    two_rows::<And>(a, b, out);
}

/// The masks that are set where one is.
pub fn or(a: &[i32], b: &[i32], out: &mut [i32])
    requires same { (length b.now ≡ length a.now) × (length out.old ≡ length a.now) }
    ensures long { length out.new ≡ length out.old }
    ensures each { (i : ℕ) → i < length a.now → at out.new i ≡ either (at a.now i) (at b.now i) }
{
    two_rows::<Or>(a, b, out);
}

/// The masks that are set where `a` isn't.
pub fn not(a: &[i32], out: &mut [i32])
    requires same { length out.old ≡ length a.now }
    ensures long { length out.new ≡ length out.old }
    ensures each { (i : ℕ) → i < length a.now → at out.new i ≡ turned (at a.now i) }
{
    for i in 0..a.len() {
        out[i] = mask::not(a[i]);
    }
}

/// The numbers of `a` where the mask is set, else those of `b`.
pub fn select(mask: &[i32], a: &[i32], b: &[i32], out: &mut [i32])
    requires same { (length a.now ≡ length mask.now) × (length b.now ≡ length mask.now) × (length out.old ≡ length mask.now) }
    ensures long { length out.new ≡ length out.old }
    ensures each { (i : ℕ) → i < length mask.now → at out.new i ≡ choose (at mask.now i) (at a.now i) (at b.now i) }
{
    for i in 0..mask.len() {
        out[i] = mask::chosen(mask[i], a[i], b[i]);
    }
}

/// Whether the mask is set at some place.
pub fn any(mask: &[i32]) -> bool
    ensures { result ≡ list_any is_set mask.now }
{
    mask.iter().any(|m| *m < 0)
}
