// Operations on rows, one loop each.
ghost use Rattle.std.specs.Prelude.{◌≡◌, ℕ, ℤ, ◌+◌, ◌<◌, ◌≤◌, pos, false, length, get_or, cond};
ghost use Rattle.fixed_math.specs.Fixed.{IsRaw};
ghost use Rattle.number_rows.specs.Planes.{plane_at, IsPlane};

use crate::kernels::{One, Three, Two};
use crate::plane::Plane;
use crate::raw::Raw;
use lanes::mask;

/// Each place of a row takes one number.
pub fn fill(x: Raw, out: &mut [Raw])
    ensures long { length out.new ≡ length out.old }
    ensures each { (i : ℕ) → i < length out.old → get_or out.new i (pos 0) ≡ x }
{
    for i in 0..out.len() {
        out[i] = x;
    }
}

fn copy_row(a: &[Raw], out: &mut [Raw])
    requires { length out.old ≤ length a.now }
    ensures long { length out.new ≡ length out.old }
    ensures each { (i : ℕ) → i < length out.old → get_or out.new i (pos 0) ≡ get_or a.now i (pos 0) }
{
    for i in 0..out.len() {
        out[i] = a[i];
    }
}

/// A row takes the numbers of a plane.
pub fn copy(a: &Plane, out: &mut [Raw])
    requires { IsPlane (length out.old) a.now }
    ensures long { length out.new ≡ length out.old }
    ensures each { (i : ℕ) → i < length out.old → get_or out.new i (pos 0) ≡ plane_at a.now i }
{
    match a {
        Plane::Row(row) => copy_row(row, out),
        Plane::Value(x) => fill(*x, out),
    }
}

/// The first places of a row take so many raw values in 64 bits, from one on.
pub fn take_raws(raws: &[i64], start: usize, count: usize, out: &mut [Raw])
    requires raws { (k : ℕ) → IsRaw (get_or raws.now k (pos 0)) }
    requires fits { start + count ≤ length raws.now }
    requires room { count ≤ length out.old }
    ensures long { length out.new ≡ length out.old }
    ensures each { (i : ℕ) → i < count → get_or out.new i (pos 0) ≡ get_or raws.now (start + i) (pos 0) }
{
    for i in 0..count {
        out[i] = raw_at(raws, start + i);
    }
}

#[inline(always)]
fn raw_at(raws: &[i64], k: usize) -> Raw
    requires raws { (k : ℕ) → IsRaw (get_or raws.now k (pos 0)) }
    requires there { k < length raws.now }
    ensures { result ≡ get_or raws.now k (pos 0) }
{
    Raw::of_raw(raws[k])
}

/// So many raw values in 64 bits, from one on, take the numbers of a plane.
pub fn give_raws(a: &Plane, out: &mut [i64], start: usize, count: usize)
    requires plane { IsPlane count a.now }
    requires room { start + count ≤ length out.old }
    ensures long { length out.new ≡ length out.old }
    ensures each { (i : ℕ) → i < count → get_or out.new (start + i) (pos 0) ≡ plane_at a.now i }
    ensures before { (k : ℕ) → k < start → get_or out.new k (pos 0) ≡ get_or out.old k (pos 0) }
    ensures raws { ((k : ℕ) → IsRaw (get_or out.old k (pos 0))) → (k : ℕ) → IsRaw (get_or out.new k (pos 0)) }
{
    for i in 0..count {
        out[start + i] = a.at(i).raw();
    }
}

fn one_row<K: One>(a: &[Raw], out: &mut [Raw])
    requires { length out.old ≤ length a.now }
    ensures long { length out.new ≡ length out.old }
    ensures each { (i : ℕ) → i < length out.old → get_or out.new i (pos 0) ≡ K.formula (get_or a.now i (pos 0)) }
{
    for i in 0..out.len() {
        out[i] = K::apply(a[i]);
    }
}

/// A row takes what an operation makes of a plane.
pub fn one_plane<K: One>(a: &Plane, out: &mut [Raw])
    requires { IsPlane (length out.old) a.now }
    ensures long { length out.new ≡ length out.old }
    ensures each { (i : ℕ) → i < length out.old → get_or out.new i (pos 0) ≡ K.formula (plane_at a.now i) }
{
    match a {
        Plane::Row(row) => one_row::<K>(row, out),
        Plane::Value(x) => fill(K::apply(*x), out),
    }
}

fn two_rows<K: Two>(a: &[Raw], b: &[Raw], out: &mut [Raw])
    requires a { length out.old ≤ length a.now }
    requires b { length out.old ≤ length b.now }
    ensures long { length out.new ≡ length out.old }
    ensures each { (i : ℕ) → i < length out.old → get_or out.new i (pos 0) ≡ K.formula (get_or a.now i (pos 0)) (get_or b.now i (pos 0)) }
{
    for i in 0..out.len() {
        out[i] = K::apply(a[i], b[i]);
    }
}

fn row_by_value<K: Two>(a: &[Raw], b: Raw, out: &mut [Raw])
    requires { length out.old ≤ length a.now }
    ensures long { length out.new ≡ length out.old }
    ensures each { (i : ℕ) → i < length out.old → get_or out.new i (pos 0) ≡ K.formula (get_or a.now i (pos 0)) b }
{
    for i in 0..out.len() {
        out[i] = K::apply(a[i], b);
    }
}

fn value_by_row<K: Two>(a: Raw, b: &[Raw], out: &mut [Raw])
    requires { length out.old ≤ length b.now }
    ensures long { length out.new ≡ length out.old }
    ensures each { (i : ℕ) → i < length out.old → get_or out.new i (pos 0) ≡ K.formula a (get_or b.now i (pos 0)) }
{
    for i in 0..out.len() {
        out[i] = K::apply(a, b[i]);
    }
}

/// A row takes what an operation makes of two planes.
pub fn two_planes<K: Two>(a: &Plane, b: &Plane, out: &mut [Raw])
    requires a { IsPlane (length out.old) a.now }
    requires b { IsPlane (length out.old) b.now }
    ensures long { length out.new ≡ length out.old }
    ensures each { (i : ℕ) → i < length out.old → get_or out.new i (pos 0) ≡ K.formula (plane_at a.now i) (plane_at b.now i) }
{
    match (a, b) {
        (Plane::Row(a), Plane::Row(b)) => two_rows::<K>(a, b, out),
        (Plane::Row(a), Plane::Value(y)) => row_by_value::<K>(a, *y, out),
        (Plane::Value(x), Plane::Row(b)) => value_by_row::<K>(*x, b, out),
        (Plane::Value(x), Plane::Value(y)) => fill(K::apply(*x, *y), out),
    }
}

/// A row takes what an operation makes of three planes.
#[tactic(auto, using(crate::proofs::Shorter::shorter))]
pub fn three_planes<K: Three>(a: &Plane, b: &Plane, c: &Plane, out: &mut [Raw])
    requires a { IsPlane (length out.old) a.now }
    requires b { IsPlane (length out.old) b.now }
    requires c { IsPlane (length out.old) c.now }
    ensures long { length out.new ≡ length out.old }
    ensures each { (i : ℕ) → i < length out.old → get_or out.new i (pos 0) ≡ K.formula (plane_at a.now i) (plane_at b.now i) (plane_at c.now i) }
{
    for i in 0..out.len() {
        out[i] = K::apply(a.at(i), b.at(i), c.at(i));
    }
}

/// A row takes what an operation makes of it and a plane.
pub(crate) fn with_plane<K: Two>(b: &Plane, out: &mut [Raw])
    requires { IsPlane (length out.old) b.now }
    ensures long { length out.new ≡ length out.old }
    ensures each { (i : ℕ) → i < length out.old → get_or out.new i (pos 0) ≡ K.formula (get_or out.old i (pos 0)) (plane_at b.now i) }
{
    for i in 0..out.len() {
        out[i] = K::apply(out[i], b.at(i));
    }
}

// One of two numbers, by bits: the compiler turns no choice between elements of rows into lanes.
#[inline(always)]
fn one_of(first: bool, x: Raw, y: Raw) -> Raw
    ensures { result ≡ cond first x y }
{
    let all = if first { -1 } else { 0 };
    Raw::from_bits(mask::chosen(all, x.bits(), y.bits()))
}

/// A row takes another one's numbers at the places that are live.
pub fn blend(live: &[bool], row: &[Raw], out: &mut [Raw])
    requires live { length out.old ≤ length live.now }
    requires row { length out.old ≤ length row.now }
    ensures long { length out.new ≡ length out.old }
    ensures each { (d : ℤ) (i : ℕ) → i < length out.old → get_or out.new i d ≡ cond (get_or live.now i false) (get_or row.now i d) (get_or out.old i d) }
{
    for i in 0..out.len() {
        out[i] = one_of(live[i], row[i], out[i]);
    }
}
