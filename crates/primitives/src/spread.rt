// The variables of a quadric at the corners of its patches.
ghost use Rattle.std.specs.Prelude.{◌≡◌, ◌≤◌, ◌<◌, ◌*◌, ◌^◌, ℕ, IfOk, map, unsigned_abs};
ghost use Rattle.fixed_math.specs.Blossom.{mix as mix_of};
ghost use Rattle.scene.specs.Seats.{names_of, AreDistinct, varies};
ghost use Rattle.primitives.specs.Points.{item};
ghost use Rattle.primitives.specs.Spread.{blended, blended_at, corners_in, corner_numbers, corner_texts, corner_values, spread_param, spread};

use crate::variables::width;
use fixed_math::{List, NoMemory, Num, Text, floor_by};
use scene::{Class, Kind, Param, RequestVariables, Shared, Values, param_copy};
use std::alloc::Global;

// 4096 times the value at `s`/4096 on the way from `a` to `b`.
fn mix(s: u16, a: i128, b: i128) -> i128
    requires from_zero { s ≤ 4096 }
    requires small_a { unsigned_abs a ≤ 2 ^ 110 }
    requires small_b { unsigned_abs b ≤ 2 ^ 110 }
    ensures value { result ≡ mix_of s a b }
    ensures bound { (r : ℕ) → unsigned_abs a ≤ r → unsigned_abs b ≤ r → unsigned_abs result ≤ 4096 * r }
{
    (4096 - s) as i128 * a + s as i128 * b
}

fn wide(number: Num) -> i128
    ensures value { result ≡ number }
    ensures bound { unsigned_abs result ≤ 2147483647 }
{
    number.raw() as i128
}

// The bilinear value of four numbers at `u` and `v`, times 4096 twice.
fn exact(u: u16, v: u16, a: Num, b: Num, c: Num, d: Num) -> i128
    requires across { u ≤ 4096 }
    requires up { v ≤ 4096 }
    ensures value { result ≡ mix_of v (mix_of u a b) (mix_of u c d) }
    ensures bound { unsigned_abs result ≤ 2 ^ 24 * 2147483647 }
{
    let left = wide(a);
    let right = wide(b);
    let bottom = mix(u, left, right);
    let left_above = wide(c);
    let right_above = wide(d);
    let top = mix(u, left_above, right_above);
    mix(v, bottom, top)
}

// The bilinear value of four numbers at `u` and `v`, rounded down once.
fn blended(u: u16, v: u16, a: Num, b: Num, c: Num, d: Num) -> Num
    requires across { u ≤ 4096 }
    requires up { v ≤ 4096 }
    ensures { result ≡ blended u v a b c d }
{
    Num::sat(floor_by(exact(u, v, a, b, c, d), 1 << 24))
}

fn item(numbers: &[Num], k: usize) -> Num
    ensures { result ≡ item numbers.now k }
{
    numbers.get(k).copied().unwrap_or_default()
}

// How many corners the patches have, by five in a row.
fn corners_in(halves: u32) -> usize
    ensures { result ≡ corners_in halves }
{
    5 * (halves as usize + 1)
}

// Number `m` of those at the corners, of which a value has `width`.
fn blended_at(halves: u32, width: usize, numbers: &[Num], m: usize) -> Num
    requires some { 1 ≤ halves }
    requires few { halves ≤ 2 }
    requires wide { 1 ≤ width }
    requires narrow { width ≤ 3 }
    requires there { m < width * corners_in halves }
    ensures { result ≡ blended_at halves width numbers.now m }
{
    let (part, corner) = (m % width, m / width);
    let u = 1024 * (corner % 5) as u16;
    let v = 4096 / halves as u16 * (corner / 5) as u16;
    blended(
        u,
        v,
        item(numbers, part),
        item(numbers, width + part),
        item(numbers, 2 * width + part),
        item(numbers, 3 * width + part),
    )
}

fn corner_numbers(
    alloc: Global,
    halves: u32,
    width: usize,
    numbers: &[Num],
) -> Result<List<Num>, NoMemory>
    requires some { 1 ≤ halves }
    requires few { halves ≤ 2 }
    requires wide { 1 ≤ width }
    requires narrow { width ≤ 3 }
    ensures { IfOk result (λ r. r ≡ corner_numbers halves width numbers.now) }
{
    let mut spread = Vec::new(alloc);
    for m in 0..width * corners_in(halves) {
        spread.push(blended_at(halves, width, numbers, m))?;
    }
    Ok(List(spread))
}

// Strings aren't blended: each corner has the first.
fn corner_texts(alloc: Global, halves: u32, texts: &[Text]) -> Result<List<Text>, NoMemory>
    requires { halves ≤ 2 }
    ensures { IfOk result (λ r. r ≡ corner_texts halves texts.now) }
{
    let mut spread = Vec::new(alloc);
    let Some(text) = texts.first() else {
        return Ok(List(spread));
    };
    for _ in 0..corners_in(halves) {
        spread.push(text.copied(alloc)?)?;
    }
    Ok(List(spread))
}

fn corner_values(
    alloc: Global,
    halves: u32,
    kind: Kind,
    values: &Values,
) -> Result<Values, NoMemory>
    requires some { 1 ≤ halves }
    requires few { halves ≤ 2 }
    ensures { IfOk result (λ r. r ≡ corner_values halves kind values.now) }
{
    Ok(match values {
        Values::Numbers(numbers) => {
            let spread = corner_numbers(alloc, halves, width(kind), numbers.as_slice())?;
            Values::Numbers(spread)
        }
        Values::Strings(texts) => {
            Values::Strings(corner_texts(alloc, halves, texts.as_slice())?)
        }
    })
}

fn varies(class: Class) -> bool
    ensures { result ≡ varies class }
{
    !matches!(class, Class::Constant | Class::Uniform)
}

fn spread_param(alloc: Global, halves: u32, param: &Param) -> Result<Param, NoMemory>
    requires some { 1 ≤ halves }
    requires few { halves ≤ 2 }
    ensures { IfOk result (λ p. p ≡ spread_param halves param.now) }
{
    if !varies(param.class) {
        return param_copy(alloc, param);
    }
    Ok(Param {
        name: param.name.copied(alloc)?,
        class: param.class,
        kind: param.kind,
        values: corner_values(alloc, halves, param.kind, &param.values)?,
    })
}

fn spread_params(alloc: Global, halves: u32, params: &[Param]) -> Result<List<Param>, NoMemory>
    requires some { 1 ≤ halves }
    requires few { halves ≤ 2 }
    ensures { IfOk result (λ r. r ≡ spread halves params.now) }
{
    let mut spread = Vec::new(alloc);
    for param in params {
        spread.push(spread_param(alloc, halves, param)?)?;
    }
    Ok(List(spread))
}

// All of them, one by one.
fn each<'a>(alloc: Global, params: &'a [Param]) -> Result<Vec<&'a Param>, NoMemory>
    ensures { IfOk result (λ r. map (λ p. p.now) r.items ≡ params.now) }
{
    let mut all = Vec::new(alloc);
    for param in params {
        all.push(param)?;
    }
    Ok(all)
}

/// The variables of a quadric of so many halves, for all its patches: one that varies has a value at each of their corners.
pub(crate) fn spread_variables(
    alloc: Global,
    halves: u32,
    params: &[Param],
) -> Result<Shared<RequestVariables>, NoMemory>
    requires some { 1 ≤ halves }
    requires few { halves ≤ 2 }
    requires distinct { AreDistinct (names_of params.now) }
    ensures { IfOk result (λ held. held ≡ spread halves params.now) }
{
    let spread = spread_params(alloc, halves, params)?;
    let held = each(alloc, spread.as_slice())?;
    let variables = RequestVariables::new(alloc, &held)?;
    Shared::new(alloc, variables)
}
