// Numbers in JSON.
ghost use Rattle.std.specs.Prelude.{◌≡◌, ◌≤◌, IfOk};
ghost use Rattle.serde_json.specs.View.{view};
ghost use Rattle.account_text.specs.Numbers.{fixed, wide, num, triple, spot};

use crate::decimal::exact;
use fixed_math::{NoMemory, Num, Vec3};
use hider::Spot;
use serde_json::{Value, json};
use std::alloc::Global;

/// The number `raw / ones`.
#[tactic(auto, unfolding(crate::specs::Numbers::fixed))]
pub(crate) fn fixed(alloc: Global, ones: u64, raw: i64) -> Result<Value, NoMemory>
    requires some { 1 ≤ ones }
    requires few { ones ≤ 4294967296 }
    ensures { IfOk result (λ v. view v ≡ fixed ones raw) }
{
    let value = exact(alloc, ones, raw as i128)?;
    Ok(json!(in alloc; {"raw": raw, "value": value})?)
}

/// The number `raw / ones`, which may need more than 64 bits.
#[tactic(auto, unfolding(crate::specs::Numbers::wide))]
pub(crate) fn wide(alloc: Global, ones: u64, raw: i128) -> Result<Value, NoMemory>
    requires some { 1 ≤ ones }
    requires few { ones ≤ 4294967296 }
    ensures { IfOk result (λ v. view v ≡ wide ones raw) }
{
    let digits = format!(in alloc; "{raw}")?;
    let value = exact(alloc, ones, raw)?;
    Ok(json!(in alloc; {"raw": digits, "value": value})?)
}

/// A number of 1/65536.
#[tactic(auto, unfolding(crate::specs::Numbers::num))]
pub(crate) fn num(alloc: Global, number: Num) -> Result<Value, NoMemory>
    ensures { IfOk result (λ v. view v ≡ num number) }
{
    fixed(alloc, 65536, number.raw())
}

/// Three numbers.
#[tactic(auto, unfolding(crate::specs::Numbers::triple))]
pub(crate) fn triple(alloc: Global, v: &Vec3) -> Result<Value, NoMemory>
    ensures { IfOk result (λ d. view d ≡ triple v.now) }
{
    let (x, y, z) = (num(alloc, v.x)?, num(alloc, v.y)?, num(alloc, v.z)?);
    Ok(json!(in alloc; [x, y, z])?)
}

/// A place on the raster.
#[tactic(auto, unfolding(crate::specs::Numbers::spot))]
pub(crate) fn spot(alloc: Global, place: Spot) -> Result<Value, NoMemory>
    ensures { IfOk result (λ v. view v ≡ spot place) }
{
    let x = fixed(alloc, 256, place.x())?;
    let y = fixed(alloc, 256, place.y())?;
    Ok(json!(in alloc; {"x": x, "y": y})?)
}
