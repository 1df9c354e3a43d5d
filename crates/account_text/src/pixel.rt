// The account of a pixel in JSON.
ghost use Rattle.std.specs.Prelude.{◌≡◌, ◌∷◌, [], IfOk, string_bytes};
ghost use Rattle.account_text.specs.Numbers.{list_of};
ghost use Rattle.serde_json.specs.View.{view};
ghost use Rattle.account_text.specs.Account.{place_json, sample_json, samples_json, channels_json, sums_json, rounded_json, levels_json, bytes_json, account_json, account_text};

use crate::fragments::fragments_json;
use crate::frame::frame_json;
use crate::numbers::{fixed, num, spot, triple, wide};
use fixed_math::NoMemory;
use pixel_record::{PixelAccount, SampleAccount, WeightedSums};
use serde_json::{Map, Value, json, put};
use std::alloc::Global;

// The place of the pixel in the frame.
fn place_json(alloc: Global, account: &PixelAccount) -> Result<Value, NoMemory>
    ensures { IfOk result (λ v. view v ≡ place_json account.now) }
{
    Ok(json!(in alloc; {"x": account.x, "y": account.y})?)
}

#[tactic(auto, unfolding(crate::specs::Account::sample_json))]
fn sample_json(alloc: Global, points: bool, sample: &SampleAccount) -> Result<Value, NoMemory>
    ensures { IfOk result (λ v. view v ≡ sample_json points sample.now) }
{
    let place = spot(alloc, sample.sample.place)?;
    let time = fixed(alloc, 65536, sample.sample.time as i64)?;
    let weight = num(alloc, sample.weight)?;
    let colour = triple(alloc, &sample.colour)?;
    let fragments = fragments_json(alloc, points, sample.fragments.as_slice())?;
    let mut members = Map::new(alloc);
    put(&mut members, alloc, "weight", weight)?;
    put(&mut members, alloc, "time", time)?;
    put(&mut members, alloc, "place", place)?;
    put(&mut members, alloc, "fragments", fragments)?;
    put(&mut members, alloc, "colour", colour)?;
    Ok(Value::Object(members))
}

fn samples_json(alloc: Global, points: bool, samples: &[SampleAccount]) -> Result<Value, NoMemory>
    ensures { IfOk result (λ v. view v ≡ samples_json points samples.now) }
{
    let mut list = Vec::new(alloc);
    for sample in samples {
        list.push(sample_json(alloc, points, sample)?)?;
    }
    Ok(Value::Array(list))
}

// Three values as a list.
fn three_json(alloc: Global, x: Value, y: Value, z: Value) -> Result<Value, NoMemory>
    ensures { IfOk result (λ v. view v ≡ list_of (view x ∷ view y ∷ view z ∷ [])) }
{
    let mut list = Vec::new(alloc);
    list.push(x)?;
    list.push(y)?;
    list.push(z)?;
    Ok(Value::Array(list))
}

// The sums of the channels.
#[tactic(auto, unfolding(crate::specs::Account::channels_json))]
fn channels_json(alloc: Global, sums: &WeightedSums) -> Result<Value, NoMemory>
    ensures { IfOk result (λ v. view v ≡ channels_json sums.now) }
{
    let x = wide(alloc, 4294967296, sums.x)?;
    let y = wide(alloc, 4294967296, sums.y)?;
    let z = wide(alloc, 4294967296, sums.z)?;
    three_json(alloc, x, y, z)
}

// The sums over the samples.
#[tactic(auto, unfolding(crate::specs::Account::sums_json))]
fn sums_json(alloc: Global, sums: &WeightedSums) -> Result<Value, NoMemory>
    ensures { IfOk result (λ v. view v ≡ sums_json sums.now) }
{
    let weight = wide(alloc, 65536, sums.weight)?;
    let colour = channels_json(alloc, sums)?;
    Ok(json!(in alloc; {"weight": weight, "colour": colour})?)
}

fn rounded_json(alloc: Global, numbers: &[i64]) -> Result<Value, NoMemory>
    ensures { IfOk result (λ v. view v ≡ rounded_json numbers.now) }
{
    let mut list = Vec::new(alloc);
    for number in numbers {
        list.push(Value::from(*number))?;
    }
    Ok(Value::Array(list))
}

fn levels_json(alloc: Global, levels: &[u32]) -> Result<Value, NoMemory>
    ensures { IfOk result (λ v. view v ≡ levels_json levels.now) }
{
    let mut list = Vec::new(alloc);
    for level in levels {
        list.push(Value::from(*level))?;
    }
    Ok(Value::Array(list))
}

fn bytes_json(alloc: Global, bytes: &[u8]) -> Result<Value, NoMemory>
    ensures { IfOk result (λ v. view v ≡ bytes_json bytes.now) }
{
    let mut list = Vec::new(alloc);
    for byte in bytes {
        list.push(Value::from(*byte))?;
    }
    Ok(Value::Array(list))
}

// The account of a pixel of the scene with that name.
#[tactic(auto, unfolding(crate::specs::Account::account_json))]
fn account_json(
    alloc: Global,
    scene: &str,
    points: bool,
    account: &PixelAccount,
) -> Result<Value, NoMemory>
    ensures { IfOk result (λ v. view v ≡ account_json scene.now points account.now) }
{
    let frame = frame_json(alloc, &account.frame)?;
    let place = place_json(alloc, account)?;
    let samples = samples_json(alloc, points, account.samples.as_slice())?;
    let sums = sums_json(alloc, &account.sums)?;
    let tones = &account.tones;
    let mean = triple(alloc, &tones.mean)?;
    let bright = triple(alloc, &tones.bright)?;
    let exposed = triple(alloc, &tones.exposed)?;
    let rounded = rounded_json(alloc, &tones.rounded)?;
    let levels = levels_json(alloc, &tones.levels)?;
    let bytes = bytes_json(alloc, account.bytes.as_slice())?;
    let mut members = Map::new(alloc);
    put(&mut members, alloc, "sums", sums)?;
    put(
        &mut members,
        alloc,
        "scene",
        Value::try_from_str(alloc, scene)?,
    )?;
    put(&mut members, alloc, "samples", samples)?;
    put(&mut members, alloc, "rounded", rounded)?;
    put(&mut members, alloc, "pixel", place)?;
    put(&mut members, alloc, "mean", mean)?;
    put(&mut members, alloc, "levels", levels)?;
    put(&mut members, alloc, "frame", frame)?;
    put(&mut members, alloc, "exposed", exposed)?;
    put(&mut members, alloc, "bytes", bytes)?;
    put(&mut members, alloc, "bright", bright)?;
    Ok(Value::Object(members))
}

/// The account of a pixel as a line of JSON: of the scene with that name, with the corners of the fragments' micropolygons where
/// these are wanted. Each number of fixed point stands with its raw value and its exact decimal.
#[tactic(auto, using(crate::proofs::Flat::account_flat), unfolding(crate::specs::Account::account_text))]
pub fn account_text(
    alloc: Global,
    scene: &str,
    points: bool,
    account: &PixelAccount,
) -> Result<String, NoMemory>
    ensures { IfOk result (λ t. string_bytes t ≡ account_text scene.now points account.now) }
{
    let mut text = account_json(alloc, scene, points, account)?.to_string(alloc)?;
    text.push('\n')?;
    Ok(text)
}
