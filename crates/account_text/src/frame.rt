// The frame of a pixel in JSON.
ghost use Rattle.std.specs.Prelude.{◌≡◌, IfOk};
ghost use Rattle.scene.specs.Settings.{crop_of};
ghost use Rattle.serde_json.specs.View.{view};
ghost use Rattle.account_text.specs.Frame.{crop_json, samples_json, filter_name, filter_json, frame_json};

use crate::numbers::{fixed, num};
use fixed_math::NoMemory;
use pixel_record::FrameAccount;
use scene::{Filter, Options};
use serde_json::{Map, Value, json, put};
use std::alloc::Global;

// The pixels of the picture.
fn crop_json(alloc: Global, options: &Options) -> Result<Value, NoMemory>
    ensures { IfOk result (λ v. view v ≡ crop_json (crop_of options.now)) }
{
    let [left, top, right, bottom] = options.crop;
    Ok(json!(in alloc; {"left": left, "top": top, "right": right, "bottom": bottom})?)
}

// The samples of a pixel.
fn samples_json(alloc: Global, options: &Options) -> Result<Value, NoMemory>
    ensures { IfOk result (λ v. view v ≡ samples_json options.now) }
{
    Ok(json!(in alloc; {"across": options.xs, "down": options.ys})?)
}

// The name of a filter in a scene.
fn filter_name(filter: Filter) -> &'static str
    ensures { result.now ≡ filter_name filter }
{
    match filter {
        Filter::Box => "box",
        Filter::Triangle => "triangle",
        Filter::Gaussian => "gaussian",
    }
}

#[tactic(auto, unfolding(crate::specs::Frame::filter_json))]
fn filter_json(alloc: Global, options: &Options) -> Result<Value, NoMemory>
    ensures { IfOk result (λ v. view v ≡ filter_json options.now) }
{
    let name = filter_name(options.filter);
    let across = fixed(alloc, 256, options.wx as i64)?;
    let down = fixed(alloc, 256, options.wy as i64)?;
    let mut members = Map::new(alloc);
    put(
        &mut members,
        alloc,
        "name",
        Value::try_from_str(alloc, name)?,
    )?;
    put(&mut members, alloc, "down", down)?;
    put(&mut members, alloc, "across", across)?;
    Ok(Value::Object(members))
}

/// The frame, with the options that its pixels depend on.
#[tactic(auto, unfolding(crate::specs::Frame::frame_json))]
pub(crate) fn frame_json(alloc: Global, frame: &FrameAccount) -> Result<Value, NoMemory>
    ensures { IfOk result (λ v. view v ≡ frame_json frame.now) }
{
    let options = &frame.options;
    let crop = crop_json(alloc, options)?;
    let samples = samples_json(alloc, options)?;
    let filter = filter_json(alloc, options)?;
    let gain = num(alloc, options.gain)?;
    let gamma = num(alloc, options.gamma)?;
    let file = Value::try_from_str(alloc, frame.file.as_str())?;
    let mut members = Map::new(alloc);
    put(&mut members, alloc, "width", Value::from(frame.width))?;
    put(&mut members, alloc, "samples", samples)?;
    put(&mut members, alloc, "one", Value::from(options.one))?;
    put(&mut members, alloc, "number", Value::from(frame.number))?;
    put(&mut members, alloc, "min", Value::from(options.min))?;
    put(&mut members, alloc, "max", Value::from(options.max))?;
    put(&mut members, alloc, "height", Value::from(frame.height))?;
    put(&mut members, alloc, "gamma", gamma)?;
    put(&mut members, alloc, "gain", gain)?;
    put(&mut members, alloc, "filter", filter)?;
    put(&mut members, alloc, "file", file)?;
    put(&mut members, alloc, "crop", crop)?;
    Ok(Value::Object(members))
}
