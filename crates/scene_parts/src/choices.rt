// The options of a frame.
ghost use Rattle.std.specs.Prelude.{◌≡◌, ◌≤◌, ◌<◌, pos, ◌≤ℤ◌, ◌<ℤ◌, unsigned_abs, Some, codes, slice_index_or};
ghost use Rattle.scene.specs.Settings.{crop_of, IsCrop};
ghost use Rattle.rib_reader.specs.declared.req.Req.TheVariants as reqs;
ghost use Rattle.rib_reader.specs.Holding.{last_named};
ghost use Rattle.rib_reader.specs.Reading.{plain};
ghost use Rattle.fixed_math.specs.Whole.{floor_by};
ghost use Rattle.transforms.specs.Field.{left, right, bottom, top};
ghost use Rattle.scene_parts.specs.Choices.{ChoiceValues, AreChoices, IsWindow, IsCropWindow, first_picture, first_choices, with_format, with_ratio, with_window, with_depths, with_crop, with_shutter, edge_of, first_pixel, end_pixel, crop_in, picture_of, first_number, degrees_in, field_in, with_samples, filter_named, with_filter, with_exposure, with_quantize, chosen, ratio_of, window_by, view_of};

use crate::code::StateCode;
use fixed_math::Num;
use rib_reader::{Req, Request, last_named};
use scene::{Filter, Kind, Options, Param, Values};
use std::marker::Model;
use transforms::View;

/// The options in force but the picture's name. Contracts see them as a record. `crop` is the window of `CropWindow`; the pixels in it
/// are known when the raster is, and those of `picture` aren't read.
#[derive(Clone, Copy)]
pub struct Choices {
    width: u32,
    height: u32,
    ratio: Option<Num>,
    window: Option<[Num; 4]>,
    near: Num,
    far: Num,
    fov: Option<Num>,
    crop: [Num; 4],
    shutter: [Num; 2],
    picture: Options,
}

impl Model for Choices {
    ghost Value = { ChoiceValues };

    ghost view = { λ c. record { width = c.width; height = c.height; ratio = c.ratio; window = c.window; near = c.near; far = c.far; fov = c.fov; crop = c.crop; shutter = c.shutter; picture = c.picture } };

    ghost invariant = { λ c. AreChoices (record { width = c.width; height = c.height; ratio = c.ratio; window = c.window; near = c.near; far = c.far; fov = c.fov; crop = c.crop; shutter = c.shutter; picture = c.picture }) };

    ghost inverse = { λ c. record { width = c.width; height = c.height; ratio = c.ratio; window = c.window; near = c.near; far = c.far; fov = c.fov; crop = c.crop; shutter = c.shutter; picture = c.picture } };
}

// The picture's options at the start.
fn first_picture() -> Options
    ensures { result ≡ first_picture }
{
    let one = Num::sat(65536);
    Options {
        xs: 2,
        ys: 2,
        filter: Filter::Gaussian,
        wx: 512,
        wy: 512,
        gain: one,
        gamma: one,
        one: 255,
        min: 0,
        max: 255,
        crop: [0; 4],
    }
}

// The window of the whole raster.
fn whole_window() -> [Num; 4]
    ensures value { result ≡ first_choices.crop }
    ensures window { IsCropWindow result }
{
    let (none, one) = (Num::sat(0), Num::sat(65536));
    [none, one, none, one]
}

fn filter_named(name: &str) -> Filter
    ensures { result ≡ filter_named name.now }
{
    if name == "box" {
        Filter::Box
    } else if name == "triangle" {
        Filter::Triangle
    } else {
        Filter::Gaussian
    }
}

/// The first number of a parameter.
pub(crate) fn first_number(values: &Values) -> Option<Num>
    ensures { result ≡ first_number values.now }
{
    match values {
        Values::Numbers(numbers) => numbers.as_slice().first().copied(),
        Values::Strings(_) => None,
    }
}

// The field of view in degrees, 90 where no number is given for it.
fn degrees(params: &[Param]) -> Num
    ensures { result ≡ degrees_in (last_named (codes "fov") params.now) }
{
    let right_angle = Num::sat(5898240);
    match last_named(params, "fov") {
        Some(param) if param.kind == Kind::Float => {
            first_number(&param.values).unwrap_or(right_angle)
        }
        _ => right_angle,
    }
}

// The screen window of a format whose sides have this ratio.
fn window_by(ratio: Num) -> [Num; 4]
    requires { pos 1 ≤ℤ ratio }
    ensures value { result ≡ window_by ratio }
    ensures ordered { IsWindow result }
{
    let one = Num::sat(65536);
    if ratio.raw() >= 65536 {
        [ratio.neg(), ratio, one.neg(), one]
    } else {
        let half = one.div(ratio);
        [one.neg(), one, half.neg(), half]
    }
}

// How often a number holds this many raws, rounded down.
fn times(number: Num, raws: u32) -> u32
    requires some { 0 < raws }
    requires held { pos raws ≤ℤ number }
    ensures value { pos result ≡ floor_by number raws }
    ensures some { 1 ≤ result }
{
    number.raw() as u32 / raws
}

// The width of a filter of at most 16 pixels in 1/256 pixel, rounded down.
fn filter_width(number: Num) -> u32
    requires low { pos 256 ≤ℤ number }
    requires high { number ≤ℤ pos 1048576 }
    ensures value { pos result ≡ floor_by number 256 }
    ensures some { 1 ≤ result }
    ensures most { result ≤ 4096 }
{
    times(number, 256)
}

// The raw of a part of a side.
fn raw_of(part: Num) -> u32
    requires low { pos 0 ≤ℤ part }
    requires high { part ≤ℤ pos 65536 }
    ensures value { result ≡ unsigned_abs part }
    ensures most { result ≤ 65536 }
{
    part.raw() as u32
}

// A part of a side of so many pixels, rounded up to whole pixels.
fn edge_of(pixels: u32, part: Num) -> u32
    requires pixels { pixels ≤ 4096 }
    requires low { pos 0 ≤ℤ part }
    requires high { part ≤ℤ pos 65536 }
    ensures value { result ≡ edge_of pixels part }
    ensures most { result ≤ pixels }
{
    (pixels * raw_of(part) + 65535) / 65536
}

// The first pixel of a side from a part of it on.
fn first_pixel(pixels: u32, from: Num) -> u32
    requires some { 1 ≤ pixels }
    requires pixels { pixels ≤ 4096 }
    requires low { pos 0 ≤ℤ from }
    requires high { from ≤ℤ pos 65536 }
    ensures value { result ≡ first_pixel pixels from }
    ensures inside { result < pixels }
{
    edge_of(pixels, from).min(pixels - 1)
}

// The end of the pixels of a side between two parts of it, of which there is one at least.
fn end_pixel(pixels: u32, from: Num, to: Num) -> u32
    requires some { 1 ≤ pixels }
    requires pixels { pixels ≤ 4096 }
    requires low { pos 0 ≤ℤ from }
    requires order { from <ℤ to }
    requires high { to ≤ℤ pos 65536 }
    ensures value { result ≡ end_pixel pixels from to }
    ensures behind { first_pixel pixels from < result }
    ensures inside { result ≤ pixels }
{
    edge_of(pixels, to).max(first_pixel(pixels, from) + 1)
}

// The pixels in a window of a raster of that size: their left, top, right and bottom.
fn crop_in(window: [Num; 4], width: u32, height: u32) -> [u32; 4]
    requires window { IsCropWindow window }
    requires some_width { 1 ≤ width }
    requires width { width ≤ 4096 }
    requires some_height { 1 ≤ height }
    requires height { height ≤ 4096 }
    ensures value { result ≡ crop_in window width height }
    ensures across { slice_index_or result 0 0 < slice_index_or result 2 0 }
    ensures in_width { slice_index_or result 2 0 ≤ width }
    ensures down { slice_index_or result 1 0 < slice_index_or result 3 0 }
    ensures in_height { slice_index_or result 3 0 ≤ height }
{
    let [left, right, top, bottom] = window;
    [
        first_pixel(width, left),
        first_pixel(height, top),
        end_pixel(width, left, right),
        end_pixel(height, top, bottom),
    ]
}

impl Choices {
    /// The options at the start.
    pub fn first() -> Choices
        ensures { result ≡ first_choices }
    {
        Choices {
            width: 640,
            height: 480,
            ratio: None,
            window: None,
            near: Num::sat(64),
            far: Num::sat(2147418112),
            fov: None,
            crop: whole_window(),
            shutter: [Num::sat(0), Num::sat(0)],
            picture: first_picture(),
        }
    }

    /// The options of the picture of a raster of that size. Its crop has the pixels of the raster in the crop window, and one at least.
    pub fn picture(&self, width: u32, height: u32) -> Options
        requires some_width { 1 ≤ width }
        requires width { width ≤ 4096 }
        requires some_height { 1 ≤ height }
        requires height { height ≤ 4096 }
        ensures value { result ≡ picture_of self.now width height }
        ensures crop { IsCrop width height (crop_of result) }
    {
        let picture = self.picture;
        Options {
            crop: crop_in(self.crop, width, height),
            ..picture
        }
    }

    fn with_format(self, width: i64, height: i64) -> Result<Choices, StateCode>
        requires some_width { pos 1 ≤ℤ width }
        requires some_height { pos 1 ≤ℤ height }
        ensures { result ≡ with_format (Some width) (Some height) self }
    {
        if width > 4096 || height > 4096 {
            return Err(StateCode::M5);
        }
        Ok(Choices {
            width: width as u32,
            height: height as u32,
            ..self
        })
    }

    fn with_ratio(self, ratio: Num) -> Choices
        requires { pos 1 ≤ℤ ratio }
        ensures { result ≡ with_ratio (Some ratio) self }
    {
        Choices {
            ratio: Some(ratio),
            ..self
        }
    }

    fn with_window(self, left: Num, right: Num, bottom: Num, top: Num) -> Choices
        requires across { left <ℤ right }
        requires up { bottom <ℤ top }
        ensures { result ≡ with_window (Some left) (Some right) (Some bottom) (Some top) self }
    {
        Choices {
            window: Some([left, right, bottom, top]),
            ..self
        }
    }

    fn with_crop(self, left: Num, right: Num, top: Num, bottom: Num) -> Choices
        requires left { pos 0 ≤ℤ left }
        requires across { left <ℤ right }
        requires right { right ≤ℤ pos 65536 }
        requires top { pos 0 ≤ℤ top }
        requires down { top <ℤ bottom }
        requires bottom { bottom ≤ℤ pos 65536 }
        ensures { result ≡ with_crop (Some left) (Some right) (Some top) (Some bottom) self }
    {
        Choices {
            crop: [left, right, top, bottom],
            ..self
        }
    }

    fn with_shutter(self, opens: Num, closes: Num) -> Choices
        ensures { result ≡ with_shutter (Some opens) (Some closes) self }
    {
        Choices {
            shutter: [opens, closes],
            ..self
        }
    }

    /// The times at which the shutter opens and closes.
    pub fn shutter(&self) -> [Num; 2]
        ensures { result ≡ self.now.shutter }
    {
        self.shutter
    }

    fn with_depths(self, near: Num, far: Num) -> Choices
        requires near { pos 1 ≤ℤ near }
        requires far { near <ℤ far }
        ensures { result ≡ with_depths (Some near) (Some far) self }
    {
        Choices { near, far, ..self }
    }

    fn with_field(self, fov: Option<Num>) -> Choices
        ensures { result ≡ record self { fov = fov } }
    {
        Choices { fov, ..self }
    }

    fn with_samples(self, x: Num, y: Num) -> Result<Choices, StateCode>
        requires x { pos 65536 ≤ℤ x }
        requires y { pos 65536 ≤ℤ y }
        ensures { result ≡ with_samples (Some x) (Some y) self }
    {
        let picture = self.picture;
        let xs = times(x, 65536);
        let ys = times(y, 65536);
        if xs > 16 || ys > 16 {
            return Err(StateCode::M6);
        }
        Ok(Choices {
            picture: Options {
                xs: xs as u8,
                ys: ys as u8,
                ..picture
            },
            ..self
        })
    }

    fn with_filter(self, name: &str, x: Num, y: Num) -> Result<Choices, StateCode>
        requires x { pos 256 ≤ℤ x }
        requires y { pos 256 ≤ℤ y }
        ensures { result ≡ with_filter (Some name.now) (Some x) (Some y) self }
    {
        if x.raw() > 1048576 || y.raw() > 1048576 {
            return Err(StateCode::M6);
        }
        let picture = self.picture;
        Ok(Choices {
            picture: Options {
                filter: filter_named(name),
                wx: filter_width(x),
                wy: filter_width(y),
                ..picture
            },
            ..self
        })
    }

    fn with_exposure(self, gain: Num, gamma: Num) -> Choices
        requires { pos 1 ≤ℤ gamma }
        ensures { result ≡ with_exposure (Some gain) (Some gamma) self }
    {
        let picture = self.picture;
        Choices {
            picture: Options {
                gain,
                gamma,
                ..picture
            },
            ..self
        }
    }

    fn with_quantize(self, request: &Request) -> Choices
        requires { request.now.name ≡ reqs.Quantize }
        ensures { result ≡ with_quantize request.now.args self }
    {
        let Some(levels) = request.levels() else {
            return self;
        };
        let picture = self.picture;
        Choices {
            picture: Options {
                one: levels.one,
                min: levels.least,
                max: levels.most,
                ..picture
            },
            ..self
        }
    }

    /// The options behind a request for one of them. The refusals are `M5` and `M6`, where a size, a number of samples or a
    /// filter's width passes its limit.
    pub fn chosen(self, request: &Request) -> Result<Choices, StateCode>
        ensures { result ≡ chosen (plain request.now) self }
    {
        match request.name {
            Req::Format => self.with_format(request.whole(0), request.whole(1)),
            Req::FrameAspectRatio => Ok(self.with_ratio(request.number(0))),
            Req::ScreenWindow => Ok(self.with_window(
                request.number(0),
                request.number(1),
                request.number(2),
                request.number(3),
            )),
            Req::CropWindow => Ok(self.with_crop(
                request.number(0),
                request.number(1),
                request.number(2),
                request.number(3),
            )),
            Req::Shutter => Ok(self.with_shutter(request.number(0), request.number(1))),
            Req::Clipping => Ok(self.with_depths(request.number(0), request.number(1))),
            Req::Projection => Ok(self.with_field(field(request))),
            Req::PixelSamples => self.with_samples(request.number(0), request.number(1)),
            Req::PixelFilter => self.with_filter(
                request.word(0).as_str(),
                request.number(1),
                request.number(2),
            ),
            Req::Exposure => Ok(self.with_exposure(request.number(0), request.number(1))),
            Req::Quantize => Ok(self.with_quantize(request)),
            _ => Ok(self),
        }
    }

    // The ratio of the frame's sides.
    fn ratio(&self) -> Num
        ensures value { result ≡ ratio_of self.now }
        ensures some { pos 1 ≤ℤ result }
    {
        match self.ratio {
            Some(ratio) => ratio,
            None => Num::sat((65536 * self.width / self.height) as i128),
        }
    }

    /// What a camera with these options sees: a view of ordered depths, window sides and sizes.
    pub fn view(&self) -> View
        ensures value { result ≡ view_of self.now }
        ensures near { pos 1 ≤ℤ result.near }
        ensures far { result.near <ℤ result.far }
        ensures across { left result <ℤ right result }
        ensures up { bottom result <ℤ top result }
        ensures width { 1 ≤ result.width }
        ensures width_limit { result.width ≤ 4096 }
        ensures height { 1 ≤ result.height }
        ensures height_limit { result.height ≤ 4096 }
    {
        let window = match self.window {
            Some(window) => window,
            None => window_by(self.ratio()),
        };
        View {
            fov: self.fov,
            window,
            width: self.width,
            height: self.height,
            near: self.near,
            far: self.far,
        }
    }
}

// The field of view that a projection asks for.
fn field(request: &Request) -> Option<Num>
    requires { request.now.name ≡ reqs.Projection }
    ensures { result ≡ field_in request.now.args request.now.params }
{
    if request.word(0).as_str() == "perspective" {
        Some(degrees(request.params.as_slice()))
    } else {
        None
    }
}
