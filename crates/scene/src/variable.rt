// A variable of a primitive.
ghost use Rattle.std.specs.Prelude.{◌≡◌, ◌+◌, ◌*◌, ◌≤◌, pos, All, [], get_or, length};
ghost use Rattle.std.specs.Str.{IsAscii};
ghost use Rattle.scene.specs.Kinds.{width};
ghost use Rattle.scene.specs.Scene.{VariableValue, IsVariable};
ghost use Rattle.scene.specs.Seats.{items_at, taken, value_places, varies, variable_of, numbers_of, text_of, IsThere};

use crate::params::{Class, Kind, Param, Values};
use crate::seat::Seat;
use fixed_math::{Num, Text};
use std::marker::Model;

/// A variable of a primitive: its value once, or where it is varying at the four corners of a patch in the order of a bilinear one, as
/// the scene gives them. There are as many numbers or strings as its kind takes. It reads them where its request has them. Contracts
/// see it as a record.
#[derive(Drop)]
pub struct Variable<'a> {
    param: &'a Param,
    seat: &'a Seat,
}

impl<'a> Model for Variable<'a> {
    ghost Value = { VariableValue };

    ghost view = { λ v. variable_of v.seat.now v.param.now };

    ghost invariant = { λ v. IsThere v.seat.now v.param.now × IsVariable (variable_of v.seat.now v.param.now) };
}

// How many numbers or strings a value of that kind has.
fn width(kind: Kind) -> usize
    ensures value { result ≡ width kind }
    ensures some { 1 ≤ result }
{
    match kind {
        Kind::Float | Kind::Str => 1,
        Kind::Pair => 2,
        _ => 3,
    }
}

fn varies(class: Class) -> bool
    ensures { result ≡ varies class }
{
    !matches!(class, Class::Constant | Class::Uniform)
}

// Number `k` of the values at these places, and 0 where there are fewer.
fn number_at(width: usize, numbers: &[Num], places: &[usize], k: usize) -> Num
    requires some { 1 ≤ width }
    requires there { All (λ n. width * n + width ≤ length numbers.now) places.now }
    ensures { result ≡ get_or (items_at width numbers.now places.now) k (pos 0) }
{
    let value = k / width;
    if value < places.len() {
        numbers[width * places[value] + k % width]
    } else {
        Num::default()
    }
}

// The first of the strings of the values at these places, empty where there is none.
fn text_at<'t>(width: usize, texts: &'t [Text], places: &[usize]) -> &'t str
    requires some { 1 ≤ width }
    requires there { All (λ n. width * n + width ≤ length texts.now) places.now }
    ensures value { result.now ≡ get_or (items_at width texts.now places.now) 0 [] }
    ensures ascii { IsAscii result.now }
{
    match places.first() {
        Some(place) => texts[width * *place].as_str(),
        None => "",
    }
}

// Number `k` of a variable's values at that seat, of these numbers.
fn number_in(param: &Param, seat: &Seat, numbers: &[Num], k: usize) -> Num
    requires { All (λ n. width param.now.kind * n + width param.now.kind ≤ length numbers.now) (value_places param.now.class seat.now) }
    ensures { result ≡ get_or (items_at (width param.now.kind) numbers.now (value_places param.now.class seat.now)) k (pos 0) }
{
    let width = width(param.kind);
    match param.class {
        Class::Constant => number_at(width, numbers, &[0], k),
        Class::Uniform => number_at(width, numbers, &[seat.face], k),
        Class::Varying | Class::Vertex => number_at(width, numbers, &seat.points, k),
        Class::FaceVarying => number_at(width, numbers, &seat.corners, k),
    }
}

// The string of a variable's value at that seat, of these strings.
fn text_in<'t>(param: &Param, seat: &Seat, texts: &'t [Text]) -> &'t str
    requires { All (λ n. width param.now.kind * n + width param.now.kind ≤ length texts.now) (value_places param.now.class seat.now) }
    ensures value { result.now ≡ get_or (items_at (width param.now.kind) texts.now (value_places param.now.class seat.now)) 0 [] }
    ensures ascii { IsAscii result.now }
{
    let width = width(param.kind);
    match param.class {
        Class::Constant => text_at(width, texts, &[0]),
        Class::Uniform => text_at(width, texts, &[seat.face]),
        Class::Varying | Class::Vertex => text_at(width, texts, &seat.points),
        Class::FaceVarying => text_at(width, texts, &seat.corners),
    }
}

impl<'a> Variable<'a> {
    /// The variable of a request at the seat of a patch.
    pub(crate) fn new(param: &'a Param, seat: &'a Seat) -> Variable<'a>
        requires { IsThere seat.now param.now }
        ensures { result ≡ variable_of seat.now param.now }
    {
        Variable { param, seat }
    }

    /// Its name.
    pub fn name(&self) -> &Text
        ensures { result.now ≡ self.now.name }
    {
        let param = self.param;
        &param.name
    }

    /// Its kind.
    pub fn kind(&self) -> Kind
        ensures { result ≡ self.now.kind }
    {
        let param = self.param;
        param.kind
    }

    /// Whether it has a value at each corner.
    pub fn is_varying(&self) -> bool
        ensures { result ≡ self.now.varying }
    {
        let param = self.param;
        varies(param.class)
    }

    /// Number `k` of its values, one behind the other, and 0 where there are fewer.
    pub fn number(&self, k: usize) -> Num
        ensures { result ≡ get_or (numbers_of self.now.values) k (pos 0) }
    {
        let param = self.param;
        match &param.values {
            Values::Numbers(numbers) => number_in(param, self.seat, numbers.as_slice(), k),
            Values::Strings(_) => Num::default(),
        }
    }

    /// Its string, empty where it has none.
    pub fn text(&self) -> &str
        ensures value { result.now ≡ text_of self.now.values }
        ensures ascii { IsAscii result.now }
    {
        let param = self.param;
        match &param.values {
            Values::Numbers(_) => "",
            Values::Strings(texts) => text_in(param, self.seat, texts.as_slice()),
        }
    }
}
