// A request that fits its row of the table.
ghost use Rattle.std.specs.Prelude.{◌≡◌, ◌≤ℤ◌, ◌<ℤ◌, ℕ, ℤ, Bool, true, false, Some, None, length};
ghost use Rattle.std.specs.List.{slice_get};
ghost use Rattle.rib_reader.specs.Table.{row_of, shapes_of, rules_of, words_in};
ghost use Rattle.rib_reader.specs.Rules.{word_at, raw_at, whole_at, numbers_at, are_whole, is_among, rule_code, follows_of};
ghost use Rattle.rib_reader.specs.Lists.{param_code, own_code, whole_code, request_code, has_points, points_in};
ghost use Rattle.scene.specs.Kinds.{is_of_kind};
ghost use Rattle.scene.specs.declared.params.Param.{Param as AParam};
ghost use Rattle.rib_reader.specs.Levels.{GivesLevels};
ghost use Rattle.rib_reader.specs.declared.req.Req.TheVariants.{Quantize};
ghost use Rattle.rib_reader.specs.declared.table.Words.{Words as WordSet};
ghost use Rattle.rib_reader.specs.declared.table.Rule.{Rule};
ghost use Rattle.rib_reader.specs.declared.table.Rule.TheVariants.{Within, AtLeast, Rising, Between, OneOf, NoneOf};
ghost use Rattle.rib_reader.specs.declared.table.Shape.TheVariants.{Whole, Number, Word, Array, Wholes};
ghost use Rattle.rib_reader.specs.declared.faults.RibCode.{RibCode};

use crate::args::Arg;
use crate::arguments::{num, numbers_in, whole, word};
use crate::levels::{Levels, levels_of};
use crate::list_faults::last_points;
use crate::req::Req;
use crate::rules::is_one;
use crate::table::Words;
use fixed_math::{Decimal, List, Num, Text};
use scene::Param;

/// A request whose arguments and list fit its row of the table, so that no code stands in them.
///
/// A colour's three numbers are kept as one array. What the table passes over is left out.
#[derive(Drop)]
pub struct Request {
    pub name: Req,
    pub args: List<Arg>,
    pub params: List<Param>,
    /// The line of the request's name, counted from 1.
    pub line: u32,
    pub ghost fits_row: { request_code name args params ≡ None },
}

impl Request {
    /// The whole number that the row has at that place, within the row's limits.
    pub fn whole(&self, place: usize) -> i64
        requires { slice_get (shapes_of self.now.name) place ≡ Some Whole }
        ensures value { whole_at self.now.args place ≡ Some result }
        ensures limits { (k : ℕ) (least most : ℤ) → slice_get (rules_of self.now.name) k ≡ Some (Within place least most) → (least ≤ℤ result) × (result ≤ℤ most) }
    {
        match whole(self.args.as_slice(), place) {
            Some(whole) => whole,
            None => unreachable!(),
        }
    }

    /// The number that the row has at that place, at least as great as the row says or within its limits, and less than the one that
    /// it says.
    pub fn number(&self, place: usize) -> Num
        requires { slice_get (shapes_of self.now.name) place ≡ Some Number }
        ensures value { raw_at self.now.args place ≡ Some result }
        ensures limits { (k : ℕ) (least : ℤ) → slice_get (rules_of self.now.name) k ≡ Some (AtLeast place least) → least ≤ℤ result }
        ensures between { (k : ℕ) (least most : ℤ) → slice_get (rules_of self.now.name) k ≡ Some (Between place least most) → (least ≤ℤ result) × (result ≤ℤ most) }
        ensures rising { (k other : ℕ) (y : ℤ) → slice_get (rules_of self.now.name) k ≡ Some (Rising place other) → raw_at self.now.args other ≡ Some y → result <ℤ y }
    {
        match num(self.args.as_slice(), place) {
            Some(number) => number,
            None => unreachable!(),
        }
    }

    /// The string that the row has at that place: one of the words that the row has, and none of those that it refuses.
    pub fn word(&self, place: usize) -> &Text
        requires { slice_get (shapes_of self.now.name) place ≡ Some Word }
        ensures value { word_at self.now.args place ≡ Some result.now }
        ensures words { (k : ℕ) (words : WordSet) (code : RibCode) → slice_get (rules_of self.now.name) k ≡ Some (OneOf place words code) → is_among (words_in words) result.now ≡ true }
        ensures refused { (k : ℕ) (words : WordSet) → slice_get (rules_of self.now.name) k ≡ Some (NoneOf place words) → is_among (words_in words) result.now ≡ false }
    {
        match word(self.args.as_slice(), place) {
            Some(text) => text,
            None => unreachable!(),
        }
    }

    /// The numbers of the array that the row has at that place, as many as the row says.
    pub fn array(&self, place: usize, len: u64) -> &[Decimal]
        requires { slice_get (shapes_of self.now.name) place ≡ Some (Array len) }
        ensures value { numbers_at self.now.args place ≡ Some result.now }
        ensures len { length result.now ≡ len }
    {
        match numbers_in(self.args.as_slice(), place) {
            Some(numbers) => numbers,
            None => unreachable!(),
        }
    }

    /// The numbers of the array of whole numbers that the row has at that place.
    pub fn wholes(&self, place: usize) -> &[Decimal]
        requires { slice_get (shapes_of self.now.name) place ≡ Some Wholes }
        ensures value { numbers_at self.now.args place ≡ Some result.now }
        ensures whole { are_whole result.now ≡ true }
    {
        match numbers_in(self.args.as_slice(), place) {
            Some(numbers) => numbers,
            None => unreachable!(),
        }
    }

    /// The levels that `Quantize` gives for "rgb" and "rgba", and none for another word.
    pub fn levels(&self) -> Option<Levels>
        requires { self.now.name ≡ Quantize }
        ensures { GivesLevels self.now.args result }
    {
        if !is_one(Words::Modes, self.args.as_slice(), 0) {
            return None;
        }
        Some(levels_of(self.whole(1), self.whole(2), self.whole(3)))
    }

    /// The numbers of a primitive's points P, the last ones where there are several: x, y and z of each point.
    pub fn points(&self) -> &[Num]
        requires { has_points (row_of self.now.name).tail ≡ true }
        ensures { points_in self.now.params ≡ Some result.now }
    {
        match last_points(self.params.as_slice()) {
            Some(numbers) => numbers,
            None => unreachable!(),
        }
    }

    /// The variables of the list: each has values of its kind and meets its list's condition, and so does the list as a
    /// whole.
    pub fn variables(&self) -> &[Param]
        ensures same { result.now ≡ self.now.params }
        ensures whole { whole_code (follows_of self.now.name self.now.args) result.now ≡ None }
        ensures kinds { (k : ℕ) (p : AParam) → slice_get result.now k ≡ Some p → is_of_kind p.kind p.values ≡ true }
        ensures each { (k : ℕ) (p : AParam) → slice_get result.now k ≡ Some p → own_code (follows_of self.now.name self.now.args) p ≡ None }
    {
        self.params.as_slice()
    }
}
