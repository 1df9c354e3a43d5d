// The fragments of a sample that can show.
ghost use Rattle.std.specs.Prelude.{◌≡◌, ◌≤◌, ◌≤ℤ◌, ◌^◌, [], List, true, unsigned_abs, IsTrue, MatchOption, OnOk};
ghost use Rattle.hider.specs.declared.fragment.Fragment.{Fragment};
ghost use Rattle.hider.specs.Composite.{composite};
ghost use Rattle.hider.specs.Coverage.{mean_at};
ghost use Rattle.hider.specs.Fragments.{IsSorted};
ghost use Rattle.hider.specs.Weighing.{AreAreas};
ghost use Rattle.hider.specs.Kept.{IsPlace, IsKeptIn, kept_list, keep, is_behind, blocks, blocks_by};

use crate::areas::Areas;
use crate::compositing::composite_before;
use crate::fragment::Fragment;
use crate::means::mean_at;
use crate::weighed::Weighed;
use fixed_math::{NoMemory, Num, Vec3};
use std::alloc::Global;
use std::marker::Model;

/// The fragments of a sample that can show: those before the nearest opaque one, in order of depth, and that one. Most samples
/// have none in front.
#[derive(Drop)]
pub(crate) struct FragmentList {
    front: Vec<Fragment>,
    back: Option<Fragment>,
}

impl Model for FragmentList {
    ghost Value = { List Fragment };

    ghost view = { λ l. kept_list l.front.items l.back };

    ghost invariant = { λ l. IsKeptIn l.front.items l.back };
}

/// The place of `f` among fragments in order of depth: behind those that are no farther. It is looked for from the far end, where
/// each fragment goes that is farther than those before it.
fn place_in(list: &[Fragment], f: &Fragment) -> usize
    requires { IsSorted list.now }
    ensures { IsPlace f.now list.now result }
{
    let mut place = list.len();
    while place > 0 {
        let g = &list[place - 1];
        if g.depth.raw() <= f.depth.raw() {
            return place;
        }
        place -= 1;
    }
    0
}

/// Whether a depth lies behind an opaque fragment, or at its depth.
fn is_behind(back: &Option<Fragment>, depth: Num) -> bool
    ensures { result ≡ is_behind back.now depth }
{
    match back {
        None => false,
        Some(b) => b.depth.raw() <= depth.raw(),
    }
}

/// Whether an opaque fragment lies nearer than a depth.
fn blocks_by(back: &Option<Fragment>, depth: Num) -> bool
    ensures { result ≡ blocks_by back.now depth }
{
    match back {
        None => false,
        Some(b) => b.depth.raw() < depth.raw(),
    }
}

/// The mean of three depths by areas; None where it lies behind an opaque fragment.
fn depth_before(back: &Option<Fragment>, areas: &Areas, a: Num, b: Num, c: Num) -> Option<Num>
    requires parts { AreAreas areas.now }
    requires small { unsigned_abs areas.now.whole ≤ 2 ^ 59 }
    ensures { MatchOption result (is_behind back.now (mean_at areas.now a b c) ≡ true) (λ z. z ≡ mean_at areas.now a b c) }
{
    match Weighed::of(areas, a, b, c) {
        None => Some(mean_at(areas, a, b, c)),
        Some(weighed) => {
            if weighed.is_behind(back) {
                return None;
            }
            Some(weighed.mean())
        }
    }
}

impl FragmentList {
    /// No fragment.
    pub(crate) fn new(alloc: Global) -> FragmentList
        ensures { result ≡ [] }
    {
        FragmentList {
            front: Vec::new(alloc),
            back: None,
        }
    }

    /// Takes all fragments out, and keeps the memory.
    pub(crate) fn clear(&mut self)
        ensures { self.new ≡ [] }
    {
        self.front.clear();
        self.back = None;
    }

    /// Puts `f` in by depth, behind those of equal depth; what then stands behind an opaque fragment goes.
    pub(crate) fn put(&mut self, f: Fragment) -> Result<(), NoMemory>
        ensures { OnOk result (self.new ≡ keep f self.old) }
    {
        if is_behind(&self.back, f.depth) {
            return Ok(());
        }
        let place = place_in(self.front.as_slice(), &f);
        if f.is_opaque() {
            self.front.truncate(place);
            self.back = Some(f);
            return Ok(());
        }
        self.front.insert(place, f)?;
        Ok(())
    }

    /// The mean of three depths by areas; None where a fragment of this depth doesn't show, which mostly needs no division.
    pub(crate) fn visible_depth(&self, areas: &Areas, a: Num, b: Num, c: Num) -> Option<Num>
        requires parts { AreAreas areas.now }
        requires small { unsigned_abs areas.now.whole ≤ 2 ^ 59 }
        ensures { MatchOption result ((f : Fragment) → f.depth ≡ mean_at areas.now a b c → keep f self.now ≡ self.now) (λ z. z ≡ mean_at areas.now a b c) }
    {
        depth_before(&self.back, areas, a, b, c)
    }

    /// Whether no fragment shows that is no nearer than `z`.
    pub(crate) fn hides(&self, z: Num) -> bool
        ensures { IsTrue result → (f : Fragment) → z ≤ℤ f.depth → keep f self.now ≡ self.now }
    {
        is_behind(&self.back, z)
    }

    /// Whether an opaque fragment lies nearer than `z`.
    pub(crate) fn blocks(&self, z: Num) -> bool
        ensures { result ≡ blocks z self.now }
    {
        blocks_by(&self.back, z)
    }

    /// The composite of the fragments.
    pub(crate) fn colour(&self) -> Vec3
        ensures { result ≡ composite self.now }
    {
        composite_before(self.front.as_slice(), &self.back)
    }
}
