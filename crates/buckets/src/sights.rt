// What is known of pieces of a frame's primitives.
ghost use Rattle.std.specs.Prelude.{◌≡◌, ◌<◌, ◌^◌, pos, ◌≤ℤ◌, Some, slice_get, length, IfOk};
ghost use Rattle.scene.specs.Scene.{FrameValue};
ghost use Rattle.grid_epoch.specs.Kept.{same_part};
ghost use Rattle.bound_split.specs.Extents.{pixels_of};
ghost use Rattle.buckets.specs.Narrowing.{AreExtents, AreNarrowed, MissBetween};
ghost use Rattle.buckets.specs.Sights.{IsKnown, IsSight, IsSeen, IsSights};

use crate::candidates::Candidates;
use crate::leaf_walk::prims_of;
use crate::narrowing::{behind, narrow_to};
use bound_split::{Extent, Sight, sight_of};
use fixed_math::NoMemory;
use moving::Moving;
use patches::Piece;
use scene::{Frame, Prim};
use std::alloc::Global;
use std::marker::Model;

// What is known of a piece of the primitive of a number.
#[derive(Clone, Copy)]
pub(crate) struct Known {
    pub(crate) number: usize,
    pub(crate) piece: Piece,
    pub(crate) sight: Sight,
}

/// The sights of pieces of a frame's primitives. Each tile asks for those of the same pieces, so what was found of a piece is kept
/// until another one needs its place: there are 16,384. Of each whole primitive it is known all the time where it can show, so that a
/// tile meets only those that can show near it. Contracts see it as the frame.
#[derive(Drop)]
pub(crate) struct Sights<'a> {
    frame: &'a Frame,
    known: Vec<Option<Known>>,
    // of the whole primitives, by number
    extents: Vec<Extent>,
    // the primitives that can show in rectangles of pixels, each of which lies in that before it
    narrowed: Vec<Candidates>,
    // where the last primitive that was asked for stands in the last of them
    place: usize,
}

impl<'a> Model for Sights<'a> {
    ghost Value = { FrameValue };

    ghost view = { λ s. s.frame.now };

    ghost invariant = { λ s. IsSights s.frame.now s.known.items s.extents.items s.narrowed.items };
}

// The place of a piece: three products, by odd numbers of 64 bits, spread pieces that differ in little over the places.
fn place_of(piece: &Piece) -> usize
    ensures { result < 16384 }
{
    let across = piece.a as u64 * 65536 + piece.i as u64;
    let down = piece.b as u64 * 65536 + piece.j as u64;
    let number = piece.prim as u64;
    let mixed = number
        .wrapping_mul(0x9e3779b97f4a7c15)
        .wrapping_add(across.wrapping_mul(0xc2b2ae3d27d4eb4f))
        .wrapping_add(down.wrapping_mul(0x165667b19e3779f9));
    (mixed >> 40) as usize % 16384
}

// Looks at a piece of a primitive of a frame.
fn look_at(frame: &Frame, prim: &Prim, piece: &Piece) -> Sight
    ensures sight { IsSight frame.now prim.now piece.now result }
    ensures bound { pos 0 ≤ℤ prim.now.bound }
{
    match &prim.closing {
        None => sight_of(&prim.patch, piece, &frame.camera, prim.rate, prim.bound),
        Some(last) => {
            let moving = Moving {
                first: &prim.patch,
                last,
            };
            sight_of(&moving, piece, &frame.camera, prim.rate, prim.bound)
        }
    }
}

// Whether two pieces are the same one.
fn is_same(a: &Piece, b: &Piece) -> bool
    ensures { result ≡ same_part a.now b.now }
{
    a.prim == b.prim && (a.a == b.a && (a.i == b.i && (a.b == b.b && a.j == b.j)))
}

// The sight of a piece of the primitive of a number, where it is what is known.
fn sight_in(known: Option<Known>, number: usize, piece: &Piece) -> Option<Sight>
    ensures { (f : FrameValue) → IsKnown f known → IsSeen f number piece.now result }
{
    if let Some(it) = known {
        if it.number == number && is_same(&it.piece, piece) {
            return Some(it.sight);
        }
    }
    None
}

// The sight of a piece of the primitive of a number: that which is known, or a new look.
fn seen(known: Option<Known>, frame: &Frame, number: usize, prim: &Prim, piece: &Piece) -> Sight
    requires there { slice_get frame.now.prims number ≡ Some prim.now }
    requires known { IsKnown frame.now known }
    ensures { IsSight frame.now prim.now piece.now result }
{
    if let Some(sight) = sight_in(known, number, piece) {
        return sight;
    }
    look_at(frame, prim, piece)
}

// Where the whole primitives of a frame can show, by number.
fn extents_of(alloc: Global, frame: &Frame) -> Result<Vec<Extent>, NoMemory>
    ensures { IfOk result (λ e. AreExtents frame.now e.items) }
{
    let prims = prims_of(frame);
    let mut extents = Vec::new(alloc);
    for number in 0..prims.len() {
        let sight = look_at(frame, &prims[number], &Piece::whole(number as u32));
        extents.push(sight.extent)?;
    }
    Ok(extents)
}

// All primitives of a frame, of which none is left out yet.
fn first_narrowed(alloc: Global, frame: &Frame) -> Result<Vec<Candidates>, NoMemory>
    ensures { IfOk result (λ n. AreNarrowed frame.now n.items) }
{
    let mut narrowed = Vec::new(alloc);
    narrowed.push(Candidates::all(alloc, prims_of(frame).len())?)?;
    Ok(narrowed)
}

impl<'a> Sights<'a> {
    /// Of pieces nothing is known yet.
    pub(crate) fn new(alloc: Global, frame: &'a Frame) -> Result<Sights<'a>, NoMemory>
        ensures { IfOk result (λ s. s ≡ frame.now) }
    {
        Ok(Sights {
            frame,
            known: vec![in alloc; None; 16384]?,
            extents: extents_of(alloc, frame)?,
            narrowed: first_narrowed(alloc, frame)?,
            place: 0,
        })
    }

    /// Begins with the primitives that can show near a tile.
    pub(crate) fn turn_to(&mut self, tile: [u32; 4]) -> Result<(), NoMemory>
        ensures { self.new ≡ self.old }
    {
        let alloc = *self.known.allocator();
        self.place = 0;
        narrow_to(alloc, &mut self.narrowed, self.extents.as_slice(), tile)?;
        Ok(())
    }

    /// The number of the next primitive behind that of a number, but for some that can't show in a tile.
    pub(crate) fn behind(&mut self, number: usize, tile: [u32; 4]) -> usize
        requires { number < 65536 }
        ensures same { self.new ≡ self.old }
        ensures further { number < result }
        ensures small { result < 2 ^ 32 }
        ensures missed { MissBetween self.old (pixels_of tile) number result }
    {
        let count = prims_of(self.frame).len();
        match behind(self.narrowed.as_slice(), self.place, number, count, tile) {
            None => number + 1,
            Some(next) => {
                self.place += 1;
                next
            }
        }
    }

    /// The frame.
    pub(crate) fn frame(&self) -> &'a Frame
        ensures { result.now ≡ self.now }
    {
        self.frame
    }

    // What is kept at a place.
    fn known_at(&self, place: usize) -> Option<Known>
        requires { place < 16384 }
        ensures { IsKnown self.now result }
    {
        self.known.as_slice()[place]
    }

    // Keeps the sight of a piece of the primitive of a number at a place, and answers it.
    fn keep(&mut self, place: usize, number: usize, piece: &Piece, sight: &Sight) -> Sight
        requires place { place < 16384 }
        requires known { IsSeen self.old number piece.now (Some sight.now) }
        ensures same { self.new ≡ self.old }
        ensures sight { result ≡ sight.now }
    {
        self.known[place] = Some(Known {
            number,
            piece: *piece,
            sight: *sight,
        });
        *sight
    }

    /// The sight of a piece of the primitive of a number.
    pub(crate) fn of(&mut self, number: usize, prim: &Prim, piece: &Piece) -> Sight
        requires { slice_get self.old.prims number ≡ Some prim.now }
        ensures same { self.new ≡ self.old }
        ensures sight { IsSight self.old prim.now piece.now result }
    {
        let place = place_of(piece);
        let frame = self.frame();
        let sight = seen(self.known_at(place), frame, number, prim, piece);
        self.keep(place, number, piece, &sight)
    }
}
