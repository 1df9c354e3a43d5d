// The walk over the tree of splits, leaf after leaf.
ghost use Rattle.std.specs.Prelude.{◌≡◌, ◌≤◌, ◌<◌, ◌+◌, ℕ, List, [], ◌∷◌, ◌++◌, true, length, MatchOption, IfSome, OnSome, IfNone, pos, ◌≤ℤ◌};
ghost use Rattle.patches.specs.Parts.{Part, IsPart};
ghost use Rattle.bound_split.specs.declared.splits.Decision.{Decision};
ghost use Rattle.bound_split.specs.Decisions.{decision_of, FitsPart};
ghost use Rattle.bound_split.specs.Leaves.{leaves, pending, IsBelow, IsDeepFrom};
ghost use Rattle.bound_split.specs.Culling.{IsNext, IsNextKept, PassesOver, visits};

use crate::deciding::decide;
use crate::splits::{Decision, halves};
use arrayvec::ArrayVec;
use fixed_math::Num;
use patches::{Piece, Surface};
use std::marker::Model;
use transforms::Camera;

/// A piece that is diced, into 2^`p` cells along u and 2^`q` cells along v.
#[derive(Debug, Clone, Copy, PartialEq, Eq)]
pub struct Leaf {
    pub piece: Piece,
    pub p: u8,
    pub q: u8,
}

/// The pieces of a tree of splits that are still to be visited, the next one last.
#[derive(Drop)]
pub struct Walk {
    stack: ArrayVec<Piece, 17>,
}

impl Model for Walk {
    ghost Value = { List Part };

    ghost view = { λ w. w.stack.items };

    ghost invariant = { λ w. IsDeepFrom 0 w.stack.items };
}

impl Walk {
    /// A walk through the leaves below `piece`; there is at least one.
    pub fn new(piece: Piece) -> Walk
        ensures value { result ≡ piece ∷ [] }
        ensures some { (decide : Part → Decision) → 0 < length (leaves decide piece) }
    {
        let mut stack = ArrayVec::new();
        stack.push(piece);
        Walk { stack }
    }

    /// The next leaf and its grid sizes, none once every leaf was given.
    ///
    /// The leaves of a piece come in order, those of the first half before those of the second. What a loop over the
    /// walk still has to do is the list of pending leaves, which is one shorter after each call that gives a leaf.
    pub fn next<S: Surface>(
        &mut self,
        s: &S,
        camera: &Camera,
        rate: Num,
        bound: Num,
    ) -> Option<Leaf>
        requires low { pos 0 ≤ℤ bound }
        requires high { bound ≤ℤ pos 536870912 }
        ensures leaf { let decide = decision_of camera.now rate bound (S.width_of s.now) (S.net_of s.now) in
            IsNext (pending decide self.old) (pending decide self.new) result }
        ensures sizes { let decide = decision_of camera.now rate bound (S.width_of s.now) (S.net_of s.now) in
            IfSome result (λ leaf. decide leaf.piece ≡ Decision.Dice leaf.p leaf.q) }
        ensures small { IfSome result (λ leaf. IsPart leaf.piece × (leaf.p ≤ 4) × (leaf.q ≤ 4)) }
        ensures ended { IfNone result (self.new ≡ self.old) }
    {
        self.next_kept(s, camera, rate, bound, |_| true)
    }

    /// The next leaf that a test keeps, none where it keeps no other. A piece that the test drops isn't split.
    ///
    /// For a test that no leaf of a dropped piece passes, what the calls give is the filter of all leaves by the test.
    /// The test may be another one at each call: a call goes past leaves that its own test drops, and no others.
    pub fn next_kept<S: Surface, F: Fn(Piece) -> bool>(
        &mut self,
        s: &S,
        camera: &Camera,
        rate: Num,
        bound: Num,
        keeps: F,
    ) -> Option<Leaf>
        requires test { F.IsAlwaysCallable keeps }
        requires low { pos 0 ≤ℤ bound }
        requires high { bound ≤ℤ pos 536870912 }
        ensures filtered { let decide = decision_of camera.now rate bound (S.width_of s.now) (S.net_of s.now) in
            IsNextKept (F.post keeps) decide self.old self.new result }
        ensures skipped { let decide = decision_of camera.now rate bound (S.width_of s.now) (S.net_of s.now) in
            PassesOver (F.post keeps) decide self.old self.new result }
        ensures passed { IfSome result (λ leaf. F.post keeps leaf.piece true) }
        ensures sizes { let decide = decision_of camera.now rate bound (S.width_of s.now) (S.net_of s.now) in
            IfSome result (λ leaf. decide leaf.piece ≡ Decision.Dice leaf.p leaf.q) }
        ensures small { IfSome result (λ leaf. IsPart leaf.piece × (leaf.p ≤ 4) × (leaf.q ≤ 4)) }
        ensures ended { IfNone result (self.new ≡ []) }
    {
        next_leaf(&mut self.stack, s, camera, rate, bound, keeps)
    }

    /// Takes the next piece that is to be visited, none at the end. What is dropped in this way isn't split; `visit` goes on below a
    /// piece that was taken.
    pub fn take(&mut self) -> Option<Piece>
        ensures taken { MatchOption result ((self.old ≡ []) × (self.new ≡ [])) (λ piece. self.old ≡ self.new ++ piece ∷ []) }
        ensures part { IfSome result (λ piece. IsPart piece) }
        ensures deep { IfSome result (λ piece. IsDeepFrom 0 (self.new ++ piece ∷ [])) }
    {
        let piece = self.stack.pop()?;
        piece.recall();
        Some(piece)
    }

    /// Visits a piece that was taken: it is the next leaf where it is diced, else its halves are to be visited, the first one before
    /// the second.
    pub fn visit(&mut self, piece: Piece, decision: Decision) -> Option<Leaf>
        requires deep { IsDeepFrom 0 (self.old ++ piece ∷ []) }
        requires fits { FitsPart decision piece }
        ensures leaf { (decide : Part → Decision) → decide piece ≡ decision →
            IfSome result (λ leaf. (leaf.piece ≡ piece) × (leaves decide piece ≡ piece ∷ []) × (self.new ≡ self.old)) }
        ensures split { (decide : Part → Decision) → decide piece ≡ decision →
            IfNone result (pending decide self.new ≡ leaves decide piece ++ pending decide self.old) }
        ensures fewer { IfNone result (visits self.new < visits (self.old ++ piece ∷ [])) }
        ensures sizes { IfSome result (λ leaf. decision ≡ Decision.Dice leaf.p leaf.q) }
        ensures small { IfSome result (λ leaf. IsPart leaf.piece × (leaf.p ≤ 4) × (leaf.q ≤ 4)) }
    {
        visit(&mut self.stack, piece, decision)
    }
}

/// The next leaf of a stack of pieces that a test keeps.
fn next_leaf<S: Surface, F: Fn(Piece) -> bool>(
    stack: &mut ArrayVec<Piece, 17>,
    s: &S,
    camera: &Camera,
    rate: Num,
    bound: Num,
    keeps: F,
) -> Option<Leaf>
    requires test { F.IsAlwaysCallable keeps }
    requires deep { IsDeepFrom 0 stack.old.items }
    requires low { pos 0 ≤ℤ bound }
    requires high { bound ≤ℤ pos 536870912 }
    ensures skipped { let decide = decision_of camera.now rate bound (S.width_of s.now) (S.net_of s.now) in
        PassesOver (F.post keeps) decide stack.old.items stack.new.items result }
    ensures passed { IfSome result (λ leaf. F.post keeps leaf.piece true) }
    ensures sizes { let decide = decision_of camera.now rate bound (S.width_of s.now) (S.net_of s.now) in
        IfSome result (λ leaf. decide leaf.piece ≡ Decision.Dice leaf.p leaf.q) }
    ensures small { IfSome result (λ leaf. IsPart leaf.piece × (leaf.p ≤ 4) × (leaf.q ≤ 4)) }
    ensures ended { IfNone result (stack.new.items ≡ []) }
    ensures deep { IsDeepFrom 0 stack.new.items }
{
    while let Some(piece) = stack.pop() {
        piece.recall();
        if keeps(piece) {
            let decision = decide(s, &piece, camera, rate, bound);
            if let Some(leaf) = visit(stack, piece, decision) {
                return Some(leaf);
            }
        }
    }
    None
}

/// The piece as a leaf where it is diced; else its halves go to the stack, the first one on top.
fn visit(stack: &mut ArrayVec<Piece, 17>, piece: Piece, decision: Decision) -> Option<Leaf>
    requires deep { IsDeepFrom 0 (stack.old.items ++ piece ∷ []) }
    requires fits { FitsPart decision piece }
    ensures leaf { (decide : Part → Decision) → decide piece ≡ decision →
        IfSome result (λ leaf. (leaf.piece ≡ piece) × (leaves decide piece ≡ piece ∷ []) × (stack.new.items ≡ stack.old.items)) }
    ensures split { (decide : Part → Decision) → decide piece ≡ decision →
        IfNone result (pending decide stack.new.items ≡ leaves decide piece ++ pending decide stack.old.items) }
    ensures fewer { IfNone result (visits stack.new.items < visits (stack.old.items ++ piece ∷ [])) }
    ensures sizes { IfSome result (λ leaf. decision ≡ Decision.Dice leaf.p leaf.q) }
    ensures small { IfSome result (λ leaf. IsPart leaf.piece × (leaf.p ≤ 4) × (leaf.q ≤ 4)) }
    ensures deep { IsDeepFrom 0 stack.new.items }
{
    match decision {
        Decision::SplitU => {
            let [low, high] = halves(&piece, true);
            push_halves(stack, &piece, low, high);
            None
        }
        Decision::SplitV => {
            let [low, high] = halves(&piece, false);
            push_halves(stack, &piece, low, high);
            None
        }
        Decision::Dice { p, q } => {
            piece.recall();
            Some(Leaf { piece, p, q })
        }
    }
}

/// Puts the halves of a piece on the stack in its place, the first one on top.
fn push_halves(stack: &mut ArrayVec<Piece, 17>, piece: &Piece, low: Piece, high: Piece)
    requires deep { IsDeepFrom 0 (stack.old.items ++ piece.now ∷ []) }
    requires low { IsBelow piece.now low }
    requires high { IsBelow piece.now high }
    ensures items { stack.new.items ≡ stack.old.items ++ high ∷ low ∷ [] }
    ensures deep { IsDeepFrom 0 stack.new.items }
{
    stack.push(high);
    stack.push(low);
}
