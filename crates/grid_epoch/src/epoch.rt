// An epoch: pieces and their shaded grids, found by the piece.
ghost use Rattle.std.specs.Prelude.{◌≡◌, ◌+◌, ◌*◌, ◌<◌, ◌≤◌, ℕ, List, [], ◌∷◌, ◌++◌, length, slice_get, Some, MatchOption, IfOk, IfSome, OnOk, OnErr, nat_le, false, true};
ghost use Rattle.std.specs.List.{zip};
ghost use Rattle.grid_epoch.specs.Kept.{EpochValue, IsEpoch, pieces_in, points_in, has};

use fixed_math::NoMemory;
use hider::SeenGrid;
use indexmap::IndexSet;
use patches::Piece;
use std::alloc::Global;
use std::marker::Model;

/// The shaded grids of pieces as a camera sees them, which lie in one arena and have at most `limit` points in all. Contracts see it as its limit and
/// the list of pairs of a piece and its grid, in the order in which they were added; no piece stands there twice.
///
/// It borrows the arena, so that no grid can be read once that is gone.
#[derive(Drop)]
pub struct Epoch<'a> {
    limit: usize,
    live: usize,
    pieces: IndexSet<Piece>,
    grids: Vec<SeenGrid<'a>>,
}

impl<'a> Model for Epoch<'a> {
    ghost Value = { EpochValue };

    ghost view = { λ e. record { limit = e.limit; kept = zip e.pieces.keys e.grids.items } };

    ghost invariant = { λ e. IsEpoch e.limit e.live e.pieces.keys e.grids.items };
}

impl<'a> Epoch<'a> {
    /// An epoch that keeps no grid yet.
    pub fn new(alloc: Global, limit: usize) -> Epoch<'a>
        requires { 289 ≤ limit }
        ensures limit { result.limit ≡ limit }
        ensures kept { result.kept ≡ [] }
    {
        Epoch {
            limit,
            live: 0,
            pieces: IndexSet::new(alloc),
            grids: Vec::new(alloc),
        }
    }

    /// The points of all grids.
    pub fn live(&self) -> usize
        ensures value { result ≡ points_in self.now.kept }
        ensures bound { result ≤ self.now.limit }
    {
        self.live
    }

    /// Whether so many points more stay within the limit.
    pub fn room(&self, points: usize) -> bool
        ensures value { result ≡ nat_le (points_in self.now.kept + points) self.now.limit }
        ensures bound { points_in self.now.kept ≤ self.now.limit }
    {
        points <= self.limit - self.live
    }

    /// The place of a piece in the list, none where it isn't there.
    pub fn find(&self, piece: &Piece) -> Option<usize>
        ensures there { MatchOption result (has piece.now (pieces_in self.now.kept) ≡ false) (λ _. has piece.now (pieces_in self.now.kept) ≡ true) }
        ensures place { IfSome result (λ at. slice_get (pieces_in self.now.kept) at ≡ Some piece.now) }
        ensures within { IfSome result (λ at. at < length self.now.kept) }
    {
        self.pieces.get_index_of(piece)
    }

    /// The grid at a place of the list.
    pub fn grid(&self, at: usize) -> SeenGrid<'a>
        requires { at < length self.now.kept }
        ensures { IfSome (slice_get self.now.kept at) (λ k. result ≡ k.1) }
    {
        self.grids[at]
    }

    /// Keeps the grid of a piece, behind the others, and answers its place. There is room for its points, and the piece isn't
    /// there yet. `NoMemory` changes nothing.
    pub fn add(&mut self, piece: Piece, seen: SeenGrid<'a>) -> Result<usize, NoMemory>
        requires room { points_in self.old.kept + seen.grid.columns * seen.grid.rows ≤ self.old.limit }
        requires fresh { has piece (pieces_in self.old.kept) ≡ false }
        ensures place { IfOk result (λ at. at ≡ length self.old.kept) }
        ensures limit { self.new.limit ≡ self.old.limit }
        ensures kept { OnOk result (self.new.kept ≡ self.old.kept ++ (piece, seen.entry) ∷ []) }
        ensures refused { OnErr result (self.new.kept ≡ self.old.kept) }
    {
        let at = self.grids.len();
        let points = seen.grid.columns * seen.grid.rows;
        self.grids.push(seen)?;
        if let Err(refused) = self.pieces.insert(piece) {
            self.grids.pop();
            return Err(NoMemory::from(refused));
        }
        self.live += points;
        Ok(at)
    }
}
