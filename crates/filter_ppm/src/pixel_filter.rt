// The filter of a frame, which gives the pixels of rectangles from tiles.
ghost use Rattle.std.specs.Prelude.{ℕ, ◌≡◌, ◌≤◌, ◌<◌, ◌+◌, ◌-◌, ◌*◌, ◌⊎◌, IfOk, OnOk, [], List, length, get_or, slice_index_or};
ghost use Rattle.scene.specs.Settings.{AreOptions, crop_of};
ghost use Rattle.hider.specs.declared.fragment.Fragment.{Fragment};
ghost use Rattle.hider.specs.declared.sample.Sample.{Sample};
ghost use Rattle.hider.specs.Composite.{composite};
ghost use Rattle.hider.specs.Tiles.{Shows, IsSampleGrid, sample_count};
ghost use Rattle.filter_ppm.specs.Sampled.{FilmFormat, IsFormat, film_with};
ghost use Rattle.filter_ppm.specs.Bands.{rect_with, grid_over, seen_from, place_in, entry, crop_in, IsOutside, AreSameBeside, IsPartOfPicture, PutsPixels};
ghost use Rattle.filter_ppm.specs.Film.{pixels};
ghost use Rattle.filter_ppm.specs.Levels.{levels};
ghost use Rattle.filter_ppm.specs.Sums.{none, mean_of, total_at, IsRect, HasTotals, AreOver, AreMeans};

use crate::adding::add_tile;
use crate::black::all_black;
use crate::film::Film;
use crate::levels::pixel_levels;
use crate::rect::{Rect, rect_of};
use crate::span::Span;
use crate::tables::Weights;
use crate::total::{Total, mean, no_total};
use fixed_math::NoMemory;
use hider::Tile;
use scene::Options;
use std::alloc::Global;
use std::marker::Model;

/// The filter of a frame: the weights of its samples as tables, and the sums of pixels. Its memory is taken once, and serves
/// for all tiles of the frame. Contracts see it as the frame that it was made of.
#[derive(Drop)]
pub struct PixelFilter {
    width: u32,
    height: u32,
    options: Options,
    weights: Weights,
    totals: Vec<Total>,
}

impl Model for PixelFilter {
    ghost Value = { FilmFormat };

    ghost view = { λ f. record { width = f.width; height = f.height; options = f.options } };

    ghost invariant = { λ f. IsFormat (record { width = f.width; height = f.height; options = f.options }) × f.weights ≡ f.options };
}

/// Sums over nothing for so many pixels, in memory that is used again.
fn clear(totals: &mut Vec<Total>, count: usize) -> Result<(), NoMemory>
    ensures long { OnOk result (length totals.new.items ≡ count) }
    ensures empty { OnOk result ((p : ℕ) → get_or totals.new.items p none ≡ none) }
{
    totals.clear();
    totals.resize(count, no_total())?;
    Ok(())
}

/// Sums for the pixels of a rectangle whose means are those over a tile's samples: over all of them, or over none where all are
/// black, as many tiles of a picture are.
fn fill(totals: &mut Vec<Total>, weights: &Weights, r: &Rect, tile: &Tile) -> Result<(), NoMemory>
    requires options { AreOptions weights.now }
    requires rect { IsRect r.now }
    requires grid { IsSampleGrid tile.now.grid }
    ensures long { OnOk result (HasTotals r.now totals.new.items) }
    ensures over { OnOk result (AreOver (sample_count tile.now.grid) r.now totals.new.items) }
    ensures means { OnOk result ((f : Sample → List Fragment) → Shows tile.now f → AreMeans weights.now (λ s. composite (f s)) tile.now.grid (sample_count tile.now.grid) r.now totals.new.items) }
{
    clear(totals, r.count())?;
    if !all_black(tile) {
        let tables = weights.at_hand();
        add_tile(totals, &tables, r, tile);
    }
    Ok(())
}

/// Writes the pixels of a rectangle's row `y`, by their sums, into the band of its rows, which has these columns.
fn put_row(
    band: &mut [[u32; 3]],
    columns: Span,
    options: &Options,
    r: &Rect,
    y: usize,
    totals: &[Total],
    n: usize,
)
    requires rect { IsRect r.now }
    requires left { columns.first ≤ r.now.left }
    requires right { r.now.right ≤ columns.end }
    requires most { columns.end ≤ 4096 }
    requires top { r.now.top ≤ y }
    requires bottom { y < r.now.bottom }
    requires band { length band.old ≡ (columns.end - columns.first) * (r.now.bottom - r.now.top) }
    requires totals { HasTotals r.now totals.now }
    requires over { AreOver n r.now totals.now }
    ensures inside { (x : ℕ) → r.now.left ≤ x → x < r.now.right → entry columns.first columns.end r.now.top band.new x y ≡ levels options.now (mean_of (total_at r.now totals.now x y)) }
    ensures others { let at = λ (x : ℕ). place_in columns.first columns.end r.now.top x y in (p : ℕ) → IsOutside (at r.now.left) (at r.now.right) p → get_or band.new p [] ≡ get_or band.old p [] }
{
    let start = (y - r.top) * (columns.end - columns.first);
    let first = (y - r.top) * r.width();
    for x in r.left..r.right {
        let p = first + (x - r.left);
        band[start + (x - columns.first)] = pixel_levels(options, mean(&totals[p], n));
    }
}

/// Writes the pixels of a rectangle, by their sums, into the band of its rows, which has these columns.
fn put_rows(
    band: &mut [[u32; 3]],
    columns: Span,
    options: &Options,
    r: &Rect,
    totals: &[Total],
    n: usize,
)
    requires rect { IsRect r.now }
    requires left { columns.first ≤ r.now.left }
    requires right { r.now.right ≤ columns.end }
    requires most { columns.end ≤ 4096 }
    requires band { length band.old ≡ (columns.end - columns.first) * (r.now.bottom - r.now.top) }
    requires totals { HasTotals r.now totals.now }
    requires over { AreOver n r.now totals.now }
    ensures inside { (x y : ℕ) → r.now.left ≤ x → x < r.now.right → r.now.top ≤ y → y < r.now.bottom → entry columns.first columns.end r.now.top band.new x y ≡ levels options.now (mean_of (total_at r.now totals.now x y)) }
    ensures beside { AreSameBeside columns.first columns.end r.now band.old band.new }
{
    for y in r.top..r.bottom {
        put_row(band, columns, options, r, y, totals, n);
    }
}

/// The columns of the picture.
fn columns_of(options: &Options) -> Span
    ensures left { result.first ≡ (crop_of options.now).left }
    ensures right { result.end ≡ (crop_of options.now).right }
{
    let [left, _, right, _] = options.crop;
    Span {
        first: left as usize,
        end: right as usize,
    }
}

impl PixelFilter {
    /// The filter of a frame.
    pub fn new(alloc: Global, film: &Film) -> Result<PixelFilter, NoMemory>
        ensures { IfOk result (λ filter. filter ≡ film.now) }
    {
        let pixels = film.width as usize * film.height as usize;
        let weights = Weights::new(alloc, &film.options, pixels)?;
        Ok(PixelFilter {
            width: film.width,
            height: film.height,
            options: film.options,
            weights,
            totals: Vec::new(alloc),
        })
    }

    /// Writes the pixels of a rectangle of the picture, left, top, right and bottom in the frame, into `band`, which has all pixels of
    /// the picture's rows from the rectangle's top to its bottom. Every pixel is the mean over all samples of the frame: the tile
    /// has those of all pixels within the filter's reach, in the picture or not, and no other sample counts.
    pub fn put(
        &mut self,
        tile: &Tile,
        rect: [u32; 4],
        band: &mut [[u32; 3]],
    ) -> Result<(), NoMemory>
        requires part { IsPartOfPicture self.old (rect_with rect) }
        requires grid { tile.now.grid ≡ grid_over (seen_from self.old (rect_with rect)) self.old.options }
        requires band { length band.old ≡ ((crop_in self.old).right - (crop_in self.old).left) * (slice_index_or rect 3 0 - slice_index_or rect 1 0) }
        ensures film { self.new ≡ self.old }
        ensures pixels { OnOk result ((f : Sample → List Fragment) → Shows tile.now f → PutsPixels (film_with self.old (λ s. composite (f s))) (rect_with rect) band.old band.new) }
    {
        let r = rect_of(rect);
        let columns = columns_of(&self.options);
        self.options.ranges_known();
        fill(&mut self.totals, &self.weights, &r, tile)?;
        put_rows(
            band,
            columns,
            &self.options,
            &r,
            self.totals.as_slice(),
            tile.samples(),
        );
        Ok(())
    }

    /// The pixels of a rectangle of the picture by themselves, by rows from the top.
    pub fn pixels(
        &mut self,
        alloc: Global,
        tile: &Tile,
        rect: [u32; 4],
    ) -> Result<Vec<[u32; 3]>, NoMemory>
        requires part { IsPartOfPicture self.old (rect_with rect) }
        requires grid { tile.now.grid ≡ grid_over (seen_from self.old (rect_with rect)) self.old.options }
        ensures film { self.new ≡ self.old }
        ensures pixels { IfOk result (λ band. (f : Sample → List Fragment) → Shows tile.now f → band.items ≡ pixels (film_with self.old (λ s. composite (f s))) (rect_with rect)) }
    {
        let r = rect_of(rect);
        let columns = Span {
            first: r.left,
            end: r.right,
        };
        self.options.ranges_known();
        fill(&mut self.totals, &self.weights, &r, tile)?;
        let mut band = vec![in alloc; [0; 3]; r.count()]?;
        put_rows(
            band.as_mut_slice(),
            columns,
            &self.options,
            &r,
            self.totals.as_slice(),
            tile.samples(),
        );
        Ok(band)
    }
}
