// Laws of the walk through a frame's tiles, and of a frame's parts, as contracts.
ghost use Rattle.buckets.specs.FrameParts.{TablesMakePictures};
ghost use Rattle.buckets.specs.TileLaws.{ShadesWhereMet, ShadesOnce, CoversNothingUnmet, LiesBehindOpaque, TilesAreSmall, LosesNothing, PassesOverWhole};

/// The law of shadings: no leaf is shaded for a tile that it doesn't meet, and for each that it meets at most once.
pub fn shadings_law()
    ensures { ShadesWhereMet }
{}

/// The law of one epoch: where the grids of all leaves that meet some tile have no more points than are kept, they are kept in one
/// epoch, and each leaf is shaded at most once.
pub fn one_epoch_law()
    ensures { ShadesOnce }
{}

/// The law of leaves that a tile leaves out: what doesn't meet it covers none of its samples, displacement and motion included.
pub fn unmet_law()
    ensures { CoversNothingUnmet }
{}

/// The law of leaves that a tile passes over: where an opaque fragment lies nearer at each sample than a leaf's least depth less its
/// bound, all that shows of the leaf lies strictly behind an opaque fragment.
pub fn behind_law()
    ensures { LiesBehindOpaque }
{}

/// The law of a tile's samples: they are at most those of a bucket and of the pixels that the filter reaches about it.
pub fn tile_samples_law()
    ensures { TilesAreSmall }
{}

/// The law of what is left out: the leaves that a tile shows give each of its samples the colour that all leaves give it.
pub fn nothing_lost_law()
    ensures { LosesNothing }
{}

/// The law of pieces that are passed over whole: where a piece doesn't meet a tile, or lies behind what shows there, no leaf below it
/// would be shown.
pub fn passed_over_law()
    ensures { PassesOverWhole }
{}

/// The law of parts: the picture that a frame's table makes is the frame's, so that all of a frame's parts, joined, make its picture.
pub fn frame_table_law()
    ensures { TablesMakePictures }
{}
