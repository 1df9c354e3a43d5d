// The rows of the table.
ghost use Rattle.std.specs.Prelude.{◌≡◌};
ghost use Rattle.rib_reader.specs.Table.{row_of, shapes_of, rules_of};

use crate::faults::RibCode;
use crate::req::Req;
use crate::table::{Row, Rule, Shape, Tail, Words};

// 360 degrees, as a raw.
const FULL_TURN: i64 = 23_592_960;

/// The row of a request.
pub fn row(name: Req) -> Row
    ensures shapes { result.shapes.now ≡ shapes_of name }
    ensures rules { result.rules.now ≡ rules_of name }
    ensures tail { result.tail ≡ (row_of name).tail }
{
    match name {
        Req::FrameBegin => Row {
            shapes: &[Shape::Whole],
            rules: &[],
            tail: Tail::Empty,
        },
        Req::FrameEnd
        | Req::WorldBegin
        | Req::WorldEnd
        | Req::AttributeBegin
        | Req::AttributeEnd
        | Req::TransformBegin
        | Req::TransformEnd
        | Req::MotionEnd
        | Req::Identity
        | Req::ReverseOrientation => Row {
            shapes: &[],
            rules: &[],
            tail: Tail::Empty,
        },
        Req::Declare => Row {
            shapes: &[Shape::Word, Shape::Word],
            rules: &[Rule::Declaration],
            tail: Tail::Empty,
        },
        Req::Format => Row {
            shapes: &[Shape::Whole, Shape::Whole, Shape::Number],
            rules: &[
                Rule::Within(0, 1, 2_147_483_647),
                Rule::Within(1, 1, 2_147_483_647),
            ],
            tail: Tail::Empty,
        },
        Req::FrameAspectRatio => Row {
            shapes: &[Shape::Number],
            rules: &[Rule::AtLeast(0, 1)],
            tail: Tail::Empty,
        },
        Req::ScreenWindow => Row {
            shapes: &[Shape::Number, Shape::Number, Shape::Number, Shape::Number],
            rules: &[Rule::Rising(0, 1), Rule::Rising(2, 3)],
            tail: Tail::Empty,
        },
        Req::CropWindow => Row {
            shapes: &[Shape::Number, Shape::Number, Shape::Number, Shape::Number],
            rules: &[
                Rule::Between(0, 0, 65_536),
                Rule::Between(1, 0, 65_536),
                Rule::Rising(0, 1),
                Rule::Between(2, 0, 65_536),
                Rule::Between(3, 0, 65_536),
                Rule::Rising(2, 3),
            ],
            tail: Tail::Empty,
        },
        Req::Clipping => Row {
            shapes: &[Shape::Number, Shape::Number],
            rules: &[Rule::AtLeast(0, 1), Rule::Rising(0, 1)],
            tail: Tail::Empty,
        },
        Req::Projection => Row {
            shapes: &[Shape::Word],
            rules: &[Rule::OneOf(0, Words::Projections, RibCode::S2)],
            tail: Tail::Parameters,
        },
        Req::PixelSamples => Row {
            shapes: &[Shape::Number, Shape::Number],
            rules: &[Rule::AtLeast(0, 65_536), Rule::AtLeast(1, 65_536)],
            tail: Tail::Empty,
        },
        Req::PixelFilter => Row {
            shapes: &[Shape::Word, Shape::Number, Shape::Number],
            rules: &[
                Rule::OneOf(0, Words::Filters, RibCode::S2),
                Rule::AtLeast(1, 256),
                Rule::AtLeast(2, 256),
            ],
            tail: Tail::Empty,
        },
        Req::Exposure => Row {
            shapes: &[Shape::Number, Shape::Number],
            rules: &[Rule::AtLeast(1, 1)],
            tail: Tail::Empty,
        },
        Req::Quantize => Row {
            shapes: &[
                Shape::Word,
                Shape::Whole,
                Shape::Whole,
                Shape::Whole,
                Shape::Number,
            ],
            rules: &[Rule::Levels],
            tail: Tail::Empty,
        },
        Req::Display => Row {
            shapes: &[Shape::Word, Shape::Word, Shape::Word],
            rules: &[Rule::OneOf(2, Words::Modes, RibCode::S2)],
            tail: Tail::Free,
        },
        Req::Color | Req::Opacity => Row {
            shapes: &[Shape::Array(3)],
            rules: &[],
            tail: Tail::Empty,
        },
        Req::ShadingRate => Row {
            shapes: &[Shape::Number],
            rules: &[],
            tail: Tail::Empty,
        },
        Req::ShadingInterpolation => Row {
            shapes: &[Shape::Word],
            rules: &[Rule::OneOf(0, Words::Interpolations, RibCode::S3)],
            tail: Tail::Empty,
        },
        Req::Sides => Row {
            shapes: &[Shape::Whole],
            rules: &[Rule::Within(0, 1, 2)],
            tail: Tail::Empty,
        },
        Req::Orientation => Row {
            shapes: &[Shape::Word],
            rules: &[
                Rule::OneOf(0, Words::Orientations, RibCode::S3),
                Rule::NoneOf(0, Words::Handed),
            ],
            tail: Tail::Empty,
        },
        Req::Surface | Req::Displacement | Req::Atmosphere => Row {
            shapes: &[Shape::Word],
            rules: &[],
            tail: Tail::Parameters,
        },
        Req::LightSource => Row {
            shapes: &[Shape::Word, Shape::Whole],
            rules: &[],
            tail: Tail::Parameters,
        },
        Req::Illuminate => Row {
            shapes: &[Shape::Whole, Shape::Whole],
            rules: &[Rule::Within(1, 0, 1)],
            tail: Tail::Empty,
        },
        Req::Attribute => Row {
            shapes: &[Shape::Word],
            rules: &[],
            tail: Tail::Attribute,
        },
        Req::Basis => Row {
            shapes: &[Shape::Word, Shape::Whole, Shape::Word, Shape::Whole],
            rules: &[
                Rule::NoArray(0),
                Rule::OneOf(0, Words::Bases, RibCode::S3),
                Rule::Within(1, 1, 2_147_483_647),
                Rule::NoArray(2),
                Rule::OneOf(2, Words::Bases, RibCode::S3),
                Rule::Within(3, 1, 2_147_483_647),
            ],
            tail: Tail::Empty,
        },
        Req::Translate | Req::Scale => Row {
            shapes: &[Shape::Number, Shape::Number, Shape::Number],
            rules: &[],
            tail: Tail::Empty,
        },
        Req::Rotate => Row {
            shapes: &[Shape::Number, Shape::Number, Shape::Number, Shape::Number],
            rules: &[],
            tail: Tail::Empty,
        },
        Req::Transform | Req::ConcatTransform => Row {
            shapes: &[Shape::Array(16)],
            rules: &[],
            tail: Tail::Empty,
        },
        Req::Patch => Row {
            shapes: &[Shape::Word],
            rules: &[Rule::OneOf(0, Words::Patches, RibCode::S3)],
            tail: Tail::PatchVariables,
        },
        Req::PatchMesh => Row {
            shapes: &[
                Shape::Word,
                Shape::Whole,
                Shape::Word,
                Shape::Whole,
                Shape::Word,
            ],
            rules: &[
                Rule::OneOf(0, Words::Patches, RibCode::S3),
                Rule::Within(1, 1, 65_536),
                Rule::OneOf(2, Words::Wraps, RibCode::S3),
                Rule::Within(3, 1, 65_536),
                Rule::OneOf(4, Words::Wraps, RibCode::S3),
            ],
            tail: Tail::PatchVariables,
        },
        Req::Polygon => Row {
            shapes: &[],
            rules: &[],
            tail: Tail::Variables,
        },
        Req::PointsPolygons => Row {
            shapes: &[Shape::Wholes, Shape::Wholes],
            rules: &[],
            tail: Tail::Variables,
        },
        Req::Sphere => Row {
            shapes: &[Shape::Number, Shape::Number, Shape::Number, Shape::Number],
            rules: &[
                Rule::AtLeast(0, 1),
                Rule::WholeSphere,
                Rule::Only(3, FULL_TURN),
            ],
            tail: Tail::QuadricVariables,
        },
        Req::Cylinder => Row {
            shapes: &[Shape::Number, Shape::Number, Shape::Number, Shape::Number],
            rules: &[Rule::AtLeast(0, 1), Rule::Only(3, FULL_TURN)],
            tail: Tail::QuadricVariables,
        },
        Req::Cone | Req::Disk => Row {
            shapes: &[Shape::Number, Shape::Number, Shape::Number],
            rules: &[Rule::AtLeast(1, 1), Rule::Only(2, FULL_TURN)],
            tail: Tail::QuadricVariables,
        },
        Req::Shutter => Row {
            shapes: &[Shape::Number, Shape::Number],
            rules: &[Rule::Ordered(0, 1)],
            tail: Tail::Empty,
        },
        Req::MotionBegin => Row {
            shapes: &[Shape::Array(2)],
            rules: &[Rule::Times],
            tail: Tail::Empty,
        },
        Req::Version
        | Req::ErrorHandler
        | Req::Hider
        | Req::RelativeDetail
        | Req::GeometricApproximation
        | Req::PixelVariance
        | Req::Bound
        | Req::CoordinateSystem
        | Req::Option => Row {
            shapes: &[],
            rules: &[],
            tail: Tail::Anything,
        },
    }
}
