// Names with what they stand for.
ghost use Rattle.std.specs.Prelude.{◌≡◌, map};
ghost use Rattle.rib_reader.specs.Names.{entry_of, request_names, class_names, kind_names, variable_names, is_make, named};
ghost use Rattle.rib_reader.specs.Entries.{plain};

use crate::entry::Entry;
use crate::req::Req;
use scene::{Class, Kind};

/// What a request's name stands for.
#[derive(Clone, Copy)]
pub enum Named {
    Known(Req),
    LeftOut,
}

// What the name stands for in this table.
fn find<T: Copy>(entries: &[Entry<T>], name: &str) -> Option<T>
    ensures { result ≡ entry_of (map plain entries.now) name.now }
{
    for entry in entries {
        if entry.0 == name {
            return Some(entry.1);
        }
    }
    None
}

fn requests() -> &'static [Entry<Named>]
    ensures { map plain result.now ≡ request_names }
{
    &[
        Entry("FrameBegin", Named::Known(Req::FrameBegin)),
        Entry("FrameEnd", Named::Known(Req::FrameEnd)),
        Entry("WorldBegin", Named::Known(Req::WorldBegin)),
        Entry("WorldEnd", Named::Known(Req::WorldEnd)),
        Entry("AttributeBegin", Named::Known(Req::AttributeBegin)),
        Entry("AttributeEnd", Named::Known(Req::AttributeEnd)),
        Entry("TransformBegin", Named::Known(Req::TransformBegin)),
        Entry("TransformEnd", Named::Known(Req::TransformEnd)),
        Entry("Identity", Named::Known(Req::Identity)),
        Entry("ReverseOrientation", Named::Known(Req::ReverseOrientation)),
        Entry("Declare", Named::Known(Req::Declare)),
        Entry("Format", Named::Known(Req::Format)),
        Entry("FrameAspectRatio", Named::Known(Req::FrameAspectRatio)),
        Entry("ScreenWindow", Named::Known(Req::ScreenWindow)),
        Entry("CropWindow", Named::Known(Req::CropWindow)),
        Entry("Clipping", Named::Known(Req::Clipping)),
        Entry("Projection", Named::Known(Req::Projection)),
        Entry("PixelSamples", Named::Known(Req::PixelSamples)),
        Entry("PixelFilter", Named::Known(Req::PixelFilter)),
        Entry("Exposure", Named::Known(Req::Exposure)),
        Entry("Quantize", Named::Known(Req::Quantize)),
        Entry("Display", Named::Known(Req::Display)),
        Entry("Color", Named::Known(Req::Color)),
        Entry("Opacity", Named::Known(Req::Opacity)),
        Entry("ShadingRate", Named::Known(Req::ShadingRate)),
        Entry(
            "ShadingInterpolation",
            Named::Known(Req::ShadingInterpolation),
        ),
        Entry("Sides", Named::Known(Req::Sides)),
        Entry("Orientation", Named::Known(Req::Orientation)),
        Entry("Surface", Named::Known(Req::Surface)),
        Entry("Displacement", Named::Known(Req::Displacement)),
        Entry("Atmosphere", Named::Known(Req::Atmosphere)),
        Entry("LightSource", Named::Known(Req::LightSource)),
        Entry("Illuminate", Named::Known(Req::Illuminate)),
        Entry("Attribute", Named::Known(Req::Attribute)),
        Entry("Basis", Named::Known(Req::Basis)),
        Entry("Translate", Named::Known(Req::Translate)),
        Entry("Scale", Named::Known(Req::Scale)),
        Entry("Rotate", Named::Known(Req::Rotate)),
        Entry("Transform", Named::Known(Req::Transform)),
        Entry("ConcatTransform", Named::Known(Req::ConcatTransform)),
        Entry("Patch", Named::Known(Req::Patch)),
        Entry("PatchMesh", Named::Known(Req::PatchMesh)),
        Entry("Polygon", Named::Known(Req::Polygon)),
        Entry("PointsPolygons", Named::Known(Req::PointsPolygons)),
        Entry("Sphere", Named::Known(Req::Sphere)),
        Entry("Cylinder", Named::Known(Req::Cylinder)),
        Entry("Cone", Named::Known(Req::Cone)),
        Entry("Disk", Named::Known(Req::Disk)),
        Entry("version", Named::Known(Req::Version)),
        Entry("ErrorHandler", Named::Known(Req::ErrorHandler)),
        Entry("Hider", Named::Known(Req::Hider)),
        Entry("Shutter", Named::Known(Req::Shutter)),
        Entry("MotionBegin", Named::Known(Req::MotionBegin)),
        Entry("MotionEnd", Named::Known(Req::MotionEnd)),
        Entry("RelativeDetail", Named::Known(Req::RelativeDetail)),
        Entry(
            "GeometricApproximation",
            Named::Known(Req::GeometricApproximation),
        ),
        Entry("PixelVariance", Named::Known(Req::PixelVariance)),
        Entry("Bound", Named::Known(Req::Bound)),
        Entry("CoordinateSystem", Named::Known(Req::CoordinateSystem)),
        Entry("Option", Named::Known(Req::Option)),
        Entry("ReadArchive", Named::LeftOut),
        Entry("GeneralPolygon", Named::LeftOut),
        Entry("PointsGeneralPolygons", Named::LeftOut),
        Entry("NuPatch", Named::LeftOut),
        Entry("TrimCurve", Named::LeftOut),
        Entry("SubdivisionMesh", Named::LeftOut),
        Entry("Curves", Named::LeftOut),
        Entry("Points", Named::LeftOut),
        Entry("Blobby", Named::LeftOut),
        Entry("Hyperboloid", Named::LeftOut),
        Entry("Paraboloid", Named::LeftOut),
        Entry("Torus", Named::LeftOut),
        Entry("SolidBegin", Named::LeftOut),
        Entry("ObjectBegin", Named::LeftOut),
        Entry("Detail", Named::LeftOut),
        Entry("DetailRange", Named::LeftOut),
        Entry("AreaLightSource", Named::LeftOut),
        Entry("Imager", Named::LeftOut),
        Entry("Interior", Named::LeftOut),
        Entry("Exterior", Named::LeftOut),
        Entry("Matte", Named::LeftOut),
        Entry("Deformation", Named::LeftOut),
        Entry("Skew", Named::LeftOut),
        Entry("Perspective", Named::LeftOut),
        Entry("CoordSysTransform", Named::LeftOut),
        Entry("TextureCoordinates", Named::LeftOut),
        Entry("ColorSamples", Named::LeftOut),
        Entry("DepthOfField", Named::LeftOut),
    ]
}

fn classes() -> &'static [Entry<Class>]
    ensures { map plain result.now ≡ class_names }
{
    &[
        Entry("constant", Class::Constant),
        Entry("uniform", Class::Uniform),
        Entry("varying", Class::Varying),
        Entry("vertex", Class::Vertex),
        Entry("facevarying", Class::FaceVarying),
    ]
}

fn kinds() -> &'static [Entry<Kind>]
    ensures { map plain result.now ≡ kind_names }
{
    &[
        Entry("float", Kind::Float),
        Entry("integer", Kind::Float),
        Entry("color", Kind::Color),
        Entry("point", Kind::Point),
        Entry("vector", Kind::Vector),
        Entry("normal", Kind::Normal),
        Entry("string", Kind::Str),
    ]
}

fn variables() -> &'static [Entry<(Class, Kind)>]
    ensures { map plain result.now ≡ variable_names }
{
    &[
        Entry("Ka", (Class::Uniform, Kind::Float)),
        Entry("Kd", (Class::Uniform, Kind::Float)),
        Entry("Ks", (Class::Uniform, Kind::Float)),
        Entry("Kr", (Class::Uniform, Kind::Float)),
        Entry("roughness", (Class::Uniform, Kind::Float)),
        Entry("intensity", (Class::Uniform, Kind::Float)),
        Entry("coneangle", (Class::Uniform, Kind::Float)),
        Entry("conedeltaangle", (Class::Uniform, Kind::Float)),
        Entry("beamdistribution", (Class::Uniform, Kind::Float)),
        Entry("mindistance", (Class::Uniform, Kind::Float)),
        Entry("maxdistance", (Class::Uniform, Kind::Float)),
        Entry("distance", (Class::Uniform, Kind::Float)),
        Entry("amplitude", (Class::Uniform, Kind::Float)),
        Entry("fov", (Class::Uniform, Kind::Float)),
        Entry("lightcolor", (Class::Uniform, Kind::Color)),
        Entry("specularcolor", (Class::Uniform, Kind::Color)),
        Entry("background", (Class::Uniform, Kind::Color)),
        Entry("from", (Class::Uniform, Kind::Point)),
        Entry("to", (Class::Uniform, Kind::Point)),
        Entry("texturename", (Class::Uniform, Kind::Str)),
        Entry("s", (Class::Varying, Kind::Float)),
        Entry("t", (Class::Varying, Kind::Float)),
        Entry("st", (Class::Varying, Kind::Pair)),
        Entry("Cs", (Class::Varying, Kind::Color)),
        Entry("Os", (Class::Varying, Kind::Color)),
        Entry("N", (Class::Varying, Kind::Normal)),
        Entry("P", (Class::Vertex, Kind::Point)),
    ]
}

// Whether the name is that of a request such as MakeTexture.
fn makes(name: &str) -> bool
    ensures { result ≡ is_make name.now }
{
    name.as_bytes().starts_with(b"Make") && name.len() > 4
}

/// What a request's name stands for.
pub fn request_named(name: &str) -> Option<Named>
    ensures { result ≡ named name.now }
{
    if makes(name) {
        return Some(Named::LeftOut);
    }
    find(requests(), name)
}

/// The class of that name.
pub fn class_named(name: &str) -> Option<Class>
    ensures { result ≡ entry_of class_names name.now }
{
    find(classes(), name)
}

/// The kind of that name.
pub fn kind_named(name: &str) -> Option<Kind>
    ensures { result ≡ entry_of kind_names name.now }
{
    find(kinds(), name)
}

/// The class and kind of a variable that is declared from the start.
pub fn variable_named(name: &str) -> Option<(Class, Kind)>
    ensures { result ≡ entry_of variable_names name.now }
{
    find(variables(), name)
}
