// The predefined variables, spaces, operations and statements that each kind of shader has.
ghost use Rattle.std.specs.Prelude.{◌≡◌};
ghost use Rattle.sl_ast.specs.Names as spec;
ghost use Rattle.sl_ast.specs.Classes as classes;

use crate::kinds::{LightStmt, Predefined, SlKind, SlType, SpaceName};
use crate::operations::{Look, Operation, ValueOperation};

impl Predefined {
    /// The type of the variable.
    pub fn kind(self) -> SlType
        ensures { result ≡ spec.name_type self }
    {
        match self {
            Self::P | Self::E | Self::Ps => SlType::Point,
            Self::N | Self::Ng => SlType::Normal,
            Self::I | Self::DPdu | Self::DPdv | Self::L => SlType::Vector,
            Self::U | Self::V | Self::Du | Self::Dv | Self::S | Self::T | Self::Pi => SlType::Float,
            Self::Cs | Self::Os | Self::Cl | Self::Ci | Self::Oi => SlType::Color,
        }
    }
}

impl Predefined {
    /// Whether the variable has one value for the whole grid.
    pub fn is_uniform(self) -> bool
        ensures { result ≡ classes.is_uniform_name self }
    {
        matches!(self, Self::E | Self::Du | Self::Dv | Self::Pi)
    }
}

impl SlKind {
    /// Whether such a shader reads the variable; `lit` says that it stands in the body of `illuminance` of a surface,
    /// of `illuminate` or `solar` of a light.
    pub fn reads(self, lit: bool, name: Predefined) -> bool
        ensures { result ≡ spec.reads self lit name }
    {
        match self {
            Self::Surface => surface_reads(lit, name),
            Self::Displacement => displacement_reads(name),
            Self::Light => light_reads(lit, name),
            Self::Volume => volume_reads(name),
        }
    }

    /// Whether such a shader sets the variable.
    pub fn writes(self, name: Predefined) -> bool
        ensures { result ≡ spec.writes self name }
    {
        match self {
            Self::Surface | Self::Volume => matches!(name, Predefined::Ci | Predefined::Oi),
            Self::Displacement => matches!(name, Predefined::P | Predefined::N),
            Self::Light => matches!(name, Predefined::Cl),
        }
    }

    /// Whether such a shader runs on a grid of a surface, so that it has differences and the variable `Ng`.
    pub fn has_surface(self) -> bool
        ensures { result ≡ spec.has_surface self }
    {
        matches!(self, Self::Surface | Self::Displacement)
    }

    /// Whether the operation is one of such a shader.
    pub fn has_operation(self, operation: Operation) -> bool
        ensures { result ≡ spec.has_operation self operation }
    {
        match operation {
            Operation::Sum(_) => matches!(self, Self::Surface),
            Operation::Difference(_) | Operation::Look(_) => self.has_surface(),
            Operation::Value(_) | Operation::FaceForwardNg => true,
        }
    }

    /// Whether the statement is one of such a shader.
    pub fn has_lights(self, word: LightStmt) -> bool
        ensures { result ≡ spec.has_lights self word }
    {
        match word {
            LightStmt::Illuminance => matches!(self, Self::Surface),
            LightStmt::Illuminate | LightStmt::Solar => matches!(self, Self::Light),
        }
    }
}

impl Operation {
    /// Whether the operation stands in a parameter's default too.
    pub fn is_constant(self) -> bool
        ensures { result ≡ spec.is_constant self }
    {
        !matches!(self, Self::Value(ValueOperation::Depth) | Self::Look(_))
    }

    /// Whether the value is uniform where all operands are: the others read a varying variable, neighbours or lights.
    pub fn is_plain(self) -> bool
        ensures { result ≡ classes.is_plain self }
    {
        matches!(self, Self::Value(_) | Self::Look(Look::At | Look::First))
    }
}

impl SpaceName {
    /// Whether a space may stand before a value of that type.
    pub fn stands_before(self, kind: SlType) -> bool
        ensures { result ≡ spec.stands_before self kind }
    {
        match kind {
            SlType::Point | SlType::Vector | SlType::Normal => true,
            _ => matches!(self, Self::Current),
        }
    }
}

fn surface_reads(lit: bool, name: Predefined) -> bool
    ensures { result ≡ spec.surface_reads lit name }
{
    match name {
        Predefined::L | Predefined::Cl => lit,
        Predefined::Ps => false,
        _ => true,
    }
}

fn displacement_reads(name: Predefined) -> bool
    ensures { result ≡ spec.displacement_reads name }
{
    match name {
        Predefined::L | Predefined::Cl | Predefined::Ci | Predefined::Oi | Predefined::Ps => false,
        _ => true,
    }
}

fn light_reads(lit: bool, name: Predefined) -> bool
    ensures { result ≡ spec.light_reads lit name }
{
    match name {
        Predefined::L => lit,
        Predefined::Ps | Predefined::E | Predefined::Cl | Predefined::Pi => true,
        _ => false,
    }
}

fn volume_reads(name: Predefined) -> bool
    ensures { result ≡ spec.volume_reads name }
{
    match name {
        Predefined::P | Predefined::I | Predefined::E => true,
        Predefined::Ci | Predefined::Oi | Predefined::Pi => true,
        _ => false,
    }
}
