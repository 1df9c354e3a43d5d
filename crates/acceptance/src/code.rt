// The codes of refused scenes and shaders.
ghost use Rattle.std.specs.Prelude.{◌≡◌, ◌≤◌};
ghost use Rattle.acceptance.specs.Codes.{code_text, status_of_code, of_lex, of_request, of_state, of_syntax, of_type};

use rib_lex::LexCode;
use rib_reader::RibCode;
use scene_parts::StateCode;
use sl_expression_grammar::SlCode;
use sl_expressions::TypeCode;
use std::error::Error;
use std::fmt;

/// The code of a refused scene or shader, as notes have it.
#[derive(Debug, Clone, Copy, PartialEq, Eq)]
pub enum FaultCode {
    /// A byte that can't stand here.
    L1,
    /// A string without its closing quote.
    L2,
    /// A backslash before a byte that it can't escape.
    L3,
    /// A number without its digits, or with something directly behind it.
    L4,
    /// No request has this name.
    S1,
    /// It isn't supported.
    S2,
    /// Arguments or brackets that the request doesn't take.
    S3,
    /// A token that is neither declared nor an inline declaration.
    S4,
    /// A wrong number of numbers or strings.
    S5,
    /// A block begins where it may not stand, or an end isn't that of the innermost block.
    N1,
    /// An option in a world.
    N2,
    /// A number that no light has.
    N3,
    /// Blocks are open at the end.
    N4,
    /// A primitive outside a world.
    N5,
    /// A request that can't stand in its place of a motion block, or the end of a motion block outside one.
    N6,
    /// A primitive under motions between different times.
    N7,
    /// No token of a shader's text begins here.
    P1,
    /// No text of the Shading Language's grammar goes on with this token, or ends here.
    P2,
    /// The 65th level of a shader's text would open here.
    P3,
    /// An unknown variable or function.
    T1,
    /// Operands, arguments, conditions, set or returned values without a rule.
    T2,
    /// A varying value that goes into a uniform variable, or that is the index of `comp`.
    T3,
    /// An assignment to a uniform variable under varying control.
    T4,
    /// A difference over the surface, or a look-up of a texture, under varying control.
    T5,
    /// What isn't for this kind of shader, or a predefined variable outside its place.
    T6,
    /// A function that calls itself.
    T7,
    /// A `return` that isn't a function's last statement, or none; `break` or `continue` outside a loop.
    T8,
    /// More than one `illuminate` or `solar` in a light, or one in a loop.
    T9,
    /// A name that is declared twice.
    T10,
    /// What this profile of the Shading Language leaves out.
    T11,
    /// A parameter of a shader request that the shader doesn't declare.
    B1,
    /// A value for a parameter of another kind than the shader declares; or a primitive's, which varies where the parameter is uniform.
    B2,
    /// A shader of another kind than the request's.
    B3,
    /// A transformation that has no inverse.
    G1,
    /// An entry of a transformation out of range.
    G2,
    /// A field of view that isn't above 0 and below 180 degrees.
    G3,
    /// A matrix whose fourth column isn't 0, 0, 0, 1.
    G4,
    /// A primitive with another number of points than it has.
    G5,
    /// More than 64 blocks open at once.
    M1,
    /// More than 1,000 frames.
    M2,
    /// More than 65,536 patches in one frame.
    M3,
    /// More than 64 lights made since the last world, or since the start.
    M4,
    /// More than 4,096 pixels in a direction.
    M5,
    /// More than 16 samples in a direction of a pixel, or a filter wider or higher than 16 pixels.
    M6,
    /// A point whose raw coordinate in camera space passes 2^30.
    M7,
    /// A shader of more than 65,536 nodes with its functions in place, or of more than 256 in one another.
    M8,
    /// A shader whose code takes more than 4,096 rows of registers.
    M9,
    /// The scene file or a texture's is longer than 16,777,216 bytes, or a shader's file than 1,048,576.
    M10,
    /// A texture with a side past 2,048.
    M11,
    /// The 65th texture, or one with which the samples of all textures so far pass 268,435,456 bytes.
    M12,
    /// A file that isn't a texture.
    X1,
}

impl FaultCode {
    /// The code as notes have it.
    pub fn as_str(self) -> &'static str
        ensures { result.now ≡ code_text self }
    {
        match self {
            FaultCode::L1 => "L1",
            FaultCode::L2 => "L2",
            FaultCode::L3 => "L3",
            FaultCode::L4 => "L4",
            FaultCode::S1 => "S1",
            FaultCode::S2 => "S2",
            FaultCode::S3 => "S3",
            FaultCode::S4 => "S4",
            FaultCode::S5 => "S5",
            FaultCode::N1 => "N1",
            FaultCode::N2 => "N2",
            FaultCode::N3 => "N3",
            FaultCode::N4 => "N4",
            FaultCode::N5 => "N5",
            FaultCode::N6 => "N6",
            FaultCode::N7 => "N7",
            FaultCode::P1 => "P1",
            FaultCode::P2 => "P2",
            FaultCode::P3 => "P3",
            FaultCode::T1 => "T1",
            FaultCode::T2 => "T2",
            FaultCode::T3 => "T3",
            FaultCode::T4 => "T4",
            FaultCode::T5 => "T5",
            FaultCode::T6 => "T6",
            FaultCode::T7 => "T7",
            FaultCode::T8 => "T8",
            FaultCode::T9 => "T9",
            FaultCode::T10 => "T10",
            FaultCode::T11 => "T11",
            FaultCode::B1 => "B1",
            FaultCode::B2 => "B2",
            FaultCode::B3 => "B3",
            FaultCode::G1 => "G1",
            FaultCode::G2 => "G2",
            FaultCode::G3 => "G3",
            FaultCode::G4 => "G4",
            FaultCode::G5 => "G5",
            FaultCode::M1 => "M1",
            FaultCode::M2 => "M2",
            FaultCode::M3 => "M3",
            FaultCode::M4 => "M4",
            FaultCode::M5 => "M5",
            FaultCode::M6 => "M6",
            FaultCode::M7 => "M7",
            FaultCode::M8 => "M8",
            FaultCode::M9 => "M9",
            FaultCode::M10 => "M10",
            FaultCode::M11 => "M11",
            FaultCode::M12 => "M12",
            FaultCode::X1 => "X1",
        }
    }

    /// The status of a run that is refused by this code.
    pub fn status(self) -> u8
        ensures status { result ≡ status_of_code self }
        ensures least { 3 ≤ result }
        ensures most { result ≤ 5 }
    {
        match self {
            FaultCode::L1 | FaultCode::L2 | FaultCode::L3 | FaultCode::L4 => 3,
            FaultCode::S1 | FaultCode::S2 | FaultCode::S3 | FaultCode::S4 | FaultCode::S5 => 3,
            FaultCode::N1
            | FaultCode::N2
            | FaultCode::N3
            | FaultCode::N4
            | FaultCode::N5
            | FaultCode::N6
            | FaultCode::N7 => 3,
            FaultCode::P1 | FaultCode::P2 | FaultCode::P3 => 3,
            FaultCode::T1
            | FaultCode::T2
            | FaultCode::T3
            | FaultCode::T4
            | FaultCode::T5
            | FaultCode::T6 => 4,
            FaultCode::T7 | FaultCode::T8 | FaultCode::T9 | FaultCode::T10 | FaultCode::T11 => 4,
            FaultCode::B1 | FaultCode::B2 | FaultCode::B3 => 4,
            FaultCode::G1 | FaultCode::G2 | FaultCode::G3 | FaultCode::G4 | FaultCode::G5 => 5,
            FaultCode::M1
            | FaultCode::M2
            | FaultCode::M3
            | FaultCode::M4
            | FaultCode::M5
            | FaultCode::M6
            | FaultCode::M7 => 5,
            FaultCode::M8 | FaultCode::M9 | FaultCode::M10 | FaultCode::M11 | FaultCode::M12 => 5,
            FaultCode::X1 => 3,
        }
    }
}

impl fmt::Display for FaultCode {
    fn fmt<W: fmt::Write>(&self, f: &mut fmt::Formatter<W>) -> fmt::Result {
        let text = self.as_str();
        write!(f, "{text}")
    }
}

impl Error for FaultCode {}

/// The code of a lexical fault.
pub fn of_lex(code: LexCode) -> FaultCode
    ensures { result ≡ of_lex code }
{
    match code {
        LexCode::L1 => FaultCode::L1,
        LexCode::L2 => FaultCode::L2,
        LexCode::L3 => FaultCode::L3,
        LexCode::L4 => FaultCode::L4,
    }
}

/// The code of a request's fault.
pub fn of_request(code: RibCode) -> FaultCode
    ensures { result ≡ of_request code }
{
    match code {
        RibCode::S1 => FaultCode::S1,
        RibCode::S2 => FaultCode::S2,
        RibCode::S3 => FaultCode::S3,
        RibCode::S4 => FaultCode::S4,
        RibCode::S5 => FaultCode::S5,
    }
}

/// The code of a fault of the graphics state.
pub fn of_state(code: StateCode) -> FaultCode
    ensures { result ≡ of_state code }
{
    match code {
        StateCode::N1 => FaultCode::N1,
        StateCode::N2 => FaultCode::N2,
        StateCode::N3 => FaultCode::N3,
        StateCode::N4 => FaultCode::N4,
        StateCode::N5 => FaultCode::N5,
        StateCode::N6 => FaultCode::N6,
        StateCode::N7 => FaultCode::N7,
        StateCode::G1 => FaultCode::G1,
        StateCode::G2 => FaultCode::G2,
        StateCode::G3 => FaultCode::G3,
        StateCode::G4 => FaultCode::G4,
        StateCode::G5 => FaultCode::G5,
        StateCode::M1 => FaultCode::M1,
        StateCode::M2 => FaultCode::M2,
        StateCode::M3 => FaultCode::M3,
        StateCode::M4 => FaultCode::M4,
        StateCode::M5 => FaultCode::M5,
        StateCode::M6 => FaultCode::M6,
        StateCode::M7 => FaultCode::M7,
    }
}

/// The code of a fault of a shader's grammar.
pub fn of_syntax(code: SlCode) -> FaultCode
    ensures { result ≡ of_syntax code }
{
    match code {
        SlCode::P1 => FaultCode::P1,
        SlCode::P2 => FaultCode::P2,
        SlCode::P3 => FaultCode::P3,
    }
}

/// The code of a fault of a shader's types, or of its size.
pub fn of_type(code: TypeCode) -> FaultCode
    ensures { result ≡ of_type code }
{
    match code {
        TypeCode::T1 => FaultCode::T1,
        TypeCode::T2 => FaultCode::T2,
        TypeCode::T3 => FaultCode::T3,
        TypeCode::T4 => FaultCode::T4,
        TypeCode::T5 => FaultCode::T5,
        TypeCode::T6 => FaultCode::T6,
        TypeCode::T7 => FaultCode::T7,
        TypeCode::T8 => FaultCode::T8,
        TypeCode::T9 => FaultCode::T9,
        TypeCode::T10 => FaultCode::T10,
        TypeCode::T11 => FaultCode::T11,
        TypeCode::M8 => FaultCode::M8,
    }
}
