// Why a scene isn't accepted.
ghost use Rattle.std.specs.Prelude.{◌≡◌, ◌≢◌, ◌≤◌, Some};
ghost use Rattle.acceptance.specs.Answers.{Because, status_of_refusal};
ghost use Rattle.acceptance.specs.Causes as causes;
ghost use Rattle.acceptance.specs.declared.refusal.FileId.TheVariants.{Scene, Shader, Texture};
ghost use Rattle.acceptance.specs.declared.refusal.Refusal.TheVariants.{ReadFault, NoMemory as OutOfMemory};

use crate::code::FaultCode;
use fixed_math::{NoMemory, Text};
use std::alloc::{AllocError, AllocFailed, Global};
use std::error::Error;
use std::fmt;

/// A file that has a fault.
#[derive(Drop)]
pub enum FileId {
    /// The scene.
    Scene,
    /// The text of the shader of this name: `x.sl`, or the stock's.
    Shader(Text),
    /// The texture of this name.
    Texture(Text),
}

impl fmt::Display for FileId {
    fn fmt<W: fmt::Write>(&self, f: &mut fmt::Formatter<W>) -> fmt::Result {
        match self {
            FileId::Scene => write!(f, "the scene"),
            FileId::Shader(name) => {
                let name = name.as_str();
                write!(f, "{name}.sl")
            }
            FileId::Texture(name) => {
                let name = name.as_str();
                write!(f, "{name}")
            }
        }
    }
}

/// Why a scene isn't accepted.
#[derive(Drop)]
pub enum Refusal {
    /// A fault at a line of a file.
    At {
        file: FileId,
        line: u32,
        code: FaultCode,
    },
    /// The library lacks this file of a texture; or of a shader that the stock lacks too.
    Missing(Text),
    /// The library failed.
    ReadFault,
    NoMemory,
}

impl Refusal {
    /// The status of a run that is refused so.
    pub fn status(&self) -> u8
        ensures status { result ≡ status_of_refusal self.now }
        ensures least { 3 ≤ result }
        ensures most { result ≤ 9 }
    {
        match self {
            Refusal::At { code, .. } => code.status(),
            Refusal::Missing(_) => 6,
            Refusal::ReadFault => 7,
            Refusal::NoMemory => 9,
        }
    }
}

impl fmt::Display for Refusal {
    fn fmt<W: fmt::Write>(&self, f: &mut fmt::Formatter<W>) -> fmt::Result {
        match self {
            Refusal::At { file, line, code } => write!(f, "{file}:{line}: {code}"),
            Refusal::Missing(file) => {
                let file = file.as_str();
                write!(f, "{file}: missing")
            }
            Refusal::ReadFault => write!(f, "the library failed"),
            Refusal::NoMemory => write!(f, "no memory"),
        }
    }
}

impl fmt::Debug for Refusal {
    fn fmt<W: fmt::Write>(&self, f: &mut fmt::Formatter<W>) -> fmt::Result {
        write!(f, "{self}")
    }
}

impl Error for Refusal {}

impl From<NoMemory> for Refusal {
    ghost from_gives = { λ _ e. e ≡ OutOfMemory };

    fn from(_: NoMemory) -> Refusal {
        Refusal::NoMemory
    }
}

impl From<AllocError> for Refusal {
    ghost from_gives = { λ _ e. e ≡ OutOfMemory };

    fn from(_: AllocError) -> Refusal {
        Refusal::NoMemory
    }
}

impl<T: Drop> From<AllocFailed<T>> for Refusal {
    ghost from_gives = { λ _ e. e ≡ OutOfMemory };

    fn from(_: AllocFailed<T>) -> Refusal {
        Refusal::NoMemory
    }
}

/// The refusal by a code at a line of the scene.
pub fn in_scene(code: FaultCode, line: u32) -> Refusal
    ensures because { Because result (Some (causes.At Scene line code)) }
    ensures held { result ≢ ReadFault }
{
    Refusal::At {
        file: FileId::Scene,
        line,
        code,
    }
}

/// The refusal by a code at a line of a shader's text.
pub fn in_shader(alloc: Global, name: &Text, code: FaultCode, line: u32) -> Refusal
    ensures because { Because result (Some (causes.At (Shader name.now) line code)) }
    ensures held { result ≢ ReadFault }
{
    match name.copied(alloc) {
        Ok(name) => Refusal::At {
            file: FileId::Shader(name),
            line,
            code,
        },
        Err(_) => Refusal::NoMemory,
    }
}

/// The refusal by a code of a texture's file.
pub fn in_texture(alloc: Global, name: &Text, code: FaultCode) -> Refusal
    ensures because { Because result (Some (causes.At (Texture name.now) 1 code)) }
    ensures held { result ≢ ReadFault }
{
    match name.copied(alloc) {
        Ok(name) => Refusal::At {
            file: FileId::Texture(name),
            line: 1,
            code,
        },
        Err(_) => Refusal::NoMemory,
    }
}
