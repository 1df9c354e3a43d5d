// The nodes of grid code.
use builtins::Shape;
use fixed_math::List;
use sl_ast::{Difference, LightStmt, LightSum, Value, ValueOperation};

/// A register: a uniform one holds one value for the whole grid, a varying one a value for each place. A register holds values of one
/// shape.
#[derive(Clone, Copy, Debug, PartialEq, Eq)]
pub enum Register {
    Uniform(Shape, u32),
    Varying(Shape, u32),
}

/// What an instruction computes.
#[derive(Drop)]
pub enum Source {
    Constant(Value),
    Copy(Register),
    /// A value where one of that shape is wanted: a number stands for three equal parts.
    Into(Shape, Register),
    /// One to three operands.
    Apply(ValueOperation, List<Register>),
}

/// An instruction, or a structured block.
#[cycle(nodes)]
#[derive(Drop)]
pub enum Node {
    Put {
        to: Register,
        source: Source,
    },
    /// A difference of a register's values between the neighbours of the grid.
    Differ {
        to: Register,
        difference: Difference,
        of: Register,
    },
    /// A sum over the lights at P.
    Sum {
        to: Register,
        sum: LightSum,
        args: List<Register>,
    },
    /// A look-up of a texture, which that node of the typed tree names: the registers of its name, of s and of t.
    Texture {
        to: Register,
        node: u32,
        args: List<Register>,
    },
    If {
        test: Register,
        then: List<Node>,
        otherwise: List<Node>,
    },
    /// Before each turn `ask` sets the register of the condition; `step` comes between a turn and the next.
    Loop {
        uniform: bool,
        ask: List<Node>,
        test: Register,
        step: List<Node>,
        body: List<Node>,
    },
    /// The body of `illuminance` once for each light that is seen, or that of `illuminate` or `solar` where it is lit.
    Lights {
        over: LightStmt,
        args: List<Register>,
        body: List<Node>,
    },
    Break,
    Continue,
}
