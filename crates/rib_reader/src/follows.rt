/// What follows the arguments that a request has.
#[derive(Clone, Copy)]
pub enum Follows {
    /// Nothing.
    Nothing,
    /// Any values, which are passed over.
    Anything,
    /// Pairs of a string and a value, which are passed over.
    Free,
    /// The displacement bound.
    Bound,
    /// A shader's or a projection's parameters.
    Parameters,
    /// A primitive's variables, P among them.
    Variables,
    /// The variables of a bicubic primitive: no variable other than P is a vertex variable.
    Bicubic,
    /// The variables of a quadric, without P.
    Quadric,
}
