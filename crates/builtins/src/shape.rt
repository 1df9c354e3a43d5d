/// What a value of the Shading Language is made of: a number, three numbers (a colour, point, vector or normal), or a text.
#[derive(Clone, Copy, Debug, PartialEq, Eq)]
pub enum Shape {
    Number,
    Triple,
    Word,
}
