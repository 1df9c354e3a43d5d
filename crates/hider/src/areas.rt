/// The areas opposite to the corners of a triangle at a place, and its own, twice each.
#[derive(Clone, Copy)]
pub(crate) struct Areas {
    pub(crate) a: i64,
    pub(crate) b: i64,
    pub(crate) c: i64,
    pub(crate) whole: i64,
}
