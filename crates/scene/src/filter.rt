/// A pixel filter of the RenderMan Interface 3.2.
#[derive(Debug, Clone, Copy, PartialEq, Eq)]
pub enum Filter {
    Box,
    Triangle,
    Gaussian,
}
