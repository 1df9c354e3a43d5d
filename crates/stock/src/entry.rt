/// The name of a stock shader and its text.
#[derive(Clone, Copy)]
pub struct Entry {
    pub name: &'static str,
    pub text: &'static str,
}
