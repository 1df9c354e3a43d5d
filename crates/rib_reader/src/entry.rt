/// A name and what it stands for.
#[derive(Clone, Copy)]
pub struct Entry<T>(pub &'static str, pub T);

/// A word of a set.
#[derive(Clone, Copy)]
pub struct Word(pub &'static str);
