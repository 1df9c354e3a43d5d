/// A name and what it stands for.
pub struct Entry<T> {
    pub name: &'static str,
    pub value: T,
}
