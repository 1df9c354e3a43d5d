// The least and the greatest of four numbers.
ghost use Rattle.std.specs.Prelude.{◌≡◌};
ghost use Rattle.hider.specs.Bounding.{least_of, greatest_of};

/// The least of four numbers.
pub(crate) fn least_of(a: i64, b: i64, c: i64, d: i64) -> i64
    ensures { result ≡ least_of a b c d }
{
    a.min(b).min(c.min(d))
}

/// The greatest of four numbers.
pub(crate) fn greatest_of(a: i64, b: i64, c: i64, d: i64) -> i64
    ensures { result ≡ greatest_of a b c d }
{
    a.max(b).max(c.max(d))
}
