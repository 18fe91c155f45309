//! The ZIV test: subscripts without an index.

ghost use Rattle.std.specs.Prelude.{◌≡◌, ◌↔◌, IsTrue};

/// Whether the constant subscripts `c1` at the source and `c2` at the sink exclude every direction, which they
/// do exactly where they differ (Allen and Kennedy, section 3.3, ZIV). It looks at no range: two references
/// to one element are dependent whatever the loops are.
pub fn ziv_excludes(c1: i64, c2: i64) -> bool
    ensures { IsTrue result ↔ ¬ (c1 ≡ c2) }
{
    c1 != c2
}
