//! Equality of values that are no objects.
ghost use Rattle.std.specs.Prelude.{◌≡◌};
ghost use Rattle.rp_compare.specs.Equality.{numbers_equal, rocks_equal};

use rp_base::Rock;
use rp_ops::rock_number;

/// Texts by their characters, exception values by kind and text, numbers and truth values by value, all else with
/// itself.
pub(crate) fn equal_rocks(q: &Rock, r: &Rock) -> bool
    ensures { result ≡ rocks_equal q.now r.now }
{
    match (q, r) {
        (Rock::Nil, Rock::Nil) => true,
        (Rock::Text(t), Rock::Text(u)) => t == u,
        (Rock::Exc(j, t), Rock::Exc(k, u)) => j == k && t == u,
        (Rock::Kind(j), Rock::Kind(k)) => j == k,
        (Rock::Native(f), Rock::Native(g)) => f == g,
        _ => equal_numbers(rock_number(q), rock_number(r)),
    }
}

#[inline(always)]
fn equal_numbers(m: Option<i64>, n: Option<i64>) -> bool
    ensures { result ≡ numbers_equal m n }
{
    match (m, n) {
        (Some(m), Some(n)) => m == n,
        _ => false,
    }
}
