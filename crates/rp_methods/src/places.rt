//! Indexes, as arguments name them.
ghost use Rattle.std.specs.Prelude.{◌≡◌, ◌<◌, ◌≤◌, ◌-ℤ◌, pos};
ghost use Rattle.rp_items.specs.Items.{from_end};
ghost use Rattle.rp_methods.specs.Lists.{brought};

/// A place before one of so many elements or behind them. An index below 0 counts from the end, and one outside is
/// brought into the range.
pub(crate) fn place_before(len: usize, i: i64) -> usize
    ensures place { result ≡ brought len (from_end len i) }
    ensures within { result ≤ len }
{
    if i < 0 {
        return before_end(len, i.unsigned_abs() as usize);
    }
    len.min(i as usize)
}

/// The place so many before the end, and the first one where there are fewer.
fn before_end(len: usize, back: usize) -> usize
    requires { 0 < back }
    ensures place { result ≡ brought len (pos len -ℤ pos back) }
    ensures within { result ≤ len }
{
    len.saturating_sub(back)
}
