// What neighbours need: the test of a sheet's half-widths.
#![tactic(auto)]

ghost use Rattle.std.specs.Prelude.{◌≡◌, ◌≤◌, length};
ghost use Rattle.distance.specs.Needed as needed;

const MOST_HALF_WIDTH: u16 = 256;

// The greatest of the first n half-widths.
fn widest(widths: &[u16], n: usize) -> u16
    requires { n ≤ length widths.now }
    ensures { result ≡ needed.widest n widths.now }
{
    let mut most: u16 = 0;
    for v in 0..n {
        most = most.max(widths[v]);
    }
    most
}

// Whether there are fewer than n half-widths, or one of the first n is above 256.
pub fn half_widths_wrong(widths: &[u16], n: usize) -> bool
    ensures { result ≡ needed.bad_half_widths n widths.now }
{
    if widths.len() < n {
        return true;
    }
    MOST_HALF_WIDTH < widest(widths, n)
}
