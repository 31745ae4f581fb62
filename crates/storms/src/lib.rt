// The rain of a block by interval: the depths that are listed, or a storm's total cut by them as its pattern. And whether any is listed.
#![tactic(auto)]

ghost use Rattle.std.specs.Prelude.{◌≡◌, ◌*◌, ◌≤◌, length, get_or};
ghost use Rattle.sequences.specs.Bounds.{AllUpTo};
ghost use Rattle.meaning.specs.Water.{ten_thousandth, sum_of, rain_of, cut_of};
ghost use Rattle.meaning.specs.Records.{most_ordinates};
ghost use Rattle.meaning.specs.Words.{◌=?◌};
ghost use Rattle.storms.specs.Rains.{Cuttable, total_over};

use units::Depth;

// The rain listed for an interval, counted from 0.
pub fn rain_at(rains: &[u64], i: usize) -> Depth
    requires { AllUpTo 200_000 rains.now }
    ensures { result.0 ≡ get_or rains.now i 0 * ten_thousandth }
{
    units::depth_of(units::value_at(rains, i))
}

// Whether no rain is listed for so many intervals.
pub fn is_dry(rains: &[u64], intervals: usize) -> bool
    ensures { result ≡ (sum_of (rain_of rains.now intervals) =? 0) }
{
    rains.iter().take(intervals).all(|depth| *depth == 0)
}

// The rain listed for every interval, and what it adds up to.
pub fn list_rain(rain: &mut [u64], rains: &[u64]) -> u64
    requires rain_len_bound { length rain.old ≤ most_ordinates }
    requires all_up_to { AllUpTo 200_000 rains.now }
    ensures rain_after { rain.new ≡ rain_of rains.now (length rain.old) }
    ensures added { result ≡ sum_of (rain_of rains.now (length rain.old)) }
{
    let mut sum = 0;
    for (i, depth) in rain.iter_mut().enumerate() {
        *depth = rain_at(rains, i).0;
        sum += *depth;
    }
    sum
}

// Each element becomes its piece of the share `n` of `d` of the running sum.
pub fn cut(xs: &mut [u64], n: u64, d: u64)
    requires { Cuttable n d xs.old }
    ensures { xs.new ≡ cut_of n d xs.old }
{
    let mut sum = 0;
    let mut before = 0;
    for x in xs.iter_mut() {
        sum += *x;
        let share = n * sum / d;
        *x = share - before;
        before = share;
    }
}

// The rain of a storm of that total, over the pattern listed. A pattern of zeros is left as it is, since it has no sum to divide by.
pub fn storm_into(rain: &mut [u64], rains: &[u64], total: Depth)
    requires rain_len_bound { (length rain.old ≤ most_ordinates) × (total.0 ≤ 60_000_000) }
    requires all_up_to { AllUpTo 200_000 rains.now }
    ensures { rain.new ≡ total_over total (rain_of rains.now (length rain.old)) }
{
    let sum = list_rain(rain, rains);
    if 0 < sum {
        cut(rain, total.0, sum);
    }
}
