// The summary of a hydrograph: its peak, the first interval of the peak, and the sum of its ordinates. Above the limit of a flow there is none.
#![tactic(auto)]

ghost use Rattle.std.specs.Prelude.{◌≡◌, ◌≤◌, length};
ghost use Rattle.meaning.specs.Records.{most_ordinates};
ghost use Rattle.summary.specs.Summary.{no_summary, summary_within};

// 100,000 cfs.
const FLOW_LIMIT: u64 = 6_000_000_000_000;

// An interval of 0 is that of no hydrograph.
#[derive(Clone, Copy, PartialEq, Eq)]
pub struct Summary {
    pub peak: u64,
    pub interval: u64,
    pub sum: u64,
}

// The summary to write where there is none.
pub fn none() -> Summary
    ensures { result ≡ no_summary }
{
    Summary {
        peak: 0,
        interval: 0,
        sum: 0,
    }
}

// The peak, its first interval from 1, and the sum. Nothing above the limit is ever added: ordinates that high need not add up in a word.
pub fn summarize(q: &[u64]) -> Option<Summary>
    requires { length q.now ≤ most_ordinates }
    ensures { result ≡ summary_within q.now }
{
    let mut peak = 0;
    let mut first = 0;
    let mut sum = 0;
    for (i, &flow) in q.iter().enumerate() {
        if peak < flow {
            if FLOW_LIMIT < flow {
                return None;
            }
            peak = flow;
            first = i;
        }
        sum += flow;
    }
    Some(Summary {
        peak,
        interval: first as u64 + 1,
        sum,
    })
}
