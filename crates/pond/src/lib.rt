// Ponds: level-pool routing by modified Puls, in place: a hydrograph of inflows becomes that of the outflows. And refusal 19, of a pond's table.
#![tactic(auto)]

ghost use Rattle.std.specs.Prelude.{◌≡◌, ◌||◌, ℕ, ◌+◌, ◌*◌, ◌/◌, ◌≤◌, ◌<◌, length, get_or, drop};
ghost use Rattle.sequences.specs.Bounds.{AllUpTo};
ghost use Rattle.meaning.specs.Words.{◌<?◌};
ghost use Rattle.meaning.specs.Water.{flow_limit};
ghost use Rattle.meaning.specs.Records.{most_ordinates};
ghost use Rattle.meaning.specs.Pool.{rows_of, w_of, row_breaks, rows_break, table_breaks, w_after, ponded_of, overtopped};
ghost use Rattle.pond.specs.Tables.{TableWithin, PondTable, row_at};
ghost use Rattle.pond.specs.Limits.{Interval};
ghost use Rattle.pond.specs.Spans.{Found, outflow_in, Graded};
ghost use Rattle.pond.specs.Levels.{rise_at, WsOf, RisesOf, span_in, Listed};
ghost use Rattle.pond.specs.Searches.{Topped, Climbed, Sunk, Sought, Searchable};
ghost use Rattle.pond.specs.Turns.{pool_of, outflows_after, above_after};

// THE TABLE, in hundredths, as SV and SQ list it, and the minutes of an interval.
#[derive(Clone, Copy)]
struct Table<'a> {
    minutes: u64,
    svs: &'a [u64],
    sqs: &'a [u64],
}

impl<'a> Table<'a> {
    // Whether the row behind a row breaks a rule.
    #[tactic(auto, using(crate::specs::Refusals::row_hundredths))]
    fn row_breaks(self, row: usize) -> bool
        requires within { TableWithin self.minutes self.svs.now self.sqs.now }
        requires row_in_bounds { row + 1 < length self.svs.now }
        ensures { result ≡ row_breaks self.entry.minutes (row_at self.entry.svs.now self.entry.sqs.now row) (row_at self.entry.svs.now self.entry.sqs.now (row + 1)) }
    {
        let sv = self.svs[row + 1];
        let sq = self.sqs[row + 1];
        sv <= self.svs[row] || sq < self.sqs[row] || 1_452 * sv < self.minutes * sq
    }

    // The rules of all rows behind the first.
    fn rows_break(self) -> bool
        requires within { TableWithin self.minutes self.svs.now self.sqs.now }
        requires some { 0 < length self.svs.now }
        ensures { result ≡ rows_break self.entry.minutes (row_at self.entry.svs.now self.entry.sqs.now 0) (rows_of (drop 1 self.entry.svs.now) (drop 1 self.entry.sqs.now)) }
    {
        for row in 0..self.svs.len() - 1 {
            if self.row_breaks(row) {
                return true;
            }
        }
        false
    }

    // W of a row.
    fn w_at(self, row: usize) -> u64
        requires pond_table { PondTable self.minutes self.svs.now self.sqs.now }
        requires row_in_bounds { row < length self.svs.now }
        ensures { result ≡ w_of self.entry.minutes (row_at self.entry.svs.now self.entry.sqs.now row) }
    {
        600_000 * (1_452 * self.svs[row] + self.minutes * self.sqs[row])
    }

    // By how much W rises from a row to the next one, in hundredths.
    fn rise_at(self, row: usize) -> u64
        requires pond_table { PondTable self.minutes self.svs.now self.sqs.now }
        requires row_in_bounds { row + 1 < length self.svs.now }
        ensures { result ≡ rise_at self.entry.minutes self.entry.svs.now self.entry.sqs.now row }
    {
        let next = row + 1;
        1_452 * (self.svs[next] - self.svs[row]) + self.minutes * (self.sqs[next] - self.sqs[row])
    }

    // W of every row, and behind the last row a number that no W is above: a search upwards ends there, with one test at a row.
    fn list_w(self) -> [u64; 21]
        requires { PondTable self.minutes self.svs.now self.sqs.now }
        ensures { WsOf self.entry.minutes self.entry.svs.now self.entry.sqs.now result }
    {
        let mut ws = [u64::MAX; 21];
        for row in 0..self.svs.len() {
            ws[row] = self.w_at(row);
        }
        ws
    }

    // By how much W rises from every row but the last to the next one.
    fn list_rises(self) -> [u64; 20]
        requires { PondTable self.minutes self.svs.now self.sqs.now }
        ensures { RisesOf self.entry.minutes self.entry.svs.now self.entry.sqs.now result }
    {
        let mut rises = [0; 20];
        for row in 0..self.svs.len() - 1 {
            rises[row] = self.rise_at(row);
        }
        rises
    }
}

// Refusal 19, of values within their limits.
#[tactic(auto, using(crate::specs::Refusals::asked))]
pub fn table_breaks(m: u64, svs: &[u64], sqs: &[u64]) -> bool
    requires m_bound { m ≤ 1_440 }
    requires all_up_to { AllUpTo 9_999_999 svs.now }
    requires all_up_to_2 { AllUpTo 10_000_000 sqs.now }
    ensures { result ≡ table_breaks m svs.now sqs.now }
{
    let table = Table {
        minutes: m,
        svs,
        sqs,
    };
    svs.len() != sqs.len() || svs.len() < 2 || svs[0] != 0 || sqs[0] != 0 || table.rows_break()
}

// SPANS. A row and the next one, kept while W stays between them: the row's place, W of both (`low`, `high`), the row's Q (`out`), and by how much Q and W rise. Rows are multiples
// of 600,000, and `more` and `rise` are cut by it: so the outflow asks for no product above 64 bits.
#[derive(Clone, Copy)]
struct Span {
    row: usize,
    low: u64,
    high: u64,
    out: u64,
    more: u64,
    rise: u64,
}

// THE SEARCH. The span from a row to the next one, from the lists.
fn span_at(sqs: &[u64], ws: &[u64], rises: &[u64], row: usize) -> Span
    requires { Listed sqs.now ws.now rises.now row }
    ensures { result ≡ span_in sqs.now ws.now rises.now row }
{
    let next = row + 1;
    let sq = sqs[row];
    Span {
        row,
        low: ws[row],
        high: ws[next],
        out: 600_000 * sq,
        more: sqs[next] - sq,
        rise: rises[row],
    }
}

// From a row up to the first whose next W is not above.
fn climb(ws: &[u64], row: usize, w: u64) -> usize
    requires { Topped ws.now row }
    ensures { Climbed ws.now row w result }
{
    // A while: there is no last row to go to, since the list ends ahead of none that W is above.
    let mut k = row;
    while ws[k + 1] < w {
        k += 1;
    }
    k
}

// From a row down to the first that W is not below.
fn sink(ws: &[u64], row: usize, w: u64) -> usize
    requires { (row < length ws.now) × (get_or ws.now 0 0 ≡ 0) }
    ensures { Sunk ws.now row w result }
{
    // A while: the search goes on from the row where it stands, and W is not below the first.
    let mut k = row;
    while w < ws[k] {
        k -= 1;
    }
    k
}

// The span on which W lies, from one that it may have left; the last one if W is above all.
fn seek(svs: &[u64], sqs: &[u64], ws: &[u64], rises: &[u64], s: Span, w: u64) -> Span
    requires { Searchable svs.now sqs.now ws.now rises.now s }
    ensures { (m : ℕ) → Sought m svs.now sqs.now ws.now rises.now s → Found m svs.now sqs.now result w }
{
    if w < s.low {
        let row = sink(ws, s.row, w);
        return span_at(sqs, ws, rises, row);
    }
    if s.high < w {
        let row = climb(ws, s.row, w);
        let last = row.min(svs.len() - 2);
        return span_at(sqs, ws, rises, last);
    }
    s
}

// THE OUTFLOW. What is left of an interpolation, divided by what W rises by and rounded down.
fn round_down(share: u64, rise: u64) -> u64
    requires { (0 < rise) × (rise ≤ 28_919_998_548) × (share ≤ 289_199_985_480_000_000) }
    ensures { result ≡ share / rise }
{
    share / rise
}

// At W on a span, or above the last one. W above the row is divided by `rise` first, and what remains is multiplied before it is.
fn outflow_at(m: u64, s: Span, w: u64) -> u64
    requires { (m ≤ 1_440) × Graded s w }
    ensures { result ≡ outflow_in s w }
{
    if s.high < w {
        return s.out + 600_000 * s.more;
    }
    let x = units::plain(w - s.low, m);
    let share = units::plain(s.more * (x % s.rise), m);
    s.out + s.more * (x / s.rise) + round_down(share, s.rise)
}

// Whether W is above the last row, or was before: `high` is W of the last row, or of one that W is not above.
fn is_over(over: bool, high: u64, w: u64) -> bool
    ensures { result ≡ ((high <? w) || over) }
{
    high < w || over
}

// W after an interval.
fn w_after(m: u64, w: u64, old_in: u64, new_in: u64, old_out: u64) -> u64
    requires { (w ≤ 5_184_000_000_000_000_000) × Interval m (pool_of w old_in old_out) new_in }
    ensures { result ≡ w_after m (pool_of w old_in old_out) new_in }
{
    w + m * (old_in + new_in) - 2 * m * old_out
}

// The outflows of the ordinates behind the first, whose inflow was `first`. And whether W ever passed the last row there.
fn pass_on(q: &mut [u64], table: Table, ws: &[u64], rises: &[u64], first: u64) -> bool
    requires pond_table { PondTable table.minutes table.svs.now table.sqs.now }
    requires ws_of { WsOf table.minutes table.svs.now table.sqs.now ws.now }
    requires rises_of { RisesOf table.minutes table.svs.now table.sqs.now rises.now }
    requires q_len_bound { (length q.old < most_ordinates) × (first ≤ flow_limit) }
    requires all_up_to { AllUpTo flow_limit q.old }
    ensures q_after { q.new ≡ outflows_after table.entry.minutes (rows_of table.entry.svs.now table.entry.sqs.now) (pool_of 0 first 0) q.old }
    ensures over { result ≡ above_after table.entry.minutes (rows_of table.entry.svs.now table.entry.sqs.now) (pool_of 0 first 0) q.old }
{
    let mut w = 0;
    let mut old_in = first;
    let mut old_out = 0;
    let mut over = false;
    let mut s = span_at(table.sqs, ws, rises, 0);
    for flow in q.iter_mut() {
        let new_in = *flow;
        w = w_after(table.minutes, w, old_in, new_in, old_out);
        s = seek(table.svs, table.sqs, ws, rises, s, w);
        over = is_over(over, s.high, w);
        old_in = new_in;
        old_out = outflow_at(table.minutes, s, w);
        *flow = old_out;
    }
    over
}

// A hydrograph through a pond, in place: its outflows, and whether W ever passed the last row, which is refusal 20.
pub fn pass_pool(q: &mut [u64], m: u64, svs: &[u64], sqs: &[u64]) -> bool
    requires pond_table { PondTable m svs.now sqs.now }
    requires q_len_bound { length q.old ≤ most_ordinates }
    requires all_up_to { AllUpTo flow_limit q.old }
    ensures q_after { q.new ≡ ponded_of m (rows_of svs.now sqs.now) q.old }
    ensures over { result ≡ overtopped m (rows_of svs.now sqs.now) q.old }
{
    if q.len() == 0 {
        return false;
    }
    let first = q[0];
    q[0] = 0;
    let table = Table {
        minutes: m,
        svs,
        sqs,
    };
    let ws = table.list_w();
    let rises = table.list_rises();
    pass_on(&mut q[1..], table, &ws, &rises, first)
}
