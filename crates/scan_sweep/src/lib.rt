// The live dockets of sound tables in ascending order, one after the other. Each record is passed once: the heads of all levels ascend,
// and the least is next.
#![tactic(auto)]

ghost use Rattle.std.specs.Prelude.{◌≡◌, ◌<◌, ◌≤◌};
ghost use Rattle.lookup_level.specs.Readable.{Readable};
ghost use Rattle.scan_step.specs.Sweeps.{next_key, date_above, is_hidden, told, Sweeping};
ghost use Rattle.scan_sweep.specs.Sweeps.{opened, crossed, step_of, searched, advanced};

use chain_cover::{front_at, seek};
use scan_fences::survey;
use scan_heads::{head, key_of, level_of, nothing, push};
use scan_step::{ARRIVED, SEARCHING, Sweep, go, near, stand};
use table_levels::{deepest_of, level_at};
use table_slots::stamp_of;

// Sets out from the first point of each level that is not before lo.
pub fn set_out(e: &[u32], l: &[u32], lo: u32, hi: u32) -> Sweep
    requires { Readable e.now l.now }
    ensures { result ≡ opened e.now l.now lo hi }
{
    let levels = deepest_of(l) + 1;
    let mut heads = nothing();
    let mut ranges = [0u32; 14];
    for i in 0..levels {
        let row = level_at(l, i);
        heads = push(heads, head(e, i, seek(e, row.points, lo)));
        let f = front_at(e, row.ranges);
        let at = 2 * i;
        ranges[at] = f.first as u32;
        ranges[at + 1] = f.behind as u32;
    }
    Sweep {
        heads,
        ranges,
        levels,
        cover: 0,
        date: 0,
        fence: 0,
        from: lo,
        hi,
        going: SEARCHING,
        live: 0,
        key: 0,
        slot: 0,
    }
}

// Comes to the next live docket: mostly by one step, which is compiled into the caller's loop.
#[inline(always)]
pub fn advance(e: &[u32], m: Sweep) -> Sweep
    requires { Sweeping e.now m }
    ensures { result ≡ advanced e.now m }
{
    let r = near(e, m);
    if r.going == ARRIVED {
        return r;
    }
    // Copies: a state handed on by address would live in memory in the caller's loop too, and not in registers.
    stand(search(e, stand(r, SEARCHING)), ARRIVED)
}

// Goes on, record by record, to the next live docket; from where it set out, to the first. No index is counted: it ends where it has arrived.
pub fn search(e: &[u32], m: Sweep) -> Sweep
    requires { Sweeping e.now m }
    ensures { result ≡ searched e.now m }
{
    let mut r = Sweep {
        going: SEARCHING,
        ..m
    };
    while r.going != ARRIVED {
        r = step(e, r);
    }
    r
}

// One record, or the fence before it.
fn step(e: &[u32], m: Sweep) -> Sweep
    requires { Sweeping e.now m }
    ensures { result ≡ step_of e.now m }
{
    let key = key_of(m.heads.first);
    if m.hi < key {
        none(m)
    } else if m.fence <= key {
        cross(e, m)
    } else {
        go(e, m, is_hidden(e, m))
    }
}

// The ranges are surveyed for the docket of the first record, which then lies before the fence.
fn cross(e: &[u32], m: Sweep) -> Sweep
    requires sweeping { Sweeping e.now m }
    requires m_bound { next_key m ≤ m.hi }
    ensures { result ≡ crossed e.now m }
{
    let mut ranges = m.ranges;
    let cover = survey(e, &mut ranges, m.levels, key_of(m.heads.first));
    let fence = cover.fence.min(m.hi + 1);
    Sweep {
        ranges,
        cover: cover.depth,
        date: cover.date,
        fence,
        going: SEARCHING,
        ..m
    }
}

// Whether a level above the first record's has a range over its docket whose date is no earlier than its stamp. The latest date before
// the fence tells, but where the levels above are fewer than it takes to have it: equal clocks aside, no list of calls comes there.
fn is_hidden(e: &[u32], m: Sweep) -> bool
    requires sweeping { Sweeping e.now m }
    requires m_bound { (next_key m ≤ m.hi) × (next_key m < m.fence) }
    ensures { result ≡ is_hidden e.now m }
{
    let stamp = stamp_of(e, m.heads.slot);
    if m.date < stamp {
        return false;
    }
    m.cover as usize <= level_of(m.heads.first) || stamp <= latest_above(e, m)
}

// The levels above the first record's are asked for its docket.
fn latest_above(e: &[u32], m: Sweep) -> u32
    requires sweeping { Sweeping e.now m }
    requires m_bound { next_key m ≤ m.hi }
    ensures { result ≡ date_above e.now m }
{
    let mut ranges = m.ranges;
    let above = survey(
        e,
        &mut ranges,
        level_of(m.heads.first),
        key_of(m.heads.first),
    );
    above.date
}

// No live docket is left.
fn none(m: Sweep) -> Sweep
    ensures { result ≡ told m 0 0 m.key m.slot }
{
    Sweep {
        going: ARRIVED,
        live: 0,
        ..m
    }
}
