// A sweep over the levels, and its step: the least record to come is passed, and its docket is live or not.
#![tactic(auto)]

ghost use Rattle.std.specs.Prelude.{◌≡◌, ◌≤◌};
ghost use Rattle.scan_step.specs.Sweeps.{next_key, doubtful, is_hidden, standing, gone, neared, live_of, Sweeping};

use scan_heads::{Heads, key_of, pass};
use table_slots::{Kind, has_kind, stamp_of};

// How a sweep stands: it has come to a live docket, or to none.
pub const ARRIVED: u32 = 0;

// It is on its way.
pub const SEARCHING: u32 = 1;

// A live docket, and the slot of its put.
#[derive(Clone, Copy)]
pub struct Live {
    pub docket: u32,
    pub slot: usize,
}

// What each of some levels has next, point and ranges (two places a level); the latest date of the ranges over the dockets before the
// fence, and how many levels it takes to have it (cover); the docket from which on, and the last up to which live ones are listed; how the
// sweep stands (going), whether it has come to a live docket (1 or 0), to which, and in which slot its put is. Slots of ranges are halves of
// a word: a larger state would not stay in registers in the caller's loop. The put's slot stands before the numbers of four bytes: behind
// them the ranges would be copied once more for each record.
// `Sweeping` and that the next docket is asked for are of a sweep with the table that it goes over: a value of both would not go by value, in registers.
// Kept as numbers for speed, going and live: with a bool or an enum for going a scan takes 1 to 2 % more instructions and up to 7 % more
// time, with an Option for live, key and slot 3 to 6 % and up to 20 %, with one enum for all of them 40 % and three times the time, since
// the gap beside a byte is copied byte by byte, or the state stays in memory. Ranges are no pairs, since `survey` takes any list of numbers.
#[derive(Clone, Copy)]
pub struct Sweep {
    pub heads: Heads,
    pub ranges: [u32; 14],
    pub levels: usize,
    pub slot: usize,
    pub cover: u32,
    pub date: u32,
    pub fence: u32,
    pub from: u32,
    pub hi: u32,
    pub going: u32,
    pub live: u32,
    pub key: u32,
}

impl Sweep {
    // The live docket that it has come to.
    #[inline(always)]
    pub fn live(self) -> Option<Live>
        ensures { result ≡ live_of self }
    {
        if self.live == 1 {
            Some(Live {
                docket: self.key,
                slot: self.slot,
            })
        } else {
            None
        }
    }
}

// One record, unless it is doubtful. The fence lies no farther than past the last docket that is asked for.
#[inline(always)]
pub fn near(e: &[u32], m: Sweep) -> Sweep
    requires { Sweeping e.now m }
    ensures { result ≡ neared e.now m }
{
    if is_doubtful(e, m) {
        stand(m, SEARCHING)
    } else {
        go(e, m, false)
    }
}

// Whether the first record's docket lies past the fence, or its stamp is no later than the latest date.
fn is_doubtful(e: &[u32], m: Sweep) -> bool
    requires { Sweeping e.now m }
    ensures { result ≡ doubtful e.now m }
{
    m.fence <= key_of(m.heads.first) || stamp_of(e, m.heads.slot) <= m.date
}

// The first record is passed. Its docket is live if no record of it was passed before, no level above has a range over it whose date is
// no earlier than its stamp (hidden), and it is a put.
pub fn go(e: &[u32], m: Sweep, hidden: bool) -> Sweep
    requires sweeping { Sweeping e.now m }
    requires m_bound { next_key m ≤ m.hi }
    requires hidden_value { hidden ≡ is_hidden e.now m }
    ensures { result ≡ gone e.now m }
{
    let key = key_of(m.heads.first);
    let slot = m.heads.slot;
    let heads = pass(e, m.heads);
    let passed = Sweep {
        heads,
        going: SEARCHING,
        ..m
    };
    if key < m.from {
        return passed;
    }
    let next = Sweep {
        from: key + 1,
        ..passed
    };
    if hidden || !has_kind(e, slot, Kind::Put) {
        return next;
    }
    Sweep {
        going: ARRIVED,
        live: 1,
        key,
        slot,
        ..next
    }
}

// The same sweep, but for how it stands.
#[inline(always)]
pub fn stand(m: Sweep, going: u32) -> Sweep
    ensures { result ≡ standing m going }
{
    Sweep { going, ..m }
}
