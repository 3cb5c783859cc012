// Which records cover a docket, or have it, and walks along a chain that ask it. The walks follow links and count no index; each stops at
// another word and carries another value, so that one iterator with a closure for each would be no plainer. `Ordered` is of a table and a
// slot, which is a new one at each step: no value holds both.
#![tactic(auto)]

ghost use Rattle.std.specs.Prelude.{◌≡◌, map};
ghost use Rattle.lists.specs.All.{Exists};
ghost use Rattle.model.specs.Coverage.{covers};
ghost use Rattle.model.specs.Lookup.{latest};
ghost use Rattle.model.specs.Merge.{covered, names};
ghost use Rattle.tables.specs.Slots.{InTable, lo_of};
ghost use Rattle.tables.specs.Sound.{chain_from};
ghost use Rattle.tables.specs.Placed.{read_point, read_range};
ghost use Rattle.chain_cover.specs.Walks.{Ordered};
ghost use Rattle.chain_cover.specs.Skips.{first_slot, from_bound, beginning, reaching, Ahead, Computes};
ghost use Rattle.chain_cover.specs.Fronts.{front_at, front_slots, pass_behind, advanced, FrontOrdered};
ghost use Rattle.chain_cover.specs.Dates.{met, no_date, surveyed};

use table_slots::{date_of, hi_of, lo_of, next_of};

// Two places in a chain of ranges, for dockets that ascend: the first range that has not ended, and the first behind it that has not; 0 ends a chain, as in the tables.
#[derive(Clone, Copy)]
pub struct Front {
    pub first: usize,
    pub behind: usize,
}

// The latest date of the ranges over a docket, 0 where there is none, as the definition `latest` has it;
// the last docket of the first range that has it; and the first docket of the next range.
#[derive(Clone, Copy)]
pub struct Latest {
    pub date: u32,
    pub last: u32,
    pub next: u32,
}

impl Latest {
    // No range over the docket, and none to come: what would be next lies past the last docket.
    const NONE: Latest = Latest {
        date: 0,
        last: 0,
        next: 65536,
    };
}

// Whether the delete from lo to hi with this date covers a record of the docket with the stamp.
pub fn covers(lo: u32, hi: u32, date: u32, docket: u32, stamp: u32) -> bool
    ensures { result ≡ covers lo hi date docket stamp }
{
    (lo <= docket) & (docket <= hi) & (stamp <= date)
}

// The front of a whole chain.
#[tactic(auto, using(crate::proofs::Chains::walk_in_table))]
pub fn front_at(e: &[u32], head: usize) -> Front
    requires { Ordered e.now head }
    ensures { result ≡ front_at e.now head }
{
    let behind = if head == 0 { 0 } else { next_of(e, head) };
    Front {
        first: head,
        behind,
    }
}

// Passes ranges that end before the docket, at both places: what is left says the same of it, and of every later one.
pub fn advance(e: &[u32], f: Front, docket: u32) -> Front
    requires { FrontOrdered e.now f }
    ensures { result ≡ advanced e.now docket f }
{
    if f.first == 0 {
        return f;
    }
    if docket < lo_of(e, f.first) {
        // No range is over the docket, so that none need be passed.
        f
    } else if docket <= hi_of(e, f.first) {
        pass_behind(e, f, docket)
    } else {
        let first = skip(e, f.behind, docket);
        pass_behind(e, front_at(e, first), docket)
    }
}

// Whether a range of a front covers a record of the docket with the stamp.
pub fn front_covers(e: &[u32], f: Front, docket: u32, stamp: u32) -> bool
    requires { FrontOrdered e.now f }
    ensures { result ≡ covered (map (read_range e.now) (front_slots e.now f)) docket stamp }
{
    if f.first == 0 {
        return false;
    }
    let lo = lo_of(e, f.first);
    if docket < lo {
        return false;
    }
    covers(lo, hi_of(e, f.first), date_of(e, f.first), docket, stamp)
        || is_covered(e, f.behind, docket, stamp)
}

// The latest date of a front's ranges over the docket.
pub fn front_latest(e: &[u32], f: Front, docket: u32) -> Latest
    requires { FrontOrdered e.now f }
    ensures { result ≡ surveyed e.now docket (front_slots e.now f) no_date }
{
    if f.first == 0 {
        return Latest::NONE;
    }
    let lo = lo_of(e, f.first);
    if docket < lo {
        return Latest {
            next: lo,
            ..Latest::NONE
        };
    }
    let m = meet(e, f.first, docket, Latest::NONE);
    survey(e, f.behind, docket, m)
}

// The latest date of the ranges over the docket, 0 where there is none: no stamp is as early.
pub fn latest_date(e: &[u32], head: usize, docket: u32) -> u32
    requires { Ordered e.now head }
    ensures { result ≡ latest (map (read_range e.now) (chain_from e.now head)) docket }
{
    survey(e, head, docket, Latest::NONE).date
}

// Whether a point has the docket. Behind `seek` the first point left decides: no later one has an earlier docket.
#[tactic(auto, using(crate::proofs::Chains::walk_in_table))]
pub fn first_names(e: &[u32], at: usize, docket: u32) -> bool
    requires { Ahead e.now (lo_of e.now) at docket }
    ensures { result ≡ names (map (read_point e.now) (chain_from e.now at)) docket }
{
    at != 0 && lo_of(e, at) == docket
}

// Passes the records that begin before the docket.
pub fn seek(e: &[u32], from: usize, docket: u32) -> usize
    requires { Ordered e.now from }
    ensures { result ≡ first_slot (beginning e.now docket (chain_from e.now from)) }
{
    pass(e, from, docket, lo_of)
}

// Passes the records that end before the docket.
pub fn skip(e: &[u32], from: usize, docket: u32) -> usize
    requires { Ordered e.now from }
    ensures { result ≡ first_slot (reaching e.now docket (chain_from e.now from)) }
{
    pass(e, from, docket, hi_of)
}

// Passes the records whose bound, of which the caller says how it is read, lies before the docket. What is left is a chain again, so that 0 ends it.
#[tactic(auto, using(crate::proofs::Chains::walk_in_table, crate::proofs::Chains::walk_shorter))]
fn pass<F: Fn(&[u32], usize) -> u32>(e: &[u32], from: usize, docket: u32, bound_of: F) -> usize
    requires ordered { Ordered e.now from }
    requires computes { Exists (λ bound. Computes bound (F.pre bound_of) (F.post bound_of)) }
    ensures { (bound : _) → Computes bound (F.pre bound_of) (F.post bound_of)
        → result ≡ first_slot (from_bound (bound e.now) docket (chain_from e.now from)) }
{
    let mut at = from;
    while at != 0 {
        if docket <= bound_of(e, at) {
            return at;
        }
        at = next_of(e, at);
    }
    0
}

// Behind the first, the ranges that end before the docket are passed.
fn pass_behind(e: &[u32], f: Front, docket: u32) -> Front
    requires { Ordered e.now f.behind }
    ensures { result ≡ pass_behind e.now docket f }
{
    Front {
        behind: skip(e, f.behind, docket),
        ..f
    }
}

// Walks the ranges, which ascend by lo, no farther than the docket. One test passes most of them, and asks for all that is read, so that it is read at once.
#[tactic(auto, using(crate::proofs::Chains::walk_in_table, crate::proofs::Chains::walk_shorter))]
fn is_covered(e: &[u32], head: usize, docket: u32, stamp: u32) -> bool
    requires { Ordered e.now head }
    ensures { result ≡ covered (map (read_range e.now) (chain_from e.now head)) docket stamp }
{
    let mut at = head;
    while at != 0 {
        let next = next_of(e, at);
        let lo = lo_of(e, at);
        let date = date_of(e, at);
        if (docket < lo) | (stamp <= date) | (next == 0) {
            if covers(lo, hi_of(e, at), date, docket, stamp) {
                return true;
            }
            if docket < lo {
                return false;
            }
        }
        at = next;
    }
    false
}

// The same walk for the latest date, after what was seen before it.
#[tactic(auto, using(crate::proofs::Chains::walk_in_table, crate::proofs::Chains::walk_shorter))]
fn survey(e: &[u32], head: usize, docket: u32, seen: Latest) -> Latest
    requires { Ordered e.now head }
    ensures { result ≡ surveyed e.now docket (chain_from e.now head) seen }
{
    let mut m = seen;
    let mut at = head;
    while at != 0 {
        let lo = lo_of(e, at);
        if docket < lo {
            return Latest { next: lo, ..m };
        }
        m = meet(e, at, docket, m);
        at = next_of(e, at);
    }
    m
}

// A range that has begun: its date counts if it has not ended.
fn meet(e: &[u32], slot: usize, docket: u32, m: Latest) -> Latest
    requires { InTable e.now slot }
    ensures { result ≡ met e.now docket slot m }
{
    let hi = hi_of(e, slot);
    if hi < docket {
        return m;
    }
    let date = date_of(e, slot);
    if m.date < date {
        Latest {
            date,
            last: hi,
            ..m
        }
    } else {
        m
    }
}
