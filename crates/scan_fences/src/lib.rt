// The ranges that levels still have to come: the latest date of those over a docket, how deep it is found, and up to where that is so.
#![tactic(auto)]

ghost use Rattle.std.specs.Prelude.{◌≡◌, ◌≤◌};
ghost use Rattle.scan_fences.specs.Fences.{Ready, sees, surveyed};

use chain_cover::{Front, Latest, advance, front_latest};

// Past the last docket, and that. A number, and no Option, since it stands in order behind every docket.
const NO_FENCE: u32 = 65536;

const LAST_DOCKET: u32 = 65535;

// The latest date of the ranges over the dockets before the fence, from the one asked for on, and how many levels from 0 on it takes to
// have it. Both are 0 where no range is over them.
#[derive(Clone, Copy)]
pub struct Cover {
    pub date: u32,
    pub depth: u32,
    pub fence: u32,
}

// What was seen of some levels: the latest date, how many levels it takes to have it, the last docket of its range, and where a range
// begins next.
#[derive(Clone, Copy)]
struct Seen {
    date: u32,
    depth: u32,
    last: u32,
    next: u32,
}

// Passes ranges that end before the docket, in each level, and asks it for the docket. The front of level i stands at 2 × i and behind it: in
// pairs the ranges would no longer be any list of numbers that has room, which the clause `ready` takes.
pub fn survey(e: &[u32], ranges: &mut [u32], levels: usize, docket: u32) -> Cover
    requires ready { Ready e.now ranges.old levels }
    requires docket_bound { docket ≤ 65535 }
    ensures { record { ranges = ranges.new; cover = result } ≡ surveyed e.now docket levels ranges.old }
{
    let mut seen = Seen {
        date: 0,
        depth: 0,
        last: LAST_DOCKET,
        next: NO_FENCE,
    };
    for i in 0..levels {
        let at = 2 * i;
        let first = ranges[at] as usize;
        let behind = ranges[at + 1] as usize;
        let f = advance(e, Front { first, behind }, docket);
        ranges[at] = f.first as u32;
        ranges[at + 1] = f.behind as u32;
        let l = front_latest(e, f, docket);
        seen = see(seen, i as u32 + 1, l);
    }
    Cover {
        date: seen.date,
        depth: seen.depth,
        fence: seen.next.min(seen.last + 1),
    }
}

// One level more, so many with it: a later date than those above takes their place.
fn see(s: Seen, depth: u32, l: Latest) -> Seen
    ensures { result ≡ sees s depth l }
{
    let next = s.next.min(l.next);
    if s.date < l.date {
        Seen {
            date: l.date,
            depth,
            last: l.last,
            next,
        }
    } else {
        Seen { next, ..s }
    }
}
