// The points of a level that go because the level above has a point of their docket or a range that covers them.
#![tactic(auto)]

ghost use Rattle.std.specs.Prelude.{◌≡◌, ◌≢◌, ◌<◌};
ghost use Rattle.lists.specs.All.{Exists};
ghost use Rattle.chain_cover.specs.Fronts.{FrontOrdered};
ghost use Rattle.chain_cover.specs.Skips.{Ahead};
ghost use Rattle.merge_strike.specs.Striking.{Meeting, MeetingHeld, Strike, Striking, Struck, left_of, struck_by};
ghost use Rattle.tables.specs.Slots.{lo_of};

use chain_cells::{Cursor, sift};
use chain_cover::{Front, advance, first_names, front_at, front_covers, seek};
use table_slots::{lo_of, stamp_of};

// What is left to look at of the upper points and ranges, and a cursor in the lower points.
#[derive(Clone, Copy)]
struct Progress {
    points: usize,
    ranges: Front,
    cursor: Cursor,
}

// The lower points that the upper points and ranges leave.
pub fn strike(e: &mut [u32], lower: usize, points: usize, ranges: usize) -> Cursor
    requires { Exists (λ g. MeetingHeld g e.old lower points ranges) }
    ensures { (g : Meeting) → MeetingHeld g e.old lower points ranges → Struck g e.new result }
{
    let mut m = Progress {
        points,
        ranges: front_at(e, ranges),
        cursor: Cursor::at_start(lower),
    };
    // A loop of its own: what decides moves on with each point, so that as a closure it would have to carry its invariant through every call.
    while m.cursor.at != 0 {
        m = strike_step(e, m);
    }
    m.cursor
}

// The lower point at the cursor, held against the upper level.
fn strike_step(e: &mut [u32], m: Progress) -> Progress
    requires exists { Exists (λ g. Striking g e.old m) }
    requires at_nonzero { m.cursor.at ≢ 0 }
    ensures { (g : Strike) → Striking g e.old m → Striking g e.new result × (left_of e.new result < left_of e.old m) }
{
    let key = lo_of(e, m.cursor.at);
    // Lower points ascend, so what lies or ends before this one decides of no later one: each upper record is passed once.
    let points = seek(e, m.points, key);
    let ranges = advance(e, m.ranges, key);
    let stamp = stamp_of(e, m.cursor.at);
    let goes = is_struck(e, points, ranges, key, stamp);
    Progress {
        points,
        ranges,
        cursor: sift(e, m.cursor, goes),
    }
}

// Whether the upper level has a point of the docket or a range that covers the record, where points that lie before it are passed.
fn is_struck(e: &[u32], points: usize, ranges: Front, docket: u32, stamp: u32) -> bool
    requires ahead { Ahead e.now (lo_of e.now) points docket }
    requires front_ordered { FrontOrdered e.now ranges }
    ensures { result ≡ struck_by e.now points ranges docket stamp }
{
    first_names(e, points, docket) || front_covers(e, ranges, docket, stamp)
}
