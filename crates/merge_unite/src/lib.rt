// Ranges of two levels on the way to one chain: of two alike the upper one stays, with the later date and the later stamp.
#![tactic(auto)]

ghost use Rattle.std.specs.Prelude.{◌≢◌, ◌<◌};
ghost use Rattle.lists.specs.All.{Exists};
ghost use Rattle.chain_cells.specs.Splicing.{Chains};
ghost use Rattle.merge_unite.specs.Uniting.{RangesHeld, Uniting, United, to_see};

use chain_cells::{Cursor, sift};
use chain_links::take_later;
use table_slots::{next_of, order_key};

// What is left to look at of the upper ranges, and a cursor in the lower ones.
#[derive(Clone, Copy)]
struct Progress {
    upper: usize,
    cursor: Cursor,
}

// The lower ranges that the upper ones do not double; an upper one that doubles takes the later date and the later stamp.
pub fn unite(e: &mut [u32], upper: usize, lower: usize) -> Cursor
    requires { Exists (λ g. RangesHeld g e.old upper lower) }
    ensures { (g : Chains) → RangesHeld g e.old upper lower → United g e.new result }
{
    let mut m = Progress {
        upper,
        cursor: Cursor::at_start(lower),
    };
    // A loop of its own: a step may pass an upper range in place of a lower one, or change one.
    while m.cursor.at != 0 {
        m = unite_step(e, m);
    }
    m.cursor
}

// The lower range at the cursor, held against the first upper one that is left.
fn unite_step(e: &mut [u32], m: Progress) -> Progress
    requires exists { Exists (λ g. Uniting g e.old m) }
    requires at_nonzero { m.cursor.at ≢ 0 }
    ensures { (g : Chains) → Uniting g e.old m → Uniting g e.new result × (to_see e.new result < to_see e.old m) }
{
    let cursor = m.cursor;
    if m.upper == 0 {
        return Progress {
            cursor: sift(e, cursor, false),
            ..m
        };
    }
    let upper = order_key(e, m.upper);
    let lower = order_key(e, cursor.at);
    if upper < lower {
        Progress {
            upper: next_of(e, m.upper),
            ..m
        }
    } else if upper == lower {
        take_later(e, m.upper, cursor.at);
        Progress {
            cursor: sift(e, cursor, true),
            ..m
        }
    } else {
        Progress {
            cursor: sift(e, cursor, false),
            ..m
        }
    }
}
