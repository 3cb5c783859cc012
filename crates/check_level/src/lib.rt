// One level checked: its two chains, each followed with marks, and its numbers. The tables stay two slices, here and in the crates of the check
// above, as C lends them: chains are walked in the one, rows are read in the other.
#![tactic(auto)]

ghost use Rattle.std.specs.Prelude.{◌≡◌, ◌+◌, ◌*◌, ◌<◌, length};
ghost use Rattle.tables.specs.Rows.{InRows};
ghost use Rattle.tables.specs.Slots.{slots_of};
ghost use Rattle.check_walk.specs.Slots.{Entries};
ghost use Rattle.check_level.specs.Levels.{numbers_fit, leveled};

use check_forms::{Points, Ranges};
use check_walk::walk;
use table_levels::level_at;
use table_slots::clock_of;

// A level's number of records and its owed.
#[tactic(auto, unfolding(crate::specs::Levels::numbers_fit))]
fn numbers_fit(e: &[u32], l: &[u32], i: usize, count: usize) -> bool
    requires entries { Entries e.now }
    requires in_rows { InRows l.now i }
    ensures { result ≡ numbers_fit e.now l.now i count }
{
    let level = level_at(l, i);
    level.held == count && level.owed <= clock_of(e) && (count != 0 || level.owed == 0)
}

// A level's two chains, then its numbers, which need what the chains hold: how many records those are, where all fits. Where the numbers do not,
// the records are told all the same, and a chain that does not fit counts none.
pub fn level(e: &[u32], l: &[u32], i: usize, marks: &mut [u8]) -> Result<usize, usize>
    requires entries { Entries e.now }
    requires e_bound { slots_of e.now < 8 * length marks.old }
    requires in_rows { InRows l.now i }
    ensures { record { answer = result; marks = marks.new } ≡ leveled e.now l.now i marks.old }
{
    let row = level_at(l, i);
    let Some(points) = walk::<Points>(e, row.points, row.owed, marks) else {
        return Err(0);
    };
    let Some(ranges) = walk::<Ranges>(e, row.ranges, row.owed, marks) else {
        return Err(0);
    };
    let count = points + ranges;
    if numbers_fit(e, l, i, count) {
        Ok(count)
    } else {
        Err(count)
    }
}
