// One level merged into another, chain by chain.
#![tactic(auto)]

ghost use Rattle.lists.specs.All.{Exists};
ghost use Rattle.merge_join.specs.Joining.{Levels, LevelsHeld, Joined, Merged, MergedHeld, merging, Settled};

use chain_cells::splice;
use chain_sieve::{is_delete, sieve};
use merge_strike::strike;
use merge_unite::unite;
use table_levels::{Level, earlier};

// The merge of two levels; at the deepest level the deletes are then wiped.
pub fn join(e: &mut [u32], upper: Level, lower: Level, deepest: bool) -> Level
    requires { Exists (λ g. LevelsHeld g e.old upper lower) }
    ensures { (g : Levels) → LevelsHeld g e.old upper lower → Joined deepest g e.new result }
{
    let merged = merge(e, upper, lower);
    if deepest { settle(e, merged) } else { merged }
}

// The upper level merged into the lower.
fn merge(e: &mut [u32], upper: Level, lower: Level) -> Level
    requires { Exists (λ g. LevelsHeld g e.old upper lower) }
    ensures { (g : Levels) → LevelsHeld g e.old upper lower → MergedHeld (merging g) e.new result }
{
    let struck = strike(e, lower.points, upper.points, upper.ranges);
    let points = splice(e, upper.points, struck.head);
    let united = unite(e, upper.ranges, lower.ranges);
    let ranges = splice(e, upper.ranges, united.head);
    let held = upper.held + lower.held - struck.gone - united.gone;
    Level {
        points,
        ranges,
        held,
        owed: earlier(upper.owed, lower.owed),
    }
}

// The deletes wiped, after they have wiped what they cover.
fn settle(e: &mut [u32], level: Level) -> Level
    requires { Exists (λ g. MergedHeld g e.old level) }
    ensures { (g : Merged) → MergedHeld g e.old level → Settled g e.new result }
{
    let puts = sieve(e, level.points, is_delete);
    let ranges = sieve(e, level.ranges, |_, _| true);
    Level {
        points: puts.head,
        ranges: 0,
        held: level.held - puts.gone - ranges.gone,
        owed: 0,
    }
}
