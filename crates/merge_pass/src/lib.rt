// The pass: each level from the buffer to L−1 merged where it has too many records or has owed for its limit.
#![tactic(auto)]

ghost use Rattle.std.specs.Prelude.{◌≡◌, ◌≤◌};
ghost use Rattle.lists.specs.All.{Exists};
ghost use Rattle.settings.specs.Carried.{Carried};
ghost use Rattle.model.specs.Steps.{begin, overfull, overdue, pass_level, pass};
ghost use Rattle.tables.specs.Rows.{InRows, level_row};
ghost use Rattle.merge_levels.specs.Laid.{Store, StoredAt, Laid, Worked};
ghost use Rattle.merge_pass.specs.Due.{due_row};

use merge_levels::merge_level;
use settings::LevelSettings;
use table_levels::{level_at, settings_of};

// The whole pass; how many merges it counts.
pub fn pass(e: &mut [u32], l: &mut [u32], clock: u32) -> u32
    requires { StoredAt e.old l.old clock }
    ensures { (g : Store) → Laid g e.old l.old → g.time ≡ clock → Worked g (pass clock (begin g.state)) e.new l.new result }
{
    let settings = settings_of(l);
    let mut at = settings.at_level(0);
    let mut merges = 0;
    // No index is counted: `at` is a level with its limit and its capacity, worked out from those of the level above.
    while at.level < settings.deepest {
        merges += pass_level(e, l, clock, at);
        at = at.next();
    }
    merges
}

// A level merged if it is due.
fn pass_level(e: &mut [u32], l: &mut [u32], clock: u32, at: LevelSettings) -> u32
    requires carried { Carried at }
    requires exists { Exists (λ g. Laid g e.old l.old × (g.time ≡ clock) × (g.state.settings ≡ at.settings)) }
    ensures { (g : Store) → Laid g e.old l.old → g.time ≡ clock → g.state.settings ≡ at.settings
        → Worked g (pass_level clock at.level (begin g.state)) e.new l.new result }
{
    if is_due(l, clock, at) {
        merge_level(e, l, at.level as usize)
    } else {
        0
    }
}

fn is_due(l: &[u32], clock: u32, at: LevelSettings) -> bool
    requires carried { Carried at }
    requires in_rows { InRows l.now at.level }
    requires level_bound { (level_row l.now at.level).owed ≤ clock }
    ensures { result ≡ due_row at.settings clock at.level (level_row l.now at.level) }
{
    let row = level_at(l, at.level as usize);
    is_overfull(row.held, at) || is_overdue(row.owed, clock, at)
}

// Whether the buffer has B records or more, or another level more than its capacity.
#[tactic(auto, unfolding(model::specs::Steps::overfull))]
fn is_overfull(held: usize, at: LevelSettings) -> bool
    requires { Carried at }
    ensures { result ≡ overfull at.settings at.level held }
{
    if at.level == 0 {
        at.settings.buffer as usize <= held
    } else {
        at.capacity() < held as u64
    }
}

// Whether a level has owed for its limit, the buffer too.
#[tactic(auto, unfolding(model::specs::Steps::overdue))]
fn is_overdue(owed: u32, clock: u32, at: LevelSettings) -> bool
    requires carried { Carried at }
    requires owed_le_clock { owed ≤ clock }
    ensures { result ≡ overdue at.settings clock at.level owed }
{
    owed != 0 && at.limit() <= (clock - owed) as u64
}
