// Levels merged downwards in the two tables: one, or all of them in order.
#![tactic(auto)]

ghost use Rattle.std.specs.Prelude.{◌<◌};
ghost use Rattle.lists.specs.All.{Exists};
ghost use Rattle.model.specs.Steps.{begin, merge_level, merge_all};
ghost use Rattle.merge_levels.specs.Laid.{Store, Stored, Laid, Worked};

use merge_join::join;
use table_levels::{clear_level, deepest_of, level_at, set_level};

// Level i merged into the next; how many merges that counts: 1 where level i had a record.
// The tables come apart, as C lends them: chains are walked in the one alone, rows are read in the other. So `Stored` is a fact of two slices, as
// `ChainAt` and `Enters` are of one with a slot or a level, and no type holds it.
pub fn merge_level(e: &mut [u32], l: &mut [u32], i: usize) -> u32
    requires { Exists (λ g. Laid g e.old l.old × (i < g.state.settings.deepest)) }
    ensures { (g : Store) → Laid g e.old l.old → i < g.state.settings.deepest
        → Worked g (merge_level i (begin g.state)) e.new l.new result }
{
    let upper = level_at(l, i);
    let lower = level_at(l, i + 1);
    let deepest = i + 1 == deepest_of(l);
    let joined = join(e, upper, lower, deepest);
    clear_level(l, i);
    set_level(l, i + 1, joined);
    if upper.held == 0 { 0 } else { 1 }
}

// Levels 0 to L−1 merged in order; how many merges that counts.
pub fn merge_all(e: &mut [u32], l: &mut [u32]) -> u32
    requires { Stored e.old l.old }
    ensures { (g : Store) → Laid g e.old l.old → Worked g (merge_all g.state) e.new l.new result }
{
    let mut merges = 0;
    for i in 0..deepest_of(l) {
        merges += merge_level(e, l, i);
    }
    merges
}
