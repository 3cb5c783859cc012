// How an accepted call ends: with the pass, the clock, and the sum of what has gone.
#![tactic(auto)]

ghost use Rattle.lists.specs.All.{Exists};
ghost use Rattle.merge_levels.specs.Laid.{Store};
ghost use Rattle.call_end.specs.Ending.{Ending, Ended};

use merge_pass::pass;
use table_levels::held_all;
use table_slots::set_clock;

// The merges of an accepted call, and the records that have gone.
#[derive(Clone, Copy)]
pub struct Answer {
    pub merges: u32,
    pub purged: u32,
}

// The pass, which ends every accepted call; then the clock, and what has gone of so many records.
pub fn finish(e: &mut [u32], l: &mut [u32], clock: u32, before: u32, merges: u32) -> Answer
    requires { Exists (λ g. Ending g e.old l.old clock before merges) }
    ensures { (g : Store) → Ending g e.old l.old clock before merges → Ended g clock before merges e.new l.new result }
{
    let more = pass(e, l, clock);
    set_clock(e, clock);
    Answer {
        merges: merges + more,
        purged: before - held_all(l),
    }
}
