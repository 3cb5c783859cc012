// A write where no slot is free, acted out on level L: a put over a put of its docket, a delete over what it covers.
#![tactic(auto)]

ghost use Rattle.std.specs.Prelude.{◌≡◌, false, ◌≤◌};
ghost use Rattle.model.specs.declared.Tally.{Tally};
ghost use Rattle.lists.specs.All.{Exists};
ghost use Rattle.model.specs.Steps.{Write};
ghost use Rattle.model.specs.Calls.{written, bad_docket};
ghost use Rattle.merge_levels.specs.Laid.{Store, StoredAt, Laid};
ghost use Rattle.write_record.specs.Records.{record_of};
ghost use Rattle.write_act.specs.Acting.{Points, PointsHeld, Overwritten, Acted};

use chain_sieve::{first_doomed, has_docket, sieve};
use model::Tally;
use table_levels::{Level, deepest_of, level_at, set_level};
use table_slots::{Kind, set_tally};
use write_record::{Record, displaces};

// Where no slot is free: a put changes its docket's tally on level L, a delete wipes what it covers there.
// Whether that was done, a yes or no with no value beside it: it is not where level L lacks the put's docket.
pub fn act(e: &mut [u32], l: &mut [u32], clock: u32, w: Record) -> bool
    requires stored { StoredAt e.old l.old clock }
    requires le_clock { 1 ≤ clock }
    requires written { Exists (λ (v : Write Tally). (w ≡ record_of v) × (bad_docket (written v) ≡ false)) }
    ensures { (g : Store) (v : Write Tally) → Laid g e.old l.old → g.time ≡ clock → w ≡ record_of v → bad_docket (written v) ≡ false
        → Acted g v e.old l.old e.new l.new result }
{
    let deepest = deepest_of(l);
    let level = level_at(l, deepest);
    match w.kind {
        Kind::Put => overwrite(e, level.points, clock, w.lo, w.tally),
        _ => {
            let points = sieve(e, level.points, |e, slot| displaces(e, slot, w));
            let left = Level {
                points: points.head,
                held: level.held - points.gone,
                ..level
            };
            set_level(l, deepest, left);
            true
        }
    }
}

// The tally and the stamp of a docket's put become others; whether the docket has one.
fn overwrite(e: &mut [u32], first: usize, clock: u32, docket: u32, tally: Tally) -> bool
    requires { Exists (λ g. PointsHeld g e.old first) }
    ensures { (g : Points) → PointsHeld g e.old first → Overwritten g docket tally clock e.new result }
{
    let Some(slot) = first_doomed(e, first, |e, slot| has_docket(e, slot, docket)) else {
        return false;
    };
    set_tally(e, slot, tally, clock);
    true
}
