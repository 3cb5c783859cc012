// What a call does before its pass; of a write: room for it, its entry or its action on level L.
#![tactic(auto)]

ghost use Rattle.model.specs.declared.Tally.{Tally};
ghost use Rattle.lists.specs.All.{Exists};
ghost use Rattle.model.specs.Steps.{Write};
ghost use Rattle.model.specs.Calls.{written};
ghost use Rattle.call_op.specs.Ops.{op_of};
ghost use Rattle.call_refusal.specs.Began.{Began};
ghost use Rattle.call_prepare.specs.Writing.{Writes, Crowded, Prepares};

use call_op::{Op, Work};
use merge_levels::{merge_all, merge_level};
use refusals::Refusal;
use table_slots::first_free;
use write_act::act;
use write_enter::enter;
use write_record::{Record, is_crowded};

// A call that nothing turns away at once: its write, the merge of the buffer for a flush, nothing for a tick.
// The merges that it counts; or full, where a put finds no slot and level L lacks its docket.
pub fn prepare(e: &mut [u32], l: &mut [u32], clock: u32, op: Op) -> Result<u32, Refusal>
    requires { Began e.old l.old clock (op_of op) }
    ensures { Prepares e.old l.old clock (op_of op) e.new l.new result }
{
    match op.work() {
        Work::Write(w) => write(e, l, clock, w),
        Work::Merge => Ok(merge_level(e, l, 0)),
        Work::Nothing => Ok(0),
    }
}

// A write, where there is room or once room is made.
fn write(e: &mut [u32], l: &mut [u32], clock: u32, w: Record) -> Result<u32, Refusal>
    requires { Exists (λ v. Writes v e.old l.old clock w) }
    ensures { (v : Write Tally) → Writes v e.old l.old clock w
        → Prepares e.old l.old clock (written v) e.new l.new result }
{
    if is_crowded(e, l, w) {
        return write_crowded(e, l, clock, w);
    }
    enter(e, l, clock, w);
    Ok(0)
}

// Where the buffer has no room the levels are merged first; then into the buffer, or onto level L where no slot is free even then.
fn write_crowded(e: &mut [u32], l: &mut [u32], clock: u32, w: Record) -> Result<u32, Refusal>
    requires { Exists (λ v. Crowded v e.old l.old clock w) }
    ensures { (v : Write Tally) → Crowded v e.old l.old clock w
        → Prepares e.old l.old clock (written v) e.new l.new result }
{
    let merges = merge_all(e, l);
    if first_free(e) != 0 {
        enter(e, l, clock, w);
        return Ok(merges);
    }
    if act(e, l, clock, w) {
        Ok(merges)
    } else {
        Err(Refusal::Full)
    }
}
