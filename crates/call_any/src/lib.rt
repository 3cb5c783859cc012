// A timed call on the two tables, of any content and operation: refused by its number, or its work is done, the pass ends it, and it counts.
#![tactic(auto)]

ghost use Rattle.std.specs.Prelude.{◌≡◌};
ghost use Rattle.call_tables.specs.Calls.{lent, call_tables};
ghost use Rattle.call_refusal.specs.Began.{Began};
ghost use Rattle.call_end.specs.Coded.{called};
ghost use Rattle.call_op.specs.Ops.{op_of};

use call_end::{Answer, finish};
use call_op::Op;
use call_prepare::prepare;
use call_refusal::check_call;
use refusals::Refusal;
use table_levels::held_all;

// Every timed call: what turns it away at once is asked for, then it is carried out. The tables are two slices here and in its parts, as C lends them.
pub fn call(entries: &mut [u32], levels: &mut [u32], clock: u32, op: Op) -> Result<Answer, Refusal>
    ensures { called entries.new levels.new result ≡ call_tables (lent entries.old levels.old) (record { clock = clock; op = op_of op }) }
{
    check_call(entries, levels, clock, op)?;
    carry_out(entries, levels, clock, op)
}

// A call that is not turned away: its work, then its end, unless no slot was left for it.
fn carry_out(entries: &mut [u32], levels: &mut [u32], clock: u32, op: Op) -> Result<Answer, Refusal>
    requires { Began entries.old levels.old clock (op_of op) }
    ensures { called entries.new levels.new result ≡ call_tables (lent entries.old levels.old) (record { clock = clock; op = op_of op }) }
{
    let before = held_all(levels) + op.records_written();
    let merges = prepare(entries, levels, clock, op)?;
    Ok(finish(entries, levels, clock, before, merges))
}
