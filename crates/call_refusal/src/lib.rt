// What turns a timed call away at once.
#![tactic(auto)]

ghost use Rattle.std.specs.Prelude.{◌≡◌};
ghost use Rattle.refusals.specs.Numbers.{refusal_of};
ghost use Rattle.call_op.specs.Ops.{op_of};
ghost use Rattle.call_refusal.specs.Began.{call_refusal};

use call_op::Op;
use check_refusal::check_dockets;
use refusals::Refusal;
use table_slots::clock_of;

// The first of the refusals 1 to 5 and 10 that the call meets, in the order of their table.
pub fn check_call(e: &[u32], l: &[u32], clock: u32, op: Op) -> Result<(), Refusal>
    ensures { refusal_of result ≡ call_refusal e.now l.now (record { clock = clock; op = op_of op }) }
{
    let span = op.dockets();
    check_dockets(e, l, span.lo, span.hi)?;
    if clock == 0 || clock < clock_of(e) {
        return Err(Refusal::Clock);
    }
    if op.is_misdated(clock) {
        return Err(Refusal::Date);
    }
    Ok(())
}
