// One line of the script, carried out in the memory that holds the store.
#![tactic(auto)]

ghost use Rattle.std.specs.Prelude.{◌≡◌};
ghost use Rattle.script_lines.specs.Lines.{line_of};
ghost use Rattle.script_command.specs.Script.{is_early, command_step, line_step};
ghost use Rattle.script_store.specs.Stores.{memory_of, stepped_to};

use call_op::Op;
use model::Tally;
use refusals::Refusal;
use script_lines::{Command, read_line};
use script_prints::Printed;
use script_store::{Store, alone};

// Carries out a line, which is given without its line feed.
pub fn run_line(text: &[u8], store: &mut Store) -> Printed
    ensures { stepped_to store.new result ≡ line_step (line_of text.now) (memory_of store.old) }
{
    let Some(command) = read_line(text) else {
        return alone(Refusal::Line.number());
    };
    run_command(command, store)
}

// Carries out a command; a call before a store was made is refused as no line of the script.
fn run_command(command: Command, store: &mut Store) -> Printed
    ensures { stepped_to store.new result ≡ command_step command (memory_of store.old) }
{
    if is_early(command, store) {
        return alone(Refusal::Line.number());
    }
    match command {
        Command::Make {
            slots,
            deepest,
            ratio,
            buffer,
            term,
        } => store.run_make(slots, deepest, ratio, buffer, term),
        Command::Put {
            clock,
            key,
            count,
            price,
        } => store.run_call(clock, Op::Put(key, Tally { count, price })),
        Command::Delete { clock, key } => store.run_call(clock, Op::Delete(key)),
        Command::DeleteRange { clock, lo, hi } => store.run_call(
            clock,
            Op::DeleteRange(lo, hi, clock),
        ),
        Command::DeleteRangeDated {
            clock,
            lo,
            hi,
            date,
        } => store.run_call(clock, Op::DeleteRange(lo, hi, date)),
        Command::Flush { clock } => store.run_call(clock, Op::Flush),
        Command::Tick { clock } => store.run_call(clock, Op::Tick),
        Command::Lookup { key } => store.run_lookup(key),
    }
}

// Whether the command needs a store and there is none.
fn is_early(command: Command, store: &Store) -> bool
    ensures { result ≡ is_early command store.now.size.slots }
{
    !store.is_made() && !matches!(command, Command::Make { .. })
}
