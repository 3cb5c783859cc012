// The script program of document 01: reads standard input and prints three numbers for each line, four for a lookup.
#![tactic(auto)]

mod retry;

ghost use Rattle.std.specs.Prelude.{◌≡◌, ◌≤◌, IsTrue, cond, eqb, length, take};
ghost use Rattle.std.specs.Io.KnownBytes.{Appends};
ghost use Rattle.script_buffer.specs.Room.{standing_of};
ghost use Rattle.script_stream.specs.Blocks.{fed, finished, written};
ghost use Rattle.run_script.specs.Turns.{Turn, Run};

use retry::{read_block, write_all};
use script_buffer::Script;
use script_stream::{feed, finish};
use std::io::{Read, Write};
use std::rt::Clock;

// The most bytes that are read at once.
const INPUT_ROOM: usize = 8192;

// A byte of input ends at most one line, which prints at most 44 bytes.
const OUTPUT_ROOM: usize = 44 * INPUT_ROOM;

fn main(rt: HostRuntime) {
    let mut script = Script::new();
    let mut input = [0; INPUT_ROOM];
    serve(
        &rt,
        &mut rt.stdin(),
        &mut rt.stdout(),
        &mut script,
        &mut input,
    );
}

// Reads blocks until the input ends or the output is closed. A proved loop has to end: it has more turns than a run uses up.
// It begins with no store, no byte of a line and none that waits. That is said in clauses: a type for it would be a `Script` once more.
fn serve<R: Read, W: Write>(
    rt: &(impl Clock + Eprint),
    reader: &mut R,
    writer: &mut W,
    script: &mut Script<OUTPUT_ROOM>,
    input: &mut [u8],
)
    requires no_slots { script.old.store.size.slots ≡ 0 }
    requires no_levels { script.old.store.size.deepest ≡ 0 }
    requires no_line { script.old.line.count ≡ 0 }
    requires none_waits { script.old.output.count ≡ 0 }
    requires input_room { length input.old ≡ 8192 }
    requires output_room { length script.old.output.bytes ≡ 360448 }
    ensures { Run (standing_of script.old) (standing_of script.new) }
{
    for _ in 0..u64::MAX {
        if !serve_block(rt, reader, writer, script, input) {
            return;
        }
    }
}

// Reads a block and writes out what it prints before the next is read, so that whoever types sees each answer at once. Answers whether
// the script goes on: the input may have more, and the output takes it.
fn serve_block<R: Read, W: Write>(
    rt: &(impl Clock + Eprint),
    reader: &mut R,
    writer: &mut W,
    script: &mut Script<OUTPUT_ROOM>,
    input: &mut [u8],
) -> bool
    requires none_waits { script.old.output.count ≡ 0 }
    requires input_room { length input.old ≡ 8192 }
    ensures none_waits { script.new.output.count ≡ 0 }
    ensures turn { Turn input.new (standing_of script.old) (standing_of script.new) result }
{
    let count = read_block(rt, reader, input);
    take_block(&input[..count], script);
    write_out(rt, writer, script) && count != 0
}

// Takes in a block of input; an empty one is its end.
fn take_block(block: &[u8], script: &mut Script<OUTPUT_ROOM>)
    requires none_waits { script.old.output.count ≡ 0 }
    requires small { length block.now ≤ 8192 }
    ensures { standing_of script.new ≡ cond (eqb (length block.now) 0) (finished (standing_of script.old)) (fed block.now (standing_of script.old)) }
{
    if block.is_empty() {
        finish(script);
    } else {
        feed(block, script);
    }
}

// Writes out what waits, and answers whether all was written.
fn write_out<W: Write>(
    rt: &(impl Clock + Eprint),
    writer: &mut W,
    script: &mut Script<OUTPUT_ROOM>,
) -> bool
    ensures none_waits { script.new.output.count ≡ 0 }
    ensures room_kept { standing_of script.new ≡ written (standing_of script.old) }
    ensures all { IsTrue result → Appends (W.contents writer.old) (W.contents writer.new) (take script.old.output.count script.old.output.bytes) }
{
    let all = write_all(rt, writer, script.output.as_slice());
    script.output.clear();
    all
}
