// The script's input as it comes in, block by block, and its end.
#![tactic(auto)]

ghost use Rattle.std.specs.Prelude.{◌≡◌, ◌+◌, ◌*◌, ◌≤◌, length};
ghost use Rattle.script_buffer.specs.Room.{standing_in, standing_of};
ghost use Rattle.script_stream.specs.Blocks.{fed, finished};

use script_buffer::{Buffer, LINE_ROOM, Script, end_line_into, take_byte_into};
use script_store::Store;

// Takes in the bytes of a block.
pub fn feed<const ROOM: usize>(block: &[u8], script: &mut Script<ROOM>)
    requires { script.old.output.count + 44 * length block.now ≤ ROOM }
    ensures result_after { standing_of script.new ≡ fed block.now (standing_of script.old) }
    ensures waiting_bound { script.new.output.count ≤ script.old.output.count + 44 * length block.now }
{
    script.output.count = feed_into(
        block,
        &mut script.store,
        &mut script.line,
        &mut script.output.bytes,
        script.output.count,
    );
}

// Ends the input: a line that lacks its line feed is a line.
pub fn finish<const ROOM: usize>(script: &mut Script<ROOM>)
    requires { script.old.output.count + 44 ≤ ROOM }
    ensures result_after { standing_of script.new ≡ finished (standing_of script.old) }
    ensures waiting_bound { script.new.output.count ≤ script.old.output.count + 44 }
{
    script.output.count = finish_into(
        &mut script.store,
        &mut script.line,
        &mut script.output.bytes,
        script.output.count,
    );
}

// Takes in the bytes of a block where the output is lent, of any length, and so many printed bytes wait in it. Answers how many wait then.
pub fn feed_into(
    block: &[u8],
    store: &mut Store,
    line: &mut Buffer<LINE_ROOM>,
    output: &mut [u8],
    waiting: usize,
) -> usize
    requires { waiting + 44 * length block.now ≤ length output.old }
    ensures result_after { standing_in store.new line.new output.new result ≡ fed block.now (standing_in store.old line.old output.old waiting) }
    ensures waiting_bound { result ≤ waiting + 44 * length block.now }
{
    let mut end = waiting;
    for byte in block {
        end = take_byte_into(*byte, store, line, output, end);
    }
    end
}

// Ends the input where the output is lent. Answers how many printed bytes wait in it then.
pub fn finish_into(
    store: &mut Store,
    line: &mut Buffer<LINE_ROOM>,
    output: &mut [u8],
    waiting: usize,
) -> usize
    requires { waiting + 44 ≤ length output.old }
    ensures result_after { standing_in store.new line.new output.new result ≡ finished (standing_in store.old line.old output.old waiting) }
    ensures waiting_bound { result ≤ waiting + 44 }
{
    if line.is_empty() {
        return waiting;
    }
    end_line_into(store, line, output, waiting)
}
