// A line of the script as its bytes come in, and its end: the line is carried out, and what it prints waits to be written out.
#![tactic(auto)]

ghost use Rattle.std.specs.Prelude.{◌≡◌, ◌+◌, ◌≤◌, length, replicate};
ghost use Rattle.script_store.specs.Stores.{memory_of};
ghost use Rattle.script_command.specs.Cases.{no_store};
ghost use Rattle.script_buffer.specs.Bytes.{taken, ended};
ghost use Rattle.script_buffer.specs.Room.{standing_in, standing_of};

mod buffer;

pub use buffer::Buffer;
use script_command::run_line;
use script_prints::print_numbers;
use script_store::Store;

// How many bytes of a line are kept: a longer one has no form, whatever its other bytes are.
pub const LINE_ROOM: usize = 64;

// Where a script stands: its store, the bytes of a line that are kept, and the printed bytes that wait to be written out.
#[derive(Drop)]
pub struct Script<const ROOM: usize> {
    pub store: Store,
    pub line: Buffer<LINE_ROOM>,
    pub output: Buffer<ROOM>,
}

impl<const ROOM: usize> Script<ROOM> {
    // No store, no bytes of a line, and none that wait, in room of zeros.
    pub fn new() -> Self
        ensures memory { memory_of result.store ≡ no_store }
        ensures no_line { result.line.count ≡ 0 }
        ensures none_waits { result.output.count ≡ 0 }
        ensures line_zeros { result.line.bytes ≡ replicate 64 0 }
        ensures output_zeros { result.output.bytes ≡ replicate ROOM 0 }
    {
        Script {
            store: Store::new(),
            line: Buffer::new(),
            output: Buffer::new(),
        }
    }

    // Takes in one byte: a line feed ends the line, another byte goes on with it.
    pub fn take_byte(&mut self, byte: u8)
        requires { self.old.output.count + 44 ≤ ROOM }
        ensures result_after { standing_of self.new ≡ taken byte (standing_of self.old) }
        ensures waiting_bound { self.new.output.count ≤ self.old.output.count + 44 }
    {
        self.output.count = take_byte_into(
            byte,
            &mut self.store,
            &mut self.line,
            &mut self.output.bytes,
            self.output.count,
        );
    }

    // Ends the line: it is carried out, and what it prints waits after what was printed before.
    pub fn end_line(&mut self)
        requires { self.old.output.count + 44 ≤ ROOM }
        ensures result_after { standing_of self.new ≡ ended (standing_of self.old) }
        ensures waiting_bound { self.new.output.count ≤ self.old.output.count + 44 }
    {
        self.output.count = end_line_into(
            &mut self.store,
            &mut self.line,
            &mut self.output.bytes,
            self.output.count,
        );
    }
}

// Takes in one byte where the output is lent, of any length, and so many printed bytes wait in it. Answers how many wait then.
pub fn take_byte_into(
    byte: u8,
    store: &mut Store,
    line: &mut Buffer<LINE_ROOM>,
    output: &mut [u8],
    waiting: usize,
) -> usize
    requires { waiting + 44 ≤ length output.old }
    ensures result_after { standing_in store.new line.new output.new result ≡ taken byte (standing_in store.old line.old output.old waiting) }
    ensures waiting_bound { result ≤ waiting + 44 }
{
    if byte == b'\n' {
        return end_line_into(store, line, output, waiting);
    }
    line.keep(byte);
    waiting
}

// Ends the line where the output is lent. Answers how many printed bytes wait in it then.
pub fn end_line_into(
    store: &mut Store,
    line: &mut Buffer<LINE_ROOM>,
    output: &mut [u8],
    waiting: usize,
) -> usize
    requires { waiting + 44 ≤ length output.old }
    ensures result_after { standing_in store.new line.new output.new result ≡ ended (standing_in store.old line.old output.old waiting) }
    ensures waiting_bound { result ≤ waiting + 44 }
{
    let printed = run_line(line.as_slice(), store);
    line.clear();
    print_numbers(output, waiting, printed)
}
