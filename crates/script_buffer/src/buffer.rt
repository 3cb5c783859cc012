// Bytes that come one after another into room for so many.
ghost use Rattle.std.specs.Prelude.{◌≡◌, ◌∷◌, [], ◌++◌, ◌+◌, ◌≤◌, ◌↔◌, IsTrue, replicate, length, take, drop};
ghost use Rattle.script_prints.specs.Texts.{numbers_of, numbers_text, overwrite};

use script_prints::{Printed, print_numbers};

// The bytes that came stand before the rest of the room, which keeps what it had.
#[derive(Drop)]
pub struct Buffer<const ROOM: usize> {
    pub bytes: [u8; ROOM],
    pub count: usize,
    pub ghost whole: { length bytes ≡ ROOM },
    pub ghost within: { count ≤ ROOM },
}

impl<const ROOM: usize> Buffer<ROOM> {
    // No bytes yet, in room of zeros.
    pub fn new() -> Self
        ensures zeros { result.bytes ≡ replicate ROOM 0 }
        ensures none { result.count ≡ 0 }
    {
        Buffer {
            bytes: [0; ROOM],
            count: 0,
        }
    }

    // Whether no byte came.
    pub fn is_empty(&self) -> bool
        ensures { IsTrue result ↔ self.now.count ≡ 0 }
    {
        self.count == 0
    }

    // The bytes that came.
    pub fn as_slice(&self) -> &[u8]
        ensures { result.now ≡ take self.now.count self.now.bytes }
    {
        &self.bytes[..self.count]
    }

    // Keeps one byte more, if there is room.
    pub fn keep(&mut self, byte: u8)
        ensures kept { take self.new.count self.new.bytes ≡ take ROOM (take self.old.count self.old.bytes ++ (byte ∷ [])) }
        ensures rest { drop self.new.count self.new.bytes ≡ drop 1 (drop self.old.count self.old.bytes) }
    {
        if self.count < ROOM {
            self.bytes[self.count] = byte;
            self.count += 1;
        }
    }

    // Prints the numbers of a line after the bytes that came.
    pub fn print(&mut self, printed: Printed)
        requires { self.old.count + 44 ≤ ROOM }
        ensures count_after { self.new.count ≡ self.old.count + length (numbers_text (numbers_of printed)) }
        ensures bytes_after { self.new.bytes ≡ overwrite self.old.bytes self.old.count (numbers_text (numbers_of printed)) }
    {
        self.count = print_numbers(&mut self.bytes, self.count, printed);
    }

    // Begins anew: all of the room is the rest.
    pub fn clear(&mut self)
        ensures room { self.new.bytes ≡ self.old.bytes }
        ensures none { self.new.count ≡ 0 }
    {
        self.count = 0;
    }
}
