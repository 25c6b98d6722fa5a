// The window on a piece of the input: what was read and is not used yet. Fixed memory: std's BufReader allocates, and its lock on standard input reads a pipe byte by byte.
ghost use Rattle.std.specs.Prelude.{◌≤◌, length};

use std::io::Read;

// The most bytes that one read brings.
const PIECE: usize = 4096;

// From `at` to `end` the piece is not used yet.
#[derive(Drop)]
pub(crate) struct Window {
    piece: [u8; PIECE],
    at: usize,
    end: usize,
    ghost ordered: { at ≤ end },
    ghost within: { end ≤ length piece },
}

// How many bytes of a piece a read brings. One that fails ends the input. replay has this line too: two programs, and no library between them.
fn brought(input: &mut impl Read, piece: &mut [u8]) -> usize
    ensures { result ≤ length piece.new }
{
    input.read(piece).unwrap_or(0)
}

impl Window {
    ghost use Rattle.std.specs.Prelude.{◌≡◌, ◌<◌, nat_eq, [], drop};
    ghost use Rattle.listen.specs.Window.{rest_of};

    // Before the first read.
    pub(crate) fn new() -> Window
        ensures { rest_of result ≡ [] }
    {
        Window {
            piece: [0; PIECE],
            at: 0,
            end: 0,
        }
    }

    // Reads the next piece where all of the last one is used, and offers it from its first byte on; whether the input has ended. Which bytes a read brings no contract can say.
    pub(crate) fn fill(&mut self, input: &mut impl Read) -> bool
        ensures kept { 0 < length (rest_of self.old) → self.new ≡ self.old }
        ensures starts { rest_of self.old ≡ [] → self.new.at ≡ 0 }
        ensures ends { result ≡ nat_eq (length (rest_of self.new)) 0 }
    {
        if self.at < self.end {
            return false;
        }
        let end = brought(input, &mut self.piece);
        self.at = 0;
        self.end = end;
        end == 0
    }

    pub(crate) fn rest(&self) -> &[u8]
        ensures { result.now ≡ rest_of self.now }
    {
        &self.piece[self.at..self.end]
    }

    // Passes the bytes used; all, where they are said to be more than there are.
    pub(crate) fn consume(&mut self, used: usize)
        ensures { rest_of self.new ≡ drop used (rest_of self.old) }
    {
        self.at += used.min(self.end - self.at);
    }
}
