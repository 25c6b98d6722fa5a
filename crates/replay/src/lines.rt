// Lines of standard input, which is read in large pieces. Fixed memory: std's BufReader allocates, and its lock on standard input reads a pipe byte by byte.
use std::io::Read;

// The longest line that is a call.
const LINE: usize = 480000;

// How many bytes are read at a time.
const READ: usize = 65536;

// A line without its newline: how many of the bytes it has, or None for a line longer than LINE.
#[derive(Drop)]
pub(crate) struct Line {
    bytes: [u8; LINE],
    len: Option<usize>,
}

impl Line {
    pub(crate) fn new() -> Line {
        Line {
            bytes: [0; LINE],
            len: Some(0),
        }
    }

    // Puts bytes behind the line's, and answers how many it then has.
    fn put(&mut self, bytes: &[u8]) -> Option<usize> {
        let len = self.len?;
        let end = len.checked_add(bytes.len())?;
        self.bytes.get_mut(len..end)?.copy_from_slice(bytes);
        Some(end)
    }

    // The line, where it is no longer than LINE.
    pub(crate) fn bytes(&mut self) -> Option<&mut [u8]> {
        let len = self.len?;
        self.bytes.get_mut(..len)
    }
}

// The input, and what was read of it: from `at` to `end` it is not taken yet.
#[derive(Drop)]
pub(crate) struct Lines<R: Read + Drop> {
    input: R,
    read: [u8; READ],
    at: usize,
    end: usize,
}

impl<R: Read + Drop> Lines<R> {
    pub(crate) fn new(input: R) -> Lines<R> {
        Lines {
            input,
            read: [0; READ],
            at: 0,
            end: 0,
        }
    }

    // What was read and not taken yet, or what one more read brings where there is nothing left. A read that fails ends the input.
    fn left(&mut self) -> &[u8] {
        if self.end <= self.at {
            self.at = 0;
            self.end = self.input.read(&mut self.read).unwrap_or(0);
        }
        self.read.get(self.at..self.end).unwrap_or(&[])
    }

    // Takes the next line, and answers whether there was one. The last one's newline may be missing.
    pub(crate) fn next(&mut self, line: &mut Line) -> bool {
        line.len = Some(0);
        for _ in 0..u64::MAX {
            let left = self.left();
            if left.is_empty() {
                return line.len != Some(0);
            }
            match left.iter().position(|b| *b == b'\n') {
                Some(end) => {
                    line.len = line.put(&left[..end]);
                    self.at = self.at.saturating_add(end).saturating_add(1);
                    return true;
                }
                None => {
                    line.len = line.put(left);
                    self.at = self.end;
                }
            }
        }
        false
    }
}
