// Buffers that a call is lent, of any length up to their room. Fixed memory: each has its room from the start.

// The most bytes of a gather buffer or an output, and of a sheet.
pub(crate) const BUFFER: usize = 17000;

pub(crate) const SHEET: usize = 66000;

// What stands in each before a call.
pub(crate) const IN_GATHER: u8 = 0xA5;

pub(crate) const IN_OUTPUT: u8 = 0x5A;

pub(crate) const IN_SHEET: u8 = 0xC3;

// A prime below 2^32.
const MODULUS: u64 = 4294967291;

// The first `len` bytes are lent, all where there are fewer.
#[derive(Drop)]
pub(crate) struct Buffer<const ROOM: usize> {
    bytes: [u8; ROOM],
    len: usize,
}

impl<const ROOM: usize> Buffer<ROOM> {
    // A buffer of bytes b.
    pub(crate) fn new(b: u8, len: usize) -> Buffer<ROOM> {
        Buffer {
            bytes: [b; ROOM],
            len,
        }
    }

    // Sets the buffer to bytes b, and its front to the bytes given, if it has room for them.
    pub(crate) fn set(&mut self, b: u8, len: usize, front: &[u8]) {
        self.len = len;
        self.bytes.fill(b);
        if let Some(start) = self.bytes.get_mut(..front.len()) {
            start.copy_from_slice(front);
        }
    }

    pub(crate) fn lend(&mut self) -> &mut [u8] {
        let len = self.len.min(ROOM);
        &mut self.bytes[..len]
    }

    // The digest of what is lent.
    pub(crate) fn digest(&self) -> u64 {
        let mixed = |h: u32, b: &u8| ((u64::from(h) * 257 + u64::from(*b) + 1) % MODULUS) as u32;
        u64::from(self.bytes.iter().take(self.len).fold(1, mixed))
    }
}
