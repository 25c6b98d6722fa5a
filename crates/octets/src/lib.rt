// Numbers in bytes, high byte first, bytes compared, and bytes put at a place of a lent buffer.
#![tactic(auto)]

ghost use Rattle.std.specs.Prelude.{◌≡◌, ℕ, ◌+◌, ◌<◌, length, get_or};
ghost use Rattle.laws.specs.Lists.{same_bytes};
ghost use Rattle.octets.specs.Octets.{be16, be32, two, four};
ghost use Rattle.octets.specs.Put.{put as put_at, Placed};

// The byte at a place, 0 past the end.
pub fn byte_at(s: &[u8], at: usize) -> u8
    ensures { result ≡ get_or s.now at 0 }
{
    s.get(at).copied().unwrap_or(0)
}

// Whether two runs of bytes are the same. The last byte comes first, since names share their beginning.
#[tactic(auto, using(crate::proofs::OctetLaws::ends_differ))]
pub fn same_bytes(a: &[u8], b: &[u8]) -> bool
    ensures { result ≡ same_bytes a.now b.now }
{
    match (a, b) {
        ([.., x], [.., y]) if x != y => false,
        _ => a == b,
    }
}

// The N bytes from a place on; a byte past the end is 0.
fn bytes_at<const N: usize>(s: &[u8], at: usize) -> [u8; N]
    ensures { (k : ℕ) → k < N → get_or result k 0 ≡ get_or s.now (at + k) 0 }
{
    let mut bytes = [0; N];
    for (k, byte) in bytes.iter_mut().enumerate() {
        *byte = byte_at(s, at.saturating_add(k));
    }
    bytes
}

// The number in the two bytes from a place on; a byte past the end counts as 0.
#[tactic(auto, using(crate::proofs::OctetLaws::joined_16))]
pub fn be16_at(s: &[u8], at: usize) -> u16
    ensures { result ≡ be16 s.now at }
{
    u16::from_be_bytes(bytes_at::<2>(s, at))
}

// The number in the four bytes from a place on.
#[tactic(auto, using(crate::proofs::OctetLaws::joined_32))]
pub fn be32_at(s: &[u8], at: usize) -> u32
    ensures { result ≡ be32 s.now at }
{
    u32::from_be_bytes(bytes_at::<4>(s, at))
}

// A number as its two bytes. This and the next are one call of the library each, and share nothing else.
pub fn two_of(n: u16) -> [u8; 2]
    ensures { result ≡ two n }
{
    u16::to_be_bytes(n)
}

// A number as its four bytes.
pub fn four_of(n: u32) -> [u8; 4]
    ensures { result ≡ four n }
{
    u32::to_be_bytes(n)
}

// No copy_from_slice: it calls the C library's memmove, of which the archive asks nothing else.
#[tactic(auto, using(std::proofs::lemmas::Grind::same_number_lists))]
fn copy(to: &mut [u8], bytes: &[u8])
    requires { length bytes.now ≡ length to.old }
    ensures { to.new ≡ bytes.now }
{
    for (k, byte) in to.iter_mut().enumerate() {
        *byte = bytes[k];
    }
}

// Puts the bytes into the buffer from a place on and answers the place behind them; where they have no room nothing is written and the place is answered.
#[tactic(auto, using(crate::proofs::PutLaws::room))]
pub fn put(out: &mut [u8], at: usize, bytes: &[u8]) -> usize
    ensures { Placed out.old at bytes.now result out.new }
{
    if out.len() < at {
        return at;
    }
    if out.len() - at < bytes.len() {
        return at;
    }
    let end = at + bytes.len();
    copy(&mut out[at..end], bytes);
    end
}
