// A record as 16 bytes and back, and what is stored and told of an answer.
ghost use Rattle.std.specs.Prelude.{◌≡◌};
ghost use Rattle.assoc_bytes.specs.Bytes.{bytes_of, assoc_of};
ghost use Rattle.assoc_bytes.specs.Handed.{Stored};

use association::{Answer, Assoc, Told};

// Functions, and no `From`: record and bytes are both another crate's, where no impl may stand.

// A record as its bytes, its numbers low byte first, as x86-64 has them.
pub fn bytes_of(a: Assoc) -> [u8; 16]
    ensures { result ≡ bytes_of a }
{
    let p = a.peer_max.to_le_bytes();
    let g = a.gathered.to_le_bytes();
    [
        a.state,
        u8::from(a.deaf),
        u8::from(a.artim),
        u8::from(a.requestor),
        p[0],
        p[1],
        p[2],
        p[3],
        g[0],
        g[1],
        g[2],
        g[3],
        g[4],
        g[5],
        g[6],
        g[7],
    ]
}

// The record that the bytes say.
pub fn assoc_of(s: [u8; 16]) -> Assoc
    ensures { result ≡ assoc_of s }
{
    Assoc {
        state: s[0],
        deaf: s[1] != 0,
        artim: s[2] != 0,
        requestor: s[3] != 0,
        peer_max: u32::from_le_bytes([s[4], s[5], s[6], s[7]]),
        gathered: usize::from_le_bytes([s[8], s[9], s[10], s[11], s[12], s[13], s[14], s[15]]),
    }
}

// Hands an answer out: its numbers, and its record in bytes, but nothing of a record where the call is refused. The refusal is answered.
// An answer has its refusal as a number, and this function takes any: its clause `Stored` speaks of each.
#[tactic(auto, unfolding(crate::specs::Handed::stored_of))]
pub fn hand_out(r: Answer, assoc: &mut [u8; 16], answer: &mut [usize; 4]) -> u8
    ensures { Stored assoc.old r result answer.new assoc.new }
{
    let Told {
        refusal,
        action,
        used,
        sent,
        shown,
    } = r.told;
    *answer = [usize::from(action), used, sent, shown];
    if refusal == numbers::NOT_REFUSED {
        *assoc = bytes_of(r.assoc);
    }
    refusal
}
