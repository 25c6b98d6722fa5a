// The fields that the user information gives, and where its names stand in the PDU.
ghost use Rattle.std.specs.Prelude.{◌≡◌, ◌+◌, length};
ghost use Rattle.std.proofs.Common.{Fits};
ghost use Rattle.std.specs.Int.{w64};
ghost use Rattle.items.specs.Items.{walk};
ghost use Rattle.user_items.specs.Said.{count_said};
ghost use Rattle.reading.specs.Private.Records.{part_at};

// Where a name stands in the PDU, counted from its first byte, and how many bytes it has.
#[derive(Clone, Copy, Debug, Default, PartialEq, Eq)]
pub struct Part {
    pub at: usize,
    pub len: usize,
}

// The body of the first item of type t: u stands from place `from` on. An empty body is one too, so its items are counted: `first_of` and `place_of` answer where there is none.
#[tactic(auto, using(crate::proofs::UserLaws::at_laws))]
pub(crate) fn part_at(t: u8, from: usize, u: &[u8]) -> Option<Part>
    requires { Fits w64 (from + length u.now) }
    ensures { result ≡ part_at t from (walk u.now) }
{
    if items::count_of(t, u) == 0 {
        return None;
    }
    Some(Part {
        at: from + items::place_of(t, u),
        len: items::first_of(t, u).len(),
    })
}

// A count of the 53H, behind so many of its bytes; 1 where there is none.
#[tactic(auto, using(crate::proofs::UserLaws::count_laws))]
pub(crate) fn count_in(at: usize, u: &[u8]) -> u16
    ensures { result ≡ count_said at (walk u.now) }
{
    if items::count_of(0x53, u) == 0 {
        return 1;
    }
    octets::be16_at(items::first_of(0x53, u), at)
}
