// The maximum length in the user information.
ghost use Rattle.std.specs.Prelude.{◌≡◌};
ghost use Rattle.contents.specs.Contents.{maximum_in};

// The maximum length that the items of an RQ or an AC give; what is missing counts as 0.
#[tactic(auto, unfolding(crate::specs::Contents::maximum_in))]
pub fn maximum_in(s: &[u8]) -> u32
    ensures { result ≡ maximum_in s.now }
{
    let user = items::first_of(0x50, s);
    let maximum = items::first_of(0x51, user);
    octets::be32_at(maximum, 0)
}
