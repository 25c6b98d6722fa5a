// Equality of titles: their outer spaces go, all that is left counts.
ghost use Rattle.std.specs.Prelude.{◌≡◌};
ghost use Rattle.titles.specs.Title.{trim, titles_equal};

fn trimmed(s: &[u8]) -> &[u8]
    ensures { result.now ≡ trim s.now }
{
    let mut t = s;
    while let [0x20, rest @ ..] = t {
        t = rest;
    }
    while let [rest @ .., 0x20] = t {
        t = rest;
    }
    t
}

// Whether two titles are equal after their leading and trailing spaces go.
#[tactic(auto, unfolding(crate::specs::Title::titles_equal))]
pub fn titles_equal(a: &[u8], b: &[u8]) -> bool
    ensures { result ≡ titles_equal a.now b.now }
{
    octets::same_bytes(trimmed(a), trimmed(b))
}
