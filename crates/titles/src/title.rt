// A title as an RQ carries it.
ghost use Rattle.std.specs.Prelude.{◌≡◌};
ghost use Rattle.laws.specs.Lists.{all};
ghost use Rattle.titles.specs.Title.{space, title_byte, title_ok};

fn of_title_bytes(t: &[u8]) -> bool
    ensures { result ≡ all title_byte t.now }
{
    t.iter().all(|b| matches!(*b, 0x20..=0x7E) && *b != 0x5C)
}

fn blank(t: &[u8]) -> bool
    ensures { result ≡ all space t.now }
{
    t.iter().all(|b| *b == 0x20)
}

// Whether t may stand as a title in an RQ.
#[tactic(auto, unfolding(crate::specs::Title::title_ok))]
pub fn title_ok(t: &[u8]) -> bool
    ensures { result ≡ title_ok t.now }
{
    t.len() == numbers::TITLE && of_title_bytes(t) && !blank(t)
}
