// A set of IDs 0 to 255, a bit for each.
ghost use Rattle.std.specs.Prelude.{◌≡◌, not};
ghost use Rattle.id_set.specs.IdSet.{is_in, Empty, With};

use std::marker::Model;

// Contracts see its words.
#[derive(Clone, Copy, Debug, PartialEq, Eq)]
pub struct IdSet {
    words: [u64; 4],
}

impl Model for IdSet {
    ghost use Rattle.std.specs.Prelude.{ℕ, List};
    ghost use Rattle.id_set.specs.IdSet.{Words};

    ghost Value = { List ℕ };

    ghost view = { λ s. s.words };

    ghost invariant = { λ s. Words s.words };

    ghost inverse = { λ words. record { words = words } };
}

// The set that any four words are.
impl From<[u64; 4]> for IdSet {
    ghost use Rattle.std.specs.Prelude.{◌≡◌};

    ghost from_gives = { λ words set. set ≡ words };

    fn from(words: [u64; 4]) -> IdSet {
        IdSet { words }
    }
}

impl IdSet {
    // Its four words.
    pub fn words(&self) -> [u64; 4]
        ensures { result ≡ self.now }
    {
        let IdSet { words } = *self;
        words
    }

    #[tactic(auto, using(crate::proofs::SetLaws::empty_is))]
    pub fn empty() -> IdSet
        ensures { Empty result }
    {
        IdSet { words: [0; 4] }
    }

    #[tactic(auto, using(crate::proofs::SetLaws::has_is))]
    pub fn contains(&self, id: u8) -> bool
        ensures { result ≡ is_in id self.now }
    {
        (self.words[(id / 64) as usize] >> (id % 64)) & 1 == 1
    }

    // Puts the ID into the set, and answers whether it is new there.
    pub fn insert(&mut self, id: u8) -> bool
        ensures set { With self.old id self.new }
        ensures added { result ≡ not (is_in id self.old) }
    {
        let new = !self.contains(id);
        self.words[(id / 64) as usize] |= 1 << (id % 64);
        new
    }
}
