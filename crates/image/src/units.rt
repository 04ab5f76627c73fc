// The units' words in order: a list of at most 2,048, in fixed memory.
ghost use Rattle.std.specs.Prelude.{◌≡◌, ℕ, ◌<◌, ◌≤◌, List, [], ◌∷◌, ◌++◌, length, take};
ghost use Rattle.laws.specs.Listed.{slots};

use std::marker::Model;

#[derive(Drop)]
pub(crate) struct Units {
    count: usize,
    words: [u32; 2048],
}

// Past the list the words are 0.
impl Model for Units {
    ghost Value = { List ℕ };

    ghost view = { λ u. take u.count u.words };

    ghost invariant = { λ u. (u.count ≤ 2_048) × (u.words ≡ slots 2_048 (take u.count u.words)) };
}

impl Units {
    pub(crate) fn new() -> Units
        ensures { result ≡ [] }
    {
        Units {
            count: 0,
            words: [0; 2048],
        }
    }

    pub(crate) fn len(&self) -> usize
        ensures { result ≡ length self.now }
    {
        self.count
    }

    #[tactic(auto, using(crate::proofs::Lists::below, crate::proofs::Lists::one_more, crate::proofs::Lists::stored))]
    pub(crate) fn push(&mut self, word: u32)
        requires { length self.old < 2_048 }
        ensures { self.new ≡ self.old ++ word ∷ [] }
    {
        self.words[self.count] = word;
        self.count += 1;
    }

    pub(crate) fn into_array(self) -> [u32; 2048]
        ensures { result ≡ slots 2_048 self }
    {
        self.words
    }
}
