// The nearest word so far. One above the limit stands for none, and no Option: the margin counts from that
// number where no other word is within the limit, as its definition does.
ghost use Rattle.std.specs.Prelude.{◌≡◌, ◌≤◌};
ghost use Rattle.repair.specs.Search.{none_found, best_with};

#[derive(Clone, Copy)]
pub(crate) struct Best {
    pub word: u64,
    // Its disagreements, or one above the limit where no word within it was found.
    pub fewest: u32,
    // The fewest of the other words, or one above the limit where no other within it was found.
    pub next: u32,
}

impl Best {
    // No word was found.
    pub(crate) fn none_found(limit: u32) -> Best
        requires { limit ≤ 12 }
        ensures { result ≡ none_found limit }
    {
        Best {
            word: 0,
            fewest: limit + 1,
            next: limit + 1,
        }
    }

    // The record with one word more.
    pub(crate) fn with_word(self, word: u64, disagreements: u32) -> Best
        ensures { result ≡ best_with self word disagreements }
    {
        if disagreements < self.fewest {
            Best {
                word,
                fewest: disagreements,
                next: self.fewest,
            }
        } else if disagreements < self.next {
            Best {
                next: disagreements,
                ..self
            }
        } else {
            self
        }
    }
}
