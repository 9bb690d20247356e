// A plan, and the words that its counts admit.
ghost use Rattle.std.specs.Prelude.{◌≡◌, ◌≤◌, length};
ghost use Rattle.plan.specs.Plan.{whole_plan, added_words, added_signs, word_count, block_words, number_count, three_words};

// `levels` of each of the `k` base factors; `added` factors, each a word and a sign; `blocks` words that part the runs into blocks.
// Words are sets of base letters, bit 0 for A; but the block word of a three-level plan is a number to the base 3, its lowest digit for A.
// Places beyond the counts `added` and `blocks` are ignored. Each run is made `repeats` times.
// (Levels as a byte, words and signs beside each other and counts beside arrays stay: the calls take any such bytes, refusals 2 and 4 are of them,
// and the theorems of specs/ read these fields.)
#[derive(Clone, Copy)]
pub struct Plan {
    pub levels: u8,
    pub k: u8,
    pub added: u8,
    pub words: [u16; 6],
    pub signs: [u8; 6],
    pub blocks: u8,
    pub blockwords: [u16; 4],
    pub repeats: u8,
}

impl Plan {
    // The plan of base factors alone, with no added factors and no block words.
    pub fn whole(levels: u8, k: u8, repeats: u8) -> Plan
        ensures { result ≡ whole_plan levels k repeats }
    {
        Plan {
            levels,
            k,
            added: 0,
            words: [0; 6],
            signs: [0; 6],
            blocks: 0,
            blockwords: [0; 4],
            repeats,
        }
    }

    // The words of the added factors.
    pub fn added_words(&self) -> &[u16]
        ensures value { result.now ≡ added_words self.now }
        ensures few { length result.now ≤ 6 }
    {
        let n = (self.added as usize).min(6);
        &self.words[..n]
    }

    // Their signs.
    pub fn added_signs(&self) -> &[u8]
        ensures value { result.now ≡ added_signs self.now }
        ensures few { length result.now ≤ 6 }
    {
        let n = (self.added as usize).min(6);
        &self.signs[..n]
    }

    // How many block words are sets of letters.
    pub fn word_count(&self) -> usize
        ensures { result ≡ word_count self.now }
    {
        if self.levels != 3 {
            self.blocks as usize
        } else {
            0
        }
    }

    // The block words that are sets of letters.
    pub fn block_words(&self) -> &[u16]
        ensures value { result.now ≡ block_words self.now }
        ensures few { length result.now ≤ 4 }
    {
        let n = self.word_count().min(4);
        &self.blockwords[..n]
    }

    // How many are numbers to the base 3. (As `word_count`, each is the code of its definition.)
    fn number_count(&self) -> usize
        ensures { result ≡ number_count self.now }
    {
        if self.levels == 3 {
            self.blocks as usize
        } else {
            0
        }
    }

    // The block words that are numbers to the base 3.
    pub fn three_words(&self) -> &[u16]
        ensures value { result.now ≡ three_words self.now }
        ensures few { length result.now ≤ 4 }
    {
        let n = self.number_count().min(4);
        &self.blockwords[..n]
    }
}
