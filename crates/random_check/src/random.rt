// Random numbers from a seed, the same in every run.

#[derive(Drop)]
pub(crate) struct Random {
    state: u64,
}

impl Random {
    // The seed may not be 0.
    pub(crate) fn new(seed: u64) -> Random {
        Random { state: seed }
    }

    // Any number.
    pub(crate) fn number(&mut self) -> u32 {
        let mut state = self.state;
        state ^= state >> 12;
        state ^= state << 25;
        state ^= state >> 27;
        self.state = state;
        (state.wrapping_mul(0x2545_f491_4f6c_dd1d) >> 32) as u32
    }

    // A number below the bound; 0 if none is.
    pub(crate) fn below(&mut self, bound: u32) -> u32 {
        self.number() % bound.max(1)
    }

    // A number from `least` to `most`.
    pub(crate) fn between(&mut self, least: u32, most: u32) -> u32 {
        let many = most.saturating_sub(least).saturating_add(1);
        self.below(many).saturating_add(least)
    }

    // True so many times of a hundred.
    pub(crate) fn happens(&mut self, percent: u32) -> bool {
        self.below(100) < percent
    }
}
