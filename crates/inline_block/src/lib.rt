// inline_block.rs: the open inline blocks by value. What a block holds is read ahead, in another crate.
#![tactic(auto)]

ghost use Rattle.std.specs.Prelude.{◌≡◌, true, ◌<◌};
ghost use mathlib.Core.List.{[], tail};
ghost use Rattle.rules.specs.InlineBlock.{is_active, cur_len, begin_if_possible};
ghost use Rattle.inline_block.specs.Of.{inline_block_of, Clean, Stands};

use stacks::chosen;

// The lengths of the open inline blocks, the innermost last; entries above the level are zero.
// An operation takes the array out as a local of its own, and branches on numbers alone (crate stacks).
#[derive(Clone, Copy)]
pub struct InlineBlock {
    pub lengths: [u32; 128],
    pub level: usize,
}

impl InlineBlock {
    #[tactic(auto, using(crate::proofs::Laws::by_new))]
    pub fn new() -> Self
        ensures { Stands [] result }
    {
        Self {
            lengths: [0; 128],
            level: 0,
        }
    }

    // There is room for one more: an open inline block has its entry on the indent stack, which is not full.
    pub fn begin_if_possible(mut self, begins: bool, length: u32) -> Self
        requires clean { Clean self }
        requires level_bound { begins ≡ true → self.level < 128 }
        ensures { Stands (begin_if_possible begins length (inline_block_of self)) result }
    {
        let at = self.level.min(127);
        let mut lengths = self.lengths;
        let old = lengths[at];
        lengths[at] = chosen(begins, length, old);
        self.lengths = lengths;
        self.level += usize::from(begins);
        self
    }

    pub fn end(mut self) -> Self
        requires { Clean self }
        ensures { Stands (tail (inline_block_of self)) result }
    {
        let at = self.level.saturating_sub(1);
        let mut lengths = self.lengths;
        lengths[at] = 0;
        self.lengths = lengths;
        self.level = at;
        self
    }

    #[tactic(auto, using(crate::proofs::Laws::by_active))]
    pub fn is_active(self) -> bool
        ensures { result ≡ is_active (inline_block_of self) }
    {
        0 < self.level
    }

    #[tactic(auto, using(crate::proofs::Laws::by_cur))]
    pub fn cur_len(self) -> u32
        requires { Clean self }
        ensures { result ≡ cur_len (inline_block_of self) }
    {
        self.lengths[..self.level].last().copied().unwrap_or(0)
    }
}
