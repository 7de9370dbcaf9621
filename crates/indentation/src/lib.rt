// indentation.rs: the stacks of indent kinds, spans and previous words, by value.
#![tactic(auto)]

ghost use Rattle.std.specs.Prelude.{if◌then◌else◌, ◌≡◌, false, ◌+◌, ◌-◌, ◌≤◌, ◌<◌, eqb};
ghost use Rattle.rules.specs.Indentation.{is_single, no_indentation, indent_level, increase_top_level, increase_block_level, decrease_top_level, decrease_block_level, set_previous_reserved, set_previous_top_level, previous_top_level_reserved, span as span_of};
ghost use Rattle.rules.specs.Base.{when, full};
ghost use Rattle.indentation.specs.Of.{indentation_of, types_of, ends_top, kind_for, word_of, marks_of, top_span, top_of, reserved_after, top_level_after, last_of, Clean, Stands, StandsClosed};

use rules::SpanInfo;
use stacks::chosen;

// What is asked of the last top-level word's span, and the last reserved word: its token's number and one more, 0 where there is none.
// Marks: 0 where there is no top-level word, else 1, one more where its span is single, two more where it has a newline after.
// Flat numbers: an array of them has no gaps, so it is filled and copied as bytes; the fewer they are, the less is copied.
#[derive(Clone, Copy)]
pub struct Previous {
    pub full_span: u32,
    pub word: u16,
    pub marks: u16,
}

// Neither a top-level word nor a reserved one.
const NO_PREVIOUS: Previous = Previous {
    full_span: 0,
    word: 0,
    marks: 0,
};

// Kinds, as numbers: the customer asks for flat arrays of numbers.
const TOP: u8 = 0;

const BLOCK: u8 = 1;

const FOLDED_BLOCK: u8 = 2;

// Entries above the counts are zero. The level is the count of entries that aren't folded.
// An operation takes out the arrays that it changes, each as a local of its own, and branches on numbers alone: so no other array is copied.
// Stores into the fields take 1.4 times as long, and under an `if` with the counts 1.3 to 2 times.
#[derive(Clone, Copy)]
pub struct Indentation {
    pub kinds: [u8; 128],
    pub nkinds: usize,
    pub spans: [u32; 128],
    pub nspans: usize,
    pub previous: [Previous; 129],
    pub nprevious: usize,
    pub level: usize,
}

// Whether the block was folded, and what is left.
#[derive(Drop)]
pub struct Closed {
    pub folded: bool,
    pub left: Indentation,
}

// ---- numbers

#[tactic(auto, unfolding(crate::specs::Of::kind_for))]
fn block_kind(folded: bool) -> u8
    ensures { result ≡ kind_for folded }
{
    if folded { FOLDED_BLOCK } else { BLOCK }
}

// The first reserved word stays.
fn first_word(n: usize, word: u16, token: u16) -> u16
    requires { token < 65535 }
    ensures { result ≡ (if eqb n 0 then token + 1 else word) }
{
    if n == 0 { token + 1 } else { word }
}

fn reserved_after(last: Previous, token: u16) -> Previous
    requires { token < 65535 }
    ensures { result ≡ reserved_after last token }
{
    Previous {
        word: token + 1,
        ..last
    }
}

#[tactic(auto, using(crate::proofs::Laws::by_single), unfolding(rules::specs::Indentation::is_single))]
fn is_single(span: SpanInfo) -> bool
    ensures { result ≡ is_single span }
{
    span.blocks <= 2 && span.arguments == 1
}

#[tactic(auto, using(crate::proofs::Laws::by_marks))]
fn marks_of(single: bool, after: bool) -> u16
    ensures { result ≡ marks_of single after }
{
    1 + u16::from(single) + 2 * u16::from(after)
}

fn top_level_after(word: u16, span: SpanInfo) -> Previous
    ensures { result ≡ top_level_after word span }
{
    Previous {
        full_span: span.full_span,
        word,
        marks: marks_of(is_single(span), span.newline_after),
    }
}

impl Previous {
    #[tactic(auto, using(crate::proofs::Laws::by_token))]
    pub fn reserved(self) -> Option<u16>
        ensures { result ≡ word_of self.word }
    {
        self.word.checked_sub(1)
    }

    #[tactic(auto, using(crate::proofs::Laws::by_told), unfolding(crate::specs::Of::top_of))]
    pub fn top_level_reserved(self) -> Option<SpanInfo>
        ensures { result ≡ top_of self.marks (top_span self) }
    {
        let m = self.marks;
        if m == 0 {
            return None;
        }
        Some(SpanInfo {
            full_span: self.full_span,
            blocks: 0,
            newline_before: false,
            newline_after: 2 < m,
            arguments: u16::from(m % 2 == 0),
        })
    }
}

impl Indentation {
    #[tactic(auto, using(crate::proofs::Laws::by_new))]
    pub fn new() -> Self
        ensures { Stands no_indentation result }
    {
        Self {
            kinds: [0; 128],
            nkinds: 0,
            spans: [0; 128],
            nspans: 0,
            previous: [NO_PREVIOUS; 129],
            nprevious: 0,
            level: 0,
        }
    }

    pub fn reset_indentation(self) -> Self
        ensures { Stands no_indentation result }
    {
        Self::new()
    }

    // Where b holds. A full stack stays. The entry's kind, TOP, stands above the count.
    #[tactic(auto, using(crate::proofs::Laws::by_room))]
    pub fn increase_top_level_if(mut self, b: bool, span: SpanInfo) -> Self
        requires { Clean self }
        ensures { Stands (when b (increase_top_level span) (indentation_of self)) result }
    {
        let grows = b && self.nkinds < 128;
        let at = self.nspans.min(127);
        let mut spans = self.spans;
        let old = spans[at];
        spans[at] = chosen(grows, span.full_span, old);
        self.spans = spans;
        let more = usize::from(grows);
        self.nspans += more;
        self.nkinds += more;
        self.level += more;
        self
    }

    // A full stack stays. The block's previous words, none, stand above the count.
    #[tactic(auto, using(crate::proofs::Laws::by_room))]
    pub fn increase_block_level(mut self, folded: bool) -> Self
        requires { Clean self }
        ensures { Stands (increase_block_level folded (indentation_of self)) result }
    {
        let grows = self.nkinds < 128;
        let at = self.nkinds.min(127);
        let kind = block_kind(folded);
        let mut kinds = self.kinds;
        let old = kinds[at];
        kinds[at] = chosen(grows, kind, old);
        self.kinds = kinds;
        let more = usize::from(grows);
        self.nkinds += more;
        self.nprevious += more;
        self.level += usize::from(grows && kind == BLOCK);
        self
    }

    // The top entry is a top-level one.
    #[tactic(auto, using(crate::proofs::Laws::by_ends, crate::proofs::Laws::by_no_ends))]
    fn ends_top(self) -> bool
        requires { Clean self }
        ensures { result ≡ ends_top (types_of self) }
    {
        let n = self.nkinds;
        let kinds = self.kinds;
        0 < n && kinds[n - 1] == TOP
    }

    // Where b holds. A previous word goes too, though `increase_top_level` pushes none.
    pub fn decrease_top_level_if(mut self, b: bool) -> Self
        requires { Clean self }
        ensures { Stands (when b decrease_top_level (indentation_of self)) result }
    {
        let ends = b && self.ends_top();
        let s = self.nspans.saturating_sub(1);
        let mut spans = self.spans;
        let old = spans[s];
        spans[s] = chosen(ends, 0, old);
        self.spans = spans;
        let p = self.nprevious.saturating_sub(1);
        let mut previous = self.previous;
        let last = previous[p];
        previous[p] = chosen(ends, NO_PREVIOUS, last);
        self.previous = previous;
        let fewer = usize::from(ends);
        self.nspans = self.nspans.saturating_sub(fewer);
        self.nprevious = self.nprevious.saturating_sub(fewer);
        self.nkinds = self.nkinds.saturating_sub(fewer);
        self.level = self.level.saturating_sub(fewer);
        self
    }

    // Top-level entries go, each as `decrease_top_level` has it go, and then the block with a previous word.
    pub fn decrease_block_level(mut self) -> Closed
        requires { Clean self }
        ensures { StandsClosed (decrease_block_level (indentation_of self)) result }
    {
        let mut kinds = self.kinds;
        let mut spans = self.spans;
        let mut previous = self.previous;
        let mut n = self.nkinds;
        let mut s = self.nspans;
        let mut p = self.nprevious;
        let mut level = self.level;
        // A `while`: three stacks go down together, and two of them may be at nought before it ends.
        while 0 < n && kinds[n - 1] == TOP {
            n -= 1;
            s = s.saturating_sub(1);
            p = p.saturating_sub(1);
            level = level.saturating_sub(1);
            spans[s] = 0;
            previous[p] = NO_PREVIOUS;
        }
        let to = p.saturating_sub(usize::from(0 < n));
        let k = n.saturating_sub(1);
        let kind = kinds[k];
        kinds[k] = 0;
        previous[to] = NO_PREVIOUS;
        self.kinds = kinds;
        self.nkinds = k;
        self.spans = spans;
        self.nspans = s;
        self.previous = previous;
        self.nprevious = to;
        self.level = level.saturating_sub(usize::from(kind == BLOCK));
        Closed {
            folded: kind == FOLDED_BLOCK,
            left: self,
        }
    }

    pub fn set_previous_reserved(mut self, token: u16) -> Self
        requires clean { Clean self }
        requires token_bound { token < 65535 }
        ensures { Stands (set_previous_reserved token (indentation_of self)) result }
    {
        let at = self.nprevious.saturating_sub(1);
        let mut previous = self.previous;
        let last = previous[at];
        previous[at] = reserved_after(last, token);
        self.previous = previous;
        self.nprevious = at + 1;
        self
    }

    pub fn set_previous_top_level(mut self, token: u16, span: SpanInfo) -> Self
        requires clean { Clean self }
        requires token_bound { token < 65535 }
        ensures { Stands (set_previous_top_level token span (indentation_of self)) result }
    {
        let at = self.nprevious.saturating_sub(1);
        let mut previous = self.previous;
        let last = previous[at];
        let word = first_word(self.nprevious, last.word, token);
        previous[at] = top_level_after(word, span);
        self.previous = previous;
        self.nprevious = at + 1;
        self
    }

    // The last previous words: those above none are none.
    #[tactic(auto, using(crate::proofs::Laws::by_last))]
    pub fn previous_words(self) -> Previous
        requires { Clean self }
        ensures { result ≡ last_of self }
    {
        let previous = self.previous;
        previous[self.nprevious.saturating_sub(1)]
    }

    #[tactic(auto, using(crate::proofs::Laws::by_top_level))]
    pub fn previous_top_level_reserved(self) -> Option<SpanInfo>
        requires { Clean self }
        ensures { result ≡ previous_top_level_reserved (indentation_of self) }
    {
        self.previous_words().top_level_reserved()
    }

    #[tactic(auto, using(crate::proofs::Laws::by_span))]
    pub fn span(self) -> u32
        requires { Clean self }
        ensures { result ≡ span_of (indentation_of self) }
    {
        self.spans[..self.nspans].last().copied().unwrap_or(0)
    }

    #[tactic(auto, using(crate::proofs::Laws::by_full))]
    pub fn is_full(self) -> bool
        requires { Clean self }
        ensures { result ≡ full (indentation_of self).indent_types }
    {
        128 <= self.nkinds
    }

    // The level that `increase_block_level` leads to: a handler has it before the arrays change.
    #[tactic(auto, using(crate::proofs::Laws::by_room))]
    pub fn level_into(self, folded: bool) -> usize
        requires { Clean self }
        ensures { (result ≡ indent_level false (increase_block_level folded (indentation_of self))) × (result ≤ 128) }
    {
        self.level + usize::from(!folded && !self.is_full())
    }

    pub fn indent_level(self, folded: bool) -> usize
        requires { Clean self }
        ensures { (result ≡ indent_level folded (indentation_of self)) × (result ≤ 128) }
    {
        self.level.saturating_sub(usize::from(folded))
    }
}
