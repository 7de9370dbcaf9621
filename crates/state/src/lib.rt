// The layout state: a value that each step takes and hands back.
#![tactic(auto)]

ghost use Rattle.std.specs.Prelude.{◌≡◌, ◌<◌};
ghost use Rattle.state.specs.Of.{Known, value_in, with_text, with_indentation};

use indentation::Indentation;
use inline_block::InlineBlock;
use query::Value;
use rules::{Counts, FormatOptions};
use text::Text;
use tokens::to_usize;

#[derive(Clone, Copy)]
pub struct State {
    pub text: Text,
    pub indentation: Indentation,
    pub inline_block: InlineBlock,
    pub block_level: u32,
    pub index: u32,
}

// What is the same for the whole sheet; base is the offset of the first body byte.
#[derive(Clone, Copy)]
pub struct Context {
    pub counts: Counts,
    pub base: usize,
    pub options: FormatOptions,
}

pub fn value_of(sheet: &[u8], x: Context, i: usize) -> Value
    requires { (Known sheet.now x) × (i < x.counts.tokens) }
    ensures { result ≡ value_in sheet.now x i }
{
    let p = tokens::value_at(sheet, i);
    Value {
        start: x.base + to_usize(p.start),
        len: to_usize(p.len),
    }
}

impl State {
    pub fn with_text(mut self, t: Text) -> Self
        ensures { result ≡ with_text self t }
    {
        self.text = t;
        self
    }

    pub fn with_indentation(mut self, t: Text, i: Indentation) -> Self
        ensures { result ≡ with_indentation self t i }
    {
        self.text = t;
        self.indentation = i;
        self
    }
}
