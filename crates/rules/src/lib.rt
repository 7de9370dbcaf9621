// The types that the rules and the code share. The rules themselves stand in specs/.
#![tactic(auto)]

ghost use Rattle.std.specs.Prelude.{◌≡◌};
ghost use Rattle.rules.specs.Checks.{number_of, place_of};

// A part of the bodies; a start counts from the first body byte.
#[derive(Clone, Copy, PartialEq, Eq)]
pub struct Place {
    pub start: u32,
    pub len: u32,
}

// ---- tokenizer.rs

#[derive(Clone, Copy, PartialEq, Eq)]
pub enum TokenKind {
    TypeSpecifier,
    Whitespace,
    String,
    Reserved,
    ReservedTopLevel,
    ReservedTopLevelNoIndent,
    ReservedNewline,
    ReservedNewlineAfter,
    Operator,
    OpenParen,
    CloseParen,
    LineComment,
    BlockComment,
    Number,
    Placeholder,
    Word,
    Join,
}

// A number that counts from nought.
#[derive(Clone, Copy)]
pub struct ZeroIndexed(pub u32);

// A number that counts from one.
#[derive(Clone, Copy)]
pub struct OneIndexed(pub u32);

// A key: a name, or a number.
#[derive(Clone, Copy)]
pub enum PlaceholderKind {
    Named(Place),
    Zero(ZeroIndexed),
    One(OneIndexed),
}

#[derive(Clone, Copy)]
pub struct Token {
    pub kind: TokenKind,
    pub value: Place,
    pub key: Option<PlaceholderKind>,
    pub create: bool,
}

// ---- lib.rs

#[derive(Clone, Copy)]
pub enum Indent {
    Spaces(u8),
    Tabs,
}

#[derive(Clone, Copy, PartialEq, Eq)]
pub enum Case {
    AsIs,
    Upper,
    Lower,
}

// Whether all goes on one line, but for a line feed after each line comment.
#[derive(Clone, Copy, PartialEq, Eq)]
pub enum Inline {
    Off,
    Comments,
}

#[derive(Clone, Copy)]
pub struct FormatOptions {
    pub indent: Indent,
    pub casing: Case,
    pub inline: Inline,
    pub lines_between_queries: u8,
    pub max_inline_block: u32,
    pub max_inline_arguments: Option<u32>,
    pub max_inline_top_level: Option<u32>,
}

#[derive(Clone, Copy)]
pub struct SpanInfo {
    pub full_span: u32,
    pub blocks: u16,
    pub newline_before: bool,
    pub newline_after: bool,
    pub arguments: u16,
}

// ---- indentation.rs

#[derive(Clone, Copy)]
pub enum IndentType {
    Top,
    Block,
    FoldedBlock,
}

// ---- formatter.rs

// What a token is to the reading ahead of a top-level word.
#[derive(Clone, Copy)]
pub enum Sort {
    Open,
    Close,
    Head,
    White,
    Semicolon,
    Comma,
    Other,
}

// The reading ahead of a top-level word, so far.
#[derive(Clone, Copy)]
pub struct Scan {
    pub level: u32,
    pub full_span: u32,
    pub blocks: u16,
    pub arguments: u16,
}

// How a token is taken: dropped after a switch comment; a switch comment, which switches off or on; laid out; copied.
#[derive(Clone, Copy, PartialEq, Eq)]
pub enum Turn {
    Dropped,
    Switches(bool),
    LaidOut,
    Copied,
}

// ---- inline_block.rs

// What a token is to the length of a block.
#[derive(Clone, Copy)]
pub enum Part {
    Top,
    Newline,
    Open,
    Close,
    Comment,
    Rest,
}

// A top-level word that waits for the next of its level: its level, and the length up to it.
#[derive(Clone, Copy)]
pub struct Start {
    pub level: u32,
    pub span: u32,
}

#[derive(Clone, Copy)]
pub struct BlockInfo {
    pub length: u32,
    pub level: u32,
    pub start: Option<Start>,
    pub top_level_token_span: u32,
    pub has_forbidden_tokens: bool,
    pub has_reserved_tokens: bool,
}

// ---- the sheet

// How many tokens, parameters, keep words and body bytes.
#[derive(Clone, Copy)]
pub struct Counts {
    pub tokens: usize,
    pub params: usize,
    pub keeps: usize,
    pub bytes: usize,
}

// ---- what is amiss

// What checks 1 to 4 find amiss in a sheet: each but the first with the byte of its first offence.
#[derive(Clone, Copy, PartialEq, Eq)]
pub enum Offence {
    Size,
    Word(usize),
    Place(usize),
    Byte(usize),
}

impl Offence {
    // The number of the refusal.
    pub fn number(self) -> u32
        ensures { result ≡ number_of self }
    {
        match self {
            Offence::Size => 1,
            Offence::Word(_) => 2,
            Offence::Place(_) => 3,
            Offence::Byte(_) => 4,
        }
    }

    // The byte of the sheet; nought for its size.
    pub fn place(self) -> usize
        ensures { result ≡ place_of self }
    {
        match self {
            Offence::Size => 0,
            Offence::Word(at) => at,
            Offence::Place(at) => at,
            Offence::Byte(at) => at,
        }
    }
}

// ---- answers in numbers

// The answer in numbers: a refusal's number and place, or 0, 0 and the text's length, lines and width.
#[repr(C)]
#[derive(Clone, Copy)]
pub struct Report {
    pub refusal: u32,
    pub place: u64,
    pub length: u64,
    pub lines: u64,
    pub width: u64,
}

// The answer of a call that lays nothing out: a refusal's number and place, or 0, 0 and a length.
#[repr(C)]
#[derive(Clone, Copy)]
pub struct Outcome {
    pub refusal: u32,
    pub place: u64,
    pub length: u64,
}
