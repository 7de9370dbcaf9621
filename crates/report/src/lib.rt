// The end of a layout: the text is trimmed at both ends, and its lines and width are counted.
#![tactic(auto)]

ghost use Rattle.std.specs.Prelude.{◌≡◌, ◌+◌, ◌^◌, ◌≤◌, ◌<◌, length, take, drop};
ghost use Rattle.rules.specs.Text.{is_white, trim_start, trimmed, change, bytes_in};
ghost use Rattle.ascii.specs.Part.{part};
ghost use Rattle.text.specs.Put.{put};
ghost use Rattle.text.specs.Held.{text_of, Held, Laid, bytes_of};
ghost use Rattle.report.specs.Finished.{finished};

use ascii::is_white;
use lines::lines_width;
use text::{Text, fill, trim_all_spaces_end};

// `end` is the length before the start is trimmed.
#[derive(Drop)]
pub struct Finished {
    pub fault: u32,
    pub end: usize,
    pub len: usize,
    pub lines: usize,
    pub width: usize,
}

// ---- the trim at the start

fn white_start(text: &[u8], len: usize) -> usize
    requires { len ≤ length text.now }
    ensures { (result ≤ len) × (drop result (take len text.now) ≡ trim_start is_white (take len text.now)) }
{
    let mut i = 0;
    while i < len {
        if !is_white(text[i]) {
            return i;
        }
        i += 1;
    }
    i
}

// In place, from the front: a byte is read before it is written over.
fn move_down(text: &mut [u8], from: usize, n: usize)
    requires { from + n ≤ length text.old }
    ensures { text.new ≡ put text.old 0 (part text.old from n) }
{
    let mut i = 0;
    while i < n {
        text[i] = text[from + i];
        i += 1;
    }
}

fn trim_start(text: &mut [u8], t: Text) -> Text
    requires { Held t text.old }
    ensures { Laid (length text.old) (change (trim_start is_white) (text_of t text.old)) result text.new }
{
    let len = t.len;
    let from = white_start(text, len);
    if from == 0 {
        return Text {
            len,
            floor: 0,
            low: 0,
            fault: t.fault,
        };
    }
    let left = len - from;
    move_down(text, from, left);
    fill(text, left, 0, from);
    Text {
        len: left,
        floor: 0,
        low: 0,
        fault: t.fault,
    }
}

// ---- the whole

// Eight columns for each byte must fit in 64 bits: `sheet-short` of the rules says that every sheet's text is shorter.
pub fn finish(text: &mut [u8], t: Text) -> Finished
    requires held { Held t text.old }
    requires text_len_bound { length (trimmed (bytes_in (text_of t text.old))) < 2 ^ 60 }
    ensures value { result ≡ finished (text_of t text.old) }
    ensures text_after { text.new ≡ bytes_of (length text.old) (change trimmed (text_of t text.old)) }
{
    // At the end nothing is held, and nobody asks how low it was cut.
    let loose = Text {
        len: t.len,
        floor: 0,
        low: 0,
        fault: t.fault,
    };
    let cut = trim_all_spaces_end(text, loose);
    let end = cut.len;
    let done = trim_start(text, cut);
    let len = done.len;
    let size = lines_width(text, len);
    Finished {
        fault: done.fault,
        end,
        len,
        lines: size.lines,
        width: size.width,
    }
}
