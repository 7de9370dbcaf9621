// A word of a sheet written over four bytes of a list.
#![tactic(auto)]

ghost use Rattle.std.specs.Prelude.{◌≡◌, ◌+◌, ◌≤◌, length};
ghost use Rattle.rules.specs.Words.{word_bytes};
ghost use Rattle.text.specs.Put.{put};

// Lowest byte first.
#[tactic(auto, unfolding(text::specs::Put::put))]
pub fn put_word(out: &mut [u8], at: usize, w: u32)
    requires { at + 4 ≤ length out.old }
    ensures { out.new ≡ put out.old at (word_bytes w) }
{
    out[at..at + 4].copy_from_slice(&w.to_le_bytes());
}
