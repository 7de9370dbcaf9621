// Two heads: the default one, and the Rust's.
#![tactic(auto)]

ghost use Rattle.std.specs.Prelude.{◌≡◌, length};
ghost use Rattle.head.specs.Head.{head_with, default_head, rust_head, head_written, head_returned};

// What the heads share: all but word 11. Only the bytes that are not zero in both are stored after the clearing.
fn head_with(out: &mut [u8], top_level: u32) -> usize
    ensures value { result ≡ head_returned (length out.old) }
    ensures out_after { out.new ≡ head_written (head_with top_level) (length out.old) }
{
    out.fill(0);
    if out.len() < 48 {
        return 0;
    }
    out[20] = 2;
    out[32] = 1;
    out[36] = 50;
    out[40..44].copy_from_slice(&u32::MAX.to_le_bytes());
    out[44..48].copy_from_slice(&top_level.to_le_bytes());
    48
}

// `max_inline_top_level` is 60, as most stations set it (Wish 8).
pub fn default_head(out: &mut [u8]) -> usize
    ensures value { result ≡ head_returned (length out.old) }
    ensures out_after { out.new ≡ head_written default_head (length out.old) }
{
    head_with(out, 60)
}

// `max_inline_top_level` is None, as in the Rust's own defaults.
pub fn rust_head(out: &mut [u8]) -> usize
    ensures value { result ≡ head_returned (length out.old) }
    ensures out_after { out.new ≡ head_written rust_head (length out.old) }
{
    head_with(out, u32::MAX)
}
