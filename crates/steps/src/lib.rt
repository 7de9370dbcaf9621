// A column goes on by a byte, in eight bits: the byte's code is set in it, and it goes on by one. A tab's code is the three lowest
// bits, so that the next multiple of eight comes; a line feed's is all bits, so that the sum wraps to 0.
#![tactic(auto)]

ghost use Rattle.std.specs.Prelude.{◌≡◌, ◌+◌, ◌*◌, ◌≤◌, length, slice_index};
ghost use Rattle.steps.specs.Steps.{code_of, on_by, feed_of, Below, Mapped, Coded};

use side::side_by_side;

// ---- one byte

fn code(b: u8) -> u8
    ensures { result ≡ code_of b }
{
    if b == 10 {
        return 255;
    }
    if b == 9 { 7 } else { 0 }
}

pub fn on(at: u8, x: u8) -> u8
    ensures { result ≡ on_by at x }
{
    (at | x).wrapping_add(1)
}

pub fn feed(x: u8) -> u8
    ensures { (result ≡ feed_of x) × (result ≤ 1) }
{
    u8::from(x == 255)
}

// ---- arrays

pub fn codes(t: &mut [u8])
    requires { length t.old ≡ 128 }
    ensures { Mapped 128 (λ k x. code_of x) t.old t.new }
{
    for x in t.iter_mut() {
        *x = code(*x);
    }
}

// The codes of eight bytes of sixteen parts, side by side. In line, as `sixteen_on` of `narrow`.
#[inline(always)]
#[tactic(auto, using(crate::proofs::StepLaws::coded_all))]
pub fn coded(text: &[u8], start: usize, far: usize) -> [u8; 128]
    requires { start + 15 * far + 8 ≤ length text.now }
    ensures { Coded text.now start far result }
{
    let mut t: [u8; 128] = [0; 128];
    side_by_side(&mut t, text, start, far);
    codes(&mut t);
    t
}

pub fn add(to: &mut [u16; 16], n: &[u8; 16])
    requires { Below to.old 65280 }
    ensures { Mapped 16 (λ k x. x + slice_index n.now k) to.old to.new }
{
    for k in 0..16 {
        to[k] += u16::from(n[k]);
    }
}
