// Marks on numbers under 32,768, a bit for each: marking a run takes the same time however long it is, and so does asking how many marks stand before a number.
#![tactic(auto)]

ghost use Rattle.std.specs.Prelude.{◌≡◌, ◌&&◌, ◌||◌, ℕ, ◌+◌, ◌-◌, ◌*◌, ◌^◌, ◌≤◌, ◌<◌, leb, ltb, length};
ghost use Rattle.marks.specs.Marks.{bit_at, bit_of, marked, count_of, Long, Counted};

// ---- one word

// n bits from bit `from` on.
fn run(from: usize, n: usize) -> u32
    requires { from + n ≤ 32 }
    ensures { result ≡ (2 ^ n - 1) * 2 ^ from }
{
    (((1_usize << n) - 1) << from) as u32
}

// How many of the first n bits are set.
#[tactic(auto, using(crate::proofs::CountLaws::masks))]
fn ones(w: u32, n: usize) -> usize
    requires { n ≤ 32 }
    ensures value { result ≡ count_of (bit_at w) n }
    ensures bound { result ≤ n }
{
    (w & run(0, n)).count_ones() as usize
}

// The bits of the numbers below `reach`, in the word whose first number is `first`.
#[tactic(auto, using(crate::proofs::BitLaws::reach_bits))]
fn reached(reach: usize, first: usize) -> u32
    ensures { (i : ℕ) → i < 32 → bit_at result i ≡ ltb (first + i) reach }
{
    run(0, reach.saturating_sub(first).min(32))
}

// ---- marking

// The bits of the run in its first word; where it goes further, its end.
#[tactic(auto, using(crate::proofs::MarkLaws::marking))]
pub fn mark(bits: &mut [u32], far: &mut [u32], start: usize, len: usize)
    requires long { Long bits.old far.old }
    requires len_bound { start + len ≤ 32768 }
    ensures long_2 { Long bits.new far.new }
    ensures by_index { (j : ℕ) → j < 32768 → marked bits.new far.new j ≡ (marked bits.old far.old j || (leb start j && ltb j (start + len))) }
{
    if len == 0 {
        return;
    }
    let word = start / 32;
    let from = start % 32;
    if from + len <= 32 {
        bits[word] |= run(from, len);
        return;
    }
    let end = start + len;
    bits[word] |= run(from, 32 - from);
    far[word] = far[word].max(end as u32);
}

// Every mark becomes a bit, and the marks before each word are counted; gives the number of all.
#[tactic(auto, using(crate::proofs::SettleLaws::settles))]
pub fn settle(bits: &mut [u32], far: &[u32], before: &mut [u32]) -> usize
    requires long { Long bits.old far.now }
    requires before_len { length before.old ≡ 1024 }
    ensures counted { Counted bits.new before.new }
    ensures by_index { (j : ℕ) → j < 32768 → bit_of bits.new j ≡ marked bits.old far.now j }
    ensures value { result ≡ count_of (bit_of bits.new) 32768 }
{
    let mut count = 0;
    let mut reach = 0;
    for k in 0..1024 {
        let word = bits[k] | reached(reach, 32 * k);
        let next = count + ones(word, 32);
        bits[k] = word;
        before[k] = count as u32;
        count = next;
        reach = reach.max(far[k] as usize);
    }
    count
}

// ---- asking

#[tactic(auto, unfolding(crate::specs::Marks::bit_at))]
pub fn is_marked(bits: &[u32], j: usize) -> bool
    requires bits_len { length bits.now ≡ 1024 }
    requires j_bound { j < 32768 }
    ensures { result ≡ bit_of bits.now j }
{
    (bits[j / 32] >> (j % 32)) % 2 == 1
}

// How many marks stand before a number.
#[tactic(auto, using(crate::proofs::CountLaws::counted_before))]
pub fn marks_before(bits: &[u32], before: &[u32], j: usize) -> usize
    requires counted { Counted bits.now before.now }
    requires j_bound { j < 32768 }
    ensures { result ≡ count_of (bit_of bits.now) j }
{
    let k = j / 32;
    before[k] as usize + ones(bits[k], j % 32)
}
