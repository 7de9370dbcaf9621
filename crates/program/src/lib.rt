// What the programs share: an answer or its refusal, the reading of their input, and the system's words for a file that does not open.
#![tactic(auto)]

ghost use Rattle.std.specs.Prelude.{◌≡◌, Some, Option, take, IfOk, IfSome};
ghost use Rattle.program.specs.Refused.{refusal_from, or_refused};
ghost use Rattle.program.specs.Words.{refusal_words, Unnumbered};

use foreign::Judged;
use rules::{Outcome, Report};
use std::alloc::Allocator;
use std::fmt;
use std::io::{self, Read};

// ---- refusals

// The refusal's number, and the byte or the token of the sheet.
#[derive(Clone, Copy, Debug, PartialEq, Eq)]
pub struct Refusal {
    pub number: u32,
    pub place: u64,
}

impl fmt::Display for Refusal {
    ghost output = { λ r. Some (refusal_words r.number r.place) };

    fn fmt<W: fmt::Write>(&self, f: &mut fmt::Formatter<W>) -> fmt::Result {
        let number = self.number;
        let place = self.place;
        write!(f, "refused {number} at {place}")
    }
}

// Number 0 is no refusal.
fn refusal_from(number: u32, place: u64) -> Option<Refusal>
    ensures { result ≡ refusal_from number place }
{
    (number != 0).then_some(Refusal { number, place })
}

// The answer in numbers of a call.
pub trait Answer: Sized {
    ghost use Rattle.program.specs.declared.Refusal.{Refusal};

    ghost refusal_of: { Self → Option Refusal };

    fn refusal(&self) -> Option<Refusal>
        ensures { result ≡ refusal_of self.now };

    final fn or_refusal(self) -> Result<Self, Refusal>
    where
        Self: Drop,
        ensures { result ≡ or_refused (refusal_of self) self }
    {
        match self.refusal() {
            None => Ok(self),
            Some(refusal) => Err(refusal),
        }
    }
}

impl Answer for Report {
    ghost refusal_of = { λ r. refusal_from r.refusal r.place };

    fn refusal(&self) -> Option<Refusal> {
        let Report { refusal, place, .. } = *self;
        refusal_from(refusal, place)
    }
}

impl Answer for Outcome {
    ghost refusal_of = { λ r. refusal_from r.refusal r.place };

    fn refusal(&self) -> Option<Refusal> {
        let Outcome { refusal, place, .. } = *self;
        refusal_from(refusal, place)
    }
}

impl Answer for Judged {
    ghost refusal_of = { λ r. refusal_from r.refusal r.place };

    fn refusal(&self) -> Option<Refusal> {
        let Judged { refusal, place, .. } = *self;
        refusal_from(refusal, place)
    }
}

// ---- input

// The input's first 65,536 bytes: more than any sound sheet has, so that what is not read is refused by its length.
pub fn read_input<A: Allocator, R: Read + Drop>(alloc: A, from: R) -> io::Result<Vec<u8, A>>
    ensures { IfOk result (λ v. IfSome (R.remaining from) (λ xs. v.items ≡ take 65536 xs)) }
{
    let mut bytes = Vec::new(alloc);
    from.take(65536).read_to_end(&mut bytes)?;
    Ok(bytes)
}

// ---- files

// The system's own words, without the number that std puts after them.
pub fn system_words(told: &str) -> &str
    ensures { Unnumbered told.now result.now }
{
    match told.split_once(" (os error ") {
        Some((words, _)) => words,
        None => told,
    }
}

#[cfg(test)]
mod tests {
    use super::*;

    #[test]
    fn reads_all_of_a_short_input(rt: HostRuntime) -> io::Result<()> {
        let input: &[u8] = b"abc";
        let bytes = read_input(rt.alloc(), input)?;
        assert!(&rt; bytes.as_slice() == input);
        Ok(())
    }
}
