// What a text from another formatter is to a sheet (Wish 13): the types alone. What is said of it is a definition over the rules, in specs/, and a theorem, in proofs/.
#![tactic(auto)]

ghost use Rattle.std.specs.Prelude.{◌≡◌};

use rules::Offence;

// It is what is due; or it is not, from a token on.
#[derive(Clone, Copy, PartialEq, Eq)]
pub enum Verdict {
    Yes,
    No(usize),
}

// Why there is none: the sheet's first offence; a placeholder laid out whose number counts from one and is nought, by its token; a byte of the text of 128 or more.
#[derive(Clone, Copy, PartialEq, Eq)]
pub enum Refusal {
    Sheet(Offence),
    Number(usize),
    High(usize),
}

impl From<Offence> for Refusal {
    ghost use Rattle.foreign.specs.declared.Refusal.TheVariants.{Sheet};

    ghost from_gives = { λ o r. r ≡ Sheet o };

    fn from(offence: Offence) -> Self {
        Refusal::Sheet(offence)
    }
}

impl Refusal {
    ghost use Rattle.foreign.specs.Foreign.{number_of, place_of};

    pub fn number(self) -> u32
        ensures { result ≡ number_of self }
    {
        match self {
            Refusal::Sheet(offence) => offence.number(),
            Refusal::Number(_) => 5,
            Refusal::High(_) => 15,
        }
    }

    pub fn place(self) -> usize
        ensures { result ≡ place_of self }
    {
        match self {
            Refusal::Sheet(offence) => offence.place(),
            Refusal::Number(token) => token,
            Refusal::High(at) => at,
        }
    }
}

// The verdict in numbers: a refusal's number and place; else 0, 0, and 1 for yes, or 0 for no and the token.
#[repr(C)]
#[derive(Clone, Copy)]
pub struct Judged {
    pub refusal: u32,
    pub place: u64,
    pub matches: u32,
    pub token: u64,
}

impl From<Result<Verdict, Refusal>> for Judged {
    ghost use Rattle.foreign.specs.Foreign.{judged_of};

    ghost from_gives = { λ v r. r ≡ judged_of v };

    #[tactic(auto, unfolding(crate::specs::Foreign::judged_of))]
    fn from(verdict: Result<Verdict, Refusal>) -> Self {
        let nothing = Judged {
            refusal: 0,
            place: 0,
            matches: 0,
            token: 0,
        };
        match verdict {
            Ok(Verdict::Yes) => Judged {
                matches: 1,
                ..nothing
            },
            Ok(Verdict::No(token)) => Judged {
                token: token as u64,
                ..nothing
            },
            Err(refusal) => Judged {
                refusal: refusal.number(),
                place: refusal.place() as u64,
                ..nothing
            },
        }
    }
}
