// The operations' answers as figures.
ghost use Rattle.std.specs.Prelude.{◌≡◌};
ghost use Rattle.words.specs.Lists.{map};
ghost use Rattle.tadlovimpe.specs.Figures.{number_of, answer_of, verdict_of};

use crate::{Answer, VerdictFigures};
use group::Element;
use verdicts::{Secret, Verdict};
use words::Refusal;

// The number of a refusal, 0 where there is none.
pub(crate) fn number_of(a: Result<(), Refusal>) -> u32
    ensures { result ≡ number_of a }
{
    match a {
        Ok(()) => 0,
        Err(refusal) => u32::from(refusal),
    }
}

impl From<Result<Element, Refusal>> for Answer {
    ghost from_gives = { λ a figures. figures ≡ answer_of a };

    fn from(a: Result<Element, Refusal>) -> Answer {
        match a {
            Ok(v) => Answer {
                refusal: 0,
                value: v.0,
            },
            Err(refusal) => Answer {
                refusal: u32::from(refusal),
                value: 0,
            },
        }
    }
}

impl From<Verdict> for VerdictFigures {
    ghost from_gives = { λ v figures. figures ≡ verdict_of v };

    fn from(v: Verdict) -> VerdictFigures {
        let (kind, value) = match v {
            Verdict::None => (0, 0),
            Verdict::Refused(refusal) => (1, u32::from(refusal)),
            Verdict::Accepted(Secret::Opened(x)) => (2, x.0),
            Verdict::Accepted(Secret::Recovered(x)) => (3, x.0),
            Verdict::Accepted(Secret::Stuck) => (4, 0),
        };
        VerdictFigures { kind, value }
    }
}

// By reference, and into one array: std's `map` of an array would copy both once more on the stack.
pub(crate) fn verdicts_of(places: &[Verdict; 31]) -> [VerdictFigures; 31]
    ensures { result ≡ map verdict_of places.now }
{
    let mut figures = [VerdictFigures { kind: 0, value: 0 }; 31];
    for i in 0..31 {
        figures[i] = VerdictFigures::from(places[i]);
    }
    figures
}
