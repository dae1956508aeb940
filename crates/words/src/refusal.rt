// Why operations refuse: the numbers of the scope paper, 1 to 14, and of the change requests behind them.
ghost use Rattle.std.specs.Prelude.{◌≡◌};
ghost use Rattle.words.specs.Numbers.{number};

// Each refusal, with its number.
#[derive(Clone, Copy, PartialEq, Eq)]
pub enum Refusal {
    // no group of that number in the table
    UnknownGroup = 1,
    // n or t outside its range
    OutOfRange = 2,
    // bytes or a list of another length
    BadLength = 3,
    // a record, set, table or link of another form
    BadForm = 4,
    // a record that is not above the one before
    OutOfOrder = 5,
    // a number that is no element, or a key that is 1
    NoElement = 6,
    // a number not below q, or a secret key that is 0
    NoExponent = 7,
    // a dealer or member outside 1 to n, or no quorum
    NoMember = 8,
    // the product of the degree check is not 1
    DegreeFails = 9,
    // an equation of a proof, or its challenge, fails
    ProofFails = 10,
    // an opening that is not right
    WrongOpening = 11,
    // a key or a line is missing
    Incomplete = 12,
    // a stuck dealing, and too few added shares
    StillStuck = 13,
    // fewer than t accepted dealings
    TooFew = 14,
    // a radius that is not 10 or 15
    BadRadius = 15,
    // N or k outside its range
    BadCount = 16,
    // a record of another round
    OtherRound = 17,
    // a link whose digest is not the one worked out
    WrongDigest = 18,
    // a link whose round is not the next
    NotNext = 19,
    // p or q of a table that is not as it must be
    NotPrime = 20,
    // g or h of a table that is not as it must be
    NoGenerator = 21,
    // two equal keys
    SameKey = 22,
}

impl From<Refusal> for u32 {
    ghost from_gives = { λ refusal k. k ≡ number refusal };

    fn from(refusal: Refusal) -> u32 {
        refusal as u32
    }
}
