// What a call gives back in place of an answer: a refusal, which stands for a number, and where the bytes offend.
#![tactic(auto)]

ghost use Rattle.std.specs.Prelude.{◌≡◌, [], ◌∷◌};
ghost use Rattle.cdf_refusal.specs.Numbers.{number_of, number_in, count_in};
ghost use Rattle.cdf_refusal.specs.declared.Fault.{Fault};

// Each is the number that crosses to C.
#[derive(Clone, Copy, Debug, PartialEq, Eq)]
pub enum Refusal {
    // No unit is left.
    Ended = 1,
    // The place could not belong to these bytes.
    Place = 2,
    // Fewer bytes than a prefix.
    Short = 3,
    Mark = 4,
    Length = 5,
    UnknownId = 6,
    NotAdmitted = 7,
    Action = 8,
    OwnData = 9,
    Incomplete = 10,
    // The call has nothing to do here.
    NoUse = 11,
    // The lent buffer, list or log is too short.
    NoRoom = 12,
    // The stream would be longer than a stream may be.
    TooLong = 13,
    NoGroup = 14,
    NoValue = 15,
    // Nothing whole to rescue.
    NothingKept = 16,
    TooManyRuns = 17,
    TooManyTemplates = 18,
    DoubledTemplate = 19,
    NoTemplate = 20,
    TooManyRequests = 21,
    // A step that cannot be done at a place that does not fit: no call gives it.
    NoStep = 99,
}

impl Refusal {
    pub fn number(self) -> usize
        ensures { result ≡ number_of self }
    {
        self as usize
    }

    pub fn at(self, offset: usize) -> Fault
        ensures { result ≡ record { refusal = self; offset = offset } }
    {
        Fault {
            refusal: self,
            offset,
        }
    }
}

// A refusal, and the offset that goes with it.
#[derive(Clone, Copy, Debug, PartialEq, Eq)]
pub struct Fault {
    pub refusal: Refusal,
    pub offset: usize,
}

// A rule that is broken at the start of what was asked about.
impl From<Refusal> for Fault {
    ghost from_gives = { λ r f. f ≡ record { refusal = r; offset = 0 } };

    fn from(refusal: Refusal) -> Fault {
        Fault { refusal, offset: 0 }
    }
}

// What a program in C is told of a count: the number, and in `answer` the count, beside a refusal 0.
pub fn tell(count: Result<usize, Refusal>, answer: &mut [u64; 1]) -> u64
    ensures number { result ≡ number_in count }
    ensures answer { answer.new ≡ count_in count ∷ [] }
{
    *answer = [count.unwrap_or(0) as u64];
    match count {
        Ok(_) => 0,
        Err(refusal) => refusal.number() as u64,
    }
}
