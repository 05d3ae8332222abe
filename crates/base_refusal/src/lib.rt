// Why a call is refused: document 01's refusals 1 to 18, each under a name, and the record of the sheet that one is told at.
#![tactic(auto)]

ghost use Rattle.std.specs.Prelude.{◌≡◌, Some, None};
ghost use Rattle.base_refusal.specs.Refusal.{number_of, refusal};

#[derive(Clone, Copy, Debug, PartialEq, Eq)]
pub enum Reason {
    // 1: a record cut short or of a wrong length, places that are not used and not 0, or something left over.
    BadLength,
    // 2: a kind that is unknown or out of place.
    BadKind,
    // 3: a head outside its ranges.
    BadHead,
    // 4: a queue that is none, or is read before it is defined.
    BadQueue,
    // 5: a queue that is defined or used twice, or never defined.
    QueueNotOnce,
    // 6: a variable that is none or is not taken, or a cursor that another operator names.
    BadVariable,
    // 7: a function or a field that is none, or a place of a step that is not used and not 0.
    BadStep,
    // 8: a store, a state or a feed outside its ranges.
    BadState,
    // 9: a queue that the call is not for.
    WrongQueue,
    // 10: no item in the queue.
    EmptyQueue,
    // 11: the gather waits for another queue.
    Waits,
    // 12: a queue without room.
    FullQueue,
    // 13: a sheet that is not calm.
    NotCalm,
    // 14: no such operator, or not 2 to 4 ways.
    NoOperator,
    // 15: an operator that is no line, or that no line follows.
    NoLine,
    // 16: a sheet that the rewriting would make too large.
    TooLarge,
    // 17: a step or a field that the rewriting forbids.
    Forbidden,
    // 18: a buffer that is too short, or an input that is too long.
    TooShort,
}

impl From<Reason> for u8 {
    ghost from_gives = { λ reason number. number ≡ number_of reason };

    fn from(reason: Reason) -> u8 {
        match reason {
            Reason::BadLength => 1,
            Reason::BadKind => 2,
            Reason::BadHead => 3,
            Reason::BadQueue => 4,
            Reason::QueueNotOnce => 5,
            Reason::BadVariable => 6,
            Reason::BadStep => 7,
            Reason::BadState => 8,
            Reason::WrongQueue => 9,
            Reason::EmptyQueue => 10,
            Reason::Waits => 11,
            Reason::FullQueue => 12,
            Reason::NotCalm => 13,
            Reason::NoOperator => 14,
            Reason::NoLine => 15,
            Reason::TooLarge => 16,
            Reason::Forbidden => 17,
            Reason::TooShort => 18,
        }
    }
}

// A reason, and the record of the sheet where it was found, if one is told.
#[derive(Clone, Copy, Debug, PartialEq, Eq)]
pub struct Refusal {
    pub reason: Reason,
    pub spot: Option<usize>,
}

impl Reason {
    // The refusal that names the record.
    pub fn at(self, spot: usize) -> Refusal
        ensures { result ≡ refusal self (Some spot) }
    {
        Refusal {
            reason: self,
            spot: Some(spot),
        }
    }
}

impl From<Reason> for Refusal {
    ghost from_gives = { λ reason r. r ≡ refusal reason None };

    fn from(reason: Reason) -> Refusal {
        Refusal { reason, spot: None }
    }
}
