// What calls answer, in the numbers that cross to C: document 01's number and values for each case,
// by the definitions of specs/.
#![tactic(auto)]

ghost use Rattle.std.specs.Prelude.{◌≡◌};
ghost use Rattle.words.specs.Readings.{reading_kind};
ghost use Rattle.track.specs.Parts.{standing_number, verdict_number};
ghost use Rattle.answers.specs.Answers.{send_answer_of, block_answer_of, nothing_read};
ghost use Rattle.answers.specs.Answers.{read_answer_of, search_answer_of, step_answer_of};

use control::Went;
use recording::Met;
use refusals::Refusal;
use track::{Report, Standing, Verdict};
use words::Reading;

// Kind 0 is sent, 1 held and 2 refused; the number is that of the refusal, or 0.
#[repr(C)]
#[derive(Clone, Copy, Debug, PartialEq, Eq)]
pub struct SendAnswer {
    pub kind: u8,
    pub number: u8,
}

// A block's answer. Standing 0 is waiting, 1 read and 2 lost; verdict 0 is none, 1 good and 2 bad;
// reading 0 is a mended code, 1 an item, 2 a message word, 3 a forbidden item, 4 not followed, 5
// unreadable and 6 not read; the code is 0 for the last two.
#[repr(C)]
#[derive(Clone, Copy, Debug, PartialEq, Eq)]
pub struct BlockAnswer {
    pub standing: u8,
    pub verdict: u8,
    pub reading: u8,
    pub code: u8,
}

// Kind 0 is a block and 1 refused; the number is that of the refusal, or 0.
#[repr(C)]
#[derive(Clone, Copy, Debug, PartialEq, Eq)]
pub struct ReadAnswer {
    pub kind: u8,
    pub number: u8,
    pub block: BlockAnswer,
}

// The place found and number 0, or place 0 and the refusal's number. Reserved octets are 0, so that
// no octet of an answer is left unset.
#[repr(C)]
#[derive(Clone, Copy, Debug, PartialEq, Eq)]
pub struct SearchAnswer {
    pub place: usize,
    pub number: u8,
    pub reserved: [u8; 7],
}

// Kind 0 is a block, 1 a place, 2 the end and 3 refused; the value is the place found or the octets
// left, and 0 for the other two.
#[repr(C)]
#[derive(Clone, Copy, Debug, PartialEq, Eq)]
pub struct StepAnswer {
    pub value: usize,
    pub kind: u8,
    pub number: u8,
    pub block: BlockAnswer,
    pub reserved: [u8; 2],
}

// A sending call's answer.
impl From<Result<Went, Refusal>> for SendAnswer {
    ghost from_gives = { λ answer told. told ≡ send_answer_of answer };

    fn from(answer: Result<Went, Refusal>) -> SendAnswer {
        let (kind, number) = match answer {
            Ok(Went::Sent) => (0, 0),
            Ok(Went::Held) => (1, 0),
            Err(why) => (2, u8::from(why)),
        };
        SendAnswer { kind, number }
    }
}

fn standing_number(standing: Standing) -> u8
    ensures { result ≡ standing_number standing }
{
    match standing {
        Standing::Waiting => 0,
        Standing::Read => 1,
        Standing::Lost => 2,
    }
}

fn verdict_number(verdict: Verdict) -> u8
    ensures { result ≡ verdict_number verdict }
{
    match verdict {
        Verdict::None => 0,
        Verdict::Good => 1,
        Verdict::Bad => 2,
    }
}

fn reading_kind(reading: Reading) -> u8
    ensures { result ≡ reading_kind reading }
{
    match reading {
        Reading::Mended(_) => 0,
        Reading::Item(_) => 1,
        Reading::MessageWord(_) => 2,
        Reading::ForbiddenItem(_) => 3,
        Reading::NotFollowed(_) => 4,
        Reading::Unreadable => 5,
        Reading::NotRead => 6,
    }
}

// A block's answer.
impl From<Report> for BlockAnswer {
    ghost from_gives = { λ report told. told ≡ block_answer_of report };

    fn from(report: Report) -> BlockAnswer {
        BlockAnswer {
            standing: standing_number(report.standing),
            verdict: verdict_number(report.verdict),
            reading: reading_kind(report.reading),
            code: report.reading.code().unwrap_or(0),
        }
    }
}

impl BlockAnswer {
    // What an answer that is no block says of one: waiting, no verdict, not read. So a driver that
    // forgets to look at the kind follows no code.
    fn nothing() -> BlockAnswer
        ensures { result ≡ nothing_read }
    {
        BlockAnswer {
            standing: 0,
            verdict: 0,
            reading: 6,
            code: 0,
        }
    }
}

// A reading call's answer.
impl From<Result<Report, Refusal>> for ReadAnswer {
    ghost from_gives = { λ answer told. told ≡ read_answer_of answer };

    fn from(answer: Result<Report, Refusal>) -> ReadAnswer {
        match answer {
            Ok(report) => ReadAnswer {
                kind: 0,
                number: 0,
                block: BlockAnswer::from(report),
            },
            Err(why) => ReadAnswer {
                kind: 1,
                number: u8::from(why),
                block: BlockAnswer::nothing(),
            },
        }
    }
}

// A search's answer.
impl From<Result<usize, Refusal>> for SearchAnswer {
    ghost from_gives = { λ found told. told ≡ search_answer_of found };

    fn from(found: Result<usize, Refusal>) -> SearchAnswer {
        match found {
            Ok(place) => SearchAnswer {
                place,
                number: 0,
                reserved: [0; 7],
            },
            Err(why) => SearchAnswer {
                place: 0,
                number: u8::from(why),
                reserved: [0; 7],
            },
        }
    }
}

// The answer of a walk's step.
impl From<Result<Met, Refusal>> for StepAnswer {
    ghost from_gives = { λ answer told. told ≡ step_answer_of answer };

    fn from(answer: Result<Met, Refusal>) -> StepAnswer {
        let blank = StepAnswer {
            value: 0,
            kind: 0,
            number: 0,
            block: BlockAnswer::nothing(),
            reserved: [0; 2],
        };
        match answer {
            Ok(Met::Block(report)) => StepAnswer {
                block: BlockAnswer::from(report),
                ..blank
            },
            Ok(Met::Place(place)) => StepAnswer {
                value: place,
                kind: 1,
                ..blank
            },
            Ok(Met::End(left)) => StepAnswer {
                value: left,
                kind: 2,
                ..blank
            },
            Err(why) => StepAnswer {
                kind: 3,
                number: u8::from(why),
                ..blank
            },
        }
    }
}
