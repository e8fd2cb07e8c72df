// Set-up with flat structs, for callers in C and Rust: the message due by its number, and the answer without enums.
#![tactic(auto)]

ghost use Rattle.std.specs.Prelude.{◌≡◌};
ghost use Rattle.c_setup.specs.FlatSetup.{due_of, bare_setup, with_opening, with_diagnosis, flat_of, flat_setup};

use setup::{Answer, Arguments, Due, Settings};

// What an answer says: no enum, as the numbers are C's (fordlinnet.h).
const UNKNOWN: u32 = 0;

const REFUSED: u32 = 1;

const ANSWERED: u32 = 12;

// The last of the messages due.
const CONFIRM: u32 = 3;

// The message to send (its count of bytes, and zeros behind), an open's arguments where `opens`, a diagnosis where `declined`.
#[repr(C)]
#[derive(Clone, Copy)]
pub struct SetupAnswer {
    pub said: u32,
    pub refusal: u32,
    pub opens: bool,
    pub declined: bool,
    pub diagnosis: u32,
    pub count: usize,
    pub arguments: Arguments,
    pub message: [u8; 188],
}

// The message due of a number; any other than those of a message is nothing.
fn due_of(k: u32) -> Option<Due>
    ensures { result ≡ due_of k }
{
    match k {
        1 => Some(Due::Proposal),
        2 => Some(Due::Accept),
        3 => Some(Due::Confirm),
        _ => None,
    }
}

// An answer that names at most a refusal, beside the message.
fn bare(said: u32, refusal: u32, count: usize, message: [u8; 188]) -> SetupAnswer
    ensures { result ≡ bare_setup said refusal count message }
{
    SetupAnswer {
        said,
        refusal,
        opens: false,
        declined: false,
        diagnosis: 0,
        count,
        arguments: Arguments::default(),
        message,
    }
}

fn with_opening(opening: Option<Arguments>, f: SetupAnswer) -> SetupAnswer
    ensures { result ≡ with_opening opening f }
{
    let mut a = f;
    if let Some(given) = opening {
        a.opens = true;
        a.arguments = given;
    }
    a
}

fn with_diagnosis(diagnosis: Option<u32>, f: SetupAnswer) -> SetupAnswer
    ensures { result ≡ with_diagnosis diagnosis f }
{
    let mut a = f;
    if let Some(d) = diagnosis {
        a.declined = true;
        a.diagnosis = d;
    }
    a
}

// The answer, flat.
impl From<Answer> for SetupAnswer {
    ghost from_gives = { λ a f. f ≡ flat_of a };

    fn from(a: Answer) -> SetupAnswer {
        let message = a.message;
        match a.outcome {
            Err(refusal) => bare(REFUSED, u8::from(refusal) as u32, a.count, message),
            Ok(answered) => with_diagnosis(
                answered.diagnosis,
                with_opening(answered.opening, bare(ANSWERED, 0, a.count, message)),
            ),
        }
    }
}

// Set-up, with the message due by its number.
pub fn setup(settings: Settings, due: u32, bytes: &[u8]) -> SetupAnswer
    ensures { result ≡ flat_setup settings due bytes.now }
{
    if CONFIRM < due {
        return bare(UNKNOWN, 0, 0, [0u8; 188]);
    }
    SetupAnswer::from(setup::setup(settings, due_of(due), bytes))
}
