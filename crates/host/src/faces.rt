// What C is answered: numbers alone, in structs handed over by value. Each function computes the definition of its name in specs/Faces.antt (`told`: refusing's).
ghost use Rattle.std.specs.Prelude.{◌≡◌};
ghost use Rattle.refusing.specs.Told.{told};
ghost use Rattle.host.specs.Faces.{send_number, reason_told, place_told, taken_face, delivered_face, settled_face, reading_face, fed_face, flagged};

use engine::{Ballot, Reason, Refusal};

// `telvrang_delivered`: of a delivery.
#[repr(C)]
#[derive(Clone, Copy)]
pub struct DeliveredFace {
    pub refusal: u32,
    pub dc: u32,
    pub reason: u32,
    pub place: u32,
    pub send: u32,
    pub finishes: u32,
}

// `telvrang_settled`: of a vote, and of a threshold change.
#[repr(C)]
#[derive(Clone, Copy)]
pub struct SettledFace {
    pub refusal: u32,
    pub finishes: u32,
}

// `telvrang_reading`: of a read.
#[repr(C)]
#[derive(Clone, Copy)]
pub struct ReadingFace {
    pub value: i64,
    pub version: u32,
    pub refusal: u32,
}

// `telvrang_fed`: of a piece of a log.
#[repr(C)]
#[derive(Clone, Copy)]
pub struct FedFace {
    pub taken: usize,
    pub wrote: usize,
    pub full: u32,
    pub opened: u32,
    pub skipping: u32,
}

// A flag that C gives: 0 is no, anything else yes.
pub fn flagged(flag: u32) -> bool
    ensures { result ≡ flagged flag }
{
    flag != 0
}

// "the answer also tells the host which vote to send"
fn send_number(send: Option<Ballot>) -> u32
    ensures { result ≡ send_number send }
{
    match send {
        None => 0,
        Some(Ballot::Yes) => 1,
        Some(Ballot::No) => 2,
    }
}

fn reason_told(fate: Result<u32, Reason>) -> u32
    ensures { result ≡ reason_told fate }
{
    match fate {
        Ok(_) => 0,
        Err(reason) => reason.number(),
    }
}

fn place_told(fate: Result<u32, Reason>) -> u32
    ensures { result ≡ place_told fate }
{
    match fate {
        Ok(place) => place,
        Err(_) => 0,
    }
}

fn taken_face(taken: engine::Delivered) -> DeliveredFace
    ensures { result ≡ taken_face taken }
{
    DeliveredFace {
        refusal: 0,
        dc: taken.dc,
        reason: reason_told(taken.fate),
        place: place_told(taken.fate),
        send: send_number(taken.send),
        finishes: taken.finishes,
    }
}

pub fn delivered_face(answer: Result<engine::Delivered, Refusal>) -> DeliveredFace
    ensures { result ≡ delivered_face answer }
{
    match answer {
        Ok(taken) => taken_face(taken),
        Err(refusal) => DeliveredFace {
            refusal: refusal.number(),
            dc: 0,
            reason: 0,
            place: 0,
            send: 0,
            finishes: 0,
        },
    }
}

pub fn settled_face(answer: Result<u32, Refusal>) -> SettledFace
    ensures { result ≡ settled_face answer }
{
    match answer {
        Ok(finishes) => SettledFace {
            refusal: 0,
            finishes,
        },
        Err(refusal) => SettledFace {
            refusal: refusal.number(),
            finishes: 0,
        },
    }
}

// An opening has nothing to say but its refusal.
pub fn told(answer: Result<(), Refusal>) -> u32
    ensures { result ≡ told answer }
{
    match answer {
        Ok(()) => 0,
        Err(refusal) => refusal.number(),
    }
}

pub fn reading_face(answer: engine::Reading) -> ReadingFace
    ensures { result ≡ reading_face answer }
{
    match answer {
        engine::Reading::Value(value, version) => ReadingFace {
            value,
            version,
            refusal: 0,
        },
        engine::Reading::Refused(refusal) => ReadingFace {
            value: 0,
            version: 0,
            refusal: refusal.number(),
        },
    }
}

pub fn fed_face(fed: feed::Fed) -> FedFace
    ensures { result ≡ fed_face fed }
{
    FedFace {
        taken: fed.taken,
        wrote: fed.wrote,
        full: u32::from(fed.full),
        opened: u32::from(fed.standing.opened),
        skipping: u32::from(fed.standing.skipping),
    }
}
