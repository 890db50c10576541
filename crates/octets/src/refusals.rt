// Why a call is refused: document 01's sixteen reasons, each with its number. A call tests its reasons in document 01's order, and ends at the first that
// holds.
ghost use Rattle.std.specs.Prelude.{◌≡◌, cond, Err, Ok};
ghost use Rattle.octets.specs.Refusals.{number_of, status_of};

#[derive(Clone, Copy, Debug, PartialEq, Eq)]
pub enum Refusal {
    // the frame is empty, over 255 bytes, or not as long as its type and count say
    Length = 1,
    // the type is unknown, or not one that the call wants
    WrongType = 2,
    Checksum = 3,
    // a field or an argument breaks its rule, or a beacon's delays add up to too much
    Field = 4,
    // the output buffer is shorter than what would be written
    Room = 5,
    // the sender, or the unit to forget, is this unit
    Own = 6,
    // the event is not allowed in this state
    Event = 7,
    // the time is earlier than the last accepted one
    Earlier = 8,
    // the link is too weak
    Quality = 9,
    // the frame has no relay left, and is not for us
    Ttl = 10,
    NoRoute = 11,
    // every row of the book is live
    Full = 12,
    // no live member, or the manager where it may not be
    NoMember = 13,
    // what was handed in is out of rule
    Rule = 14,
    Network = 15,
    // a beacon that is not ours to forward
    NotOurs = 16,
}

impl Refusal {
    pub fn number(self) -> u8
        ensures { result ≡ number_of self }
    {
        self as u8
    }
}

// Refuses for this reason where it holds.
pub fn refuse_if(holds: bool, reason: Refusal) -> Result<(), Refusal>
    ensures { result ≡ cond holds (Err reason) (Ok tt) }
{
    if holds { Err(reason) } else { Ok(()) }
}

// What a caller from C is told: 0, or the number of the reason.
pub fn status(answer: Result<(), Refusal>) -> u8
    ensures { result ≡ status_of answer }
{
    match answer {
        Ok(()) => 0,
        Err(refusal) => refusal.number(),
    }
}
