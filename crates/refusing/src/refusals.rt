// What refuses an operation: one variant for each number that the desk hands back.
ghost use Rattle.std.specs.Prelude.{◌≡◌};
ghost use Rattle.refusing.specs.Told.{numbered};

// Why an operation is refused: "Numbers the desk hands back", each with its condition.
#[derive(Clone, Copy, Debug, PartialEq, Eq)]
pub enum Refusal {
    // delivery: "partition set lacks our own, or names one beyond the number opened"
    PartitionSet = 1,
    // delivery: "more than 8 keys read or more than 8 written"
    ManyKeys = 2,
    // delivery or read: "a key over 1,023"; delivery: "keys not strictly ascending"
    Key = 3,
    // delivery: "identity 0, or an identity now waiting"
    Identity = 4,
    // delivery or read: "st > SC"
    SnapshotAhead = 5,
    // delivery or read: "st < floor"
    SnapshotFolded = 6,
    // delivery: "32 already waiting"
    FullList = 7,
    // delivery: "DC is 4,000,000,000"
    LastDelivery = 8,
    // vote: "identity not waiting"
    NotWaiting = 9,
    // vote: "from our own partition, or one not involved"
    NotAsked = 10,
    // vote: "that partition has voted on it"
    HasVoted = 11,
    // change: "k over 31"
    Threshold = 12,
    // opening: "sizes outside the table"; any event: "state not sound"; either: "a lent table too short"; program: an event before opening, or a second opening
    Unusable = 13,
    // program: an unreadable line
    Unreadable = 14,
    // delivery, vote, change: "the lent finish list holds fewer than 32 entries"
    LittleRoom = 15,
}

impl Refusal {
    // "Every refusal returns its number alone"
    pub fn number(self) -> u32
        ensures { result ≡ numbered self }
    {
        self as u32
    }
}
