// What a single field may be: a number within its limit, a dash, a vote's letter, a snapshot, a key with its value.
ghost use Rattle.std.specs.Prelude.{◌≡◌};
ghost use Rattle.rules.specs.Bytes.{number};
ghost use Rattle.rules.specs.Records.{a_ballot, a_snapshot};
ghost use Rattle.rules.specs.Records as text;
ghost use Rattle.laws.specs.Options.{given};
ghost use Rattle.records.specs.Said.{ballot_said, snapshot_said};

use masks::Ballot;
use numerals::read_number;

// "Field limits: partition set, partition number and partition count 255; key and k 65,535; st and identity 4,294,967,295"
pub const BYTE: u32 = 255;

pub const KEY: u32 = 65_535;

pub const WORD: u32 = 4_294_967_295;

// A number within a field's limit.
#[tactic(auto, using(numerals::specs::Answers::value_within))]
pub fn read_field(s: &[u8], limit: u32) -> Option<u32>
    ensures { result ≡ given (number limit s.now) }
{
    let v = read_number(s, u64::from(limit))?;
    Some(v as u32)
}

// "`-` for an empty list", and for SC.
#[tactic(auto, using(crate::specs::Fields::dashes))]
pub fn is_dash(s: &[u8]) -> bool
    ensures { result ≡ text.is_dash s.now }
{
    matches!(s, [b'-'])
}

// "Y or N"
#[tactic(auto, using(crate::specs::Fields::ballots))]
pub fn read_ballot(s: &[u8]) -> Option<Ballot>
    ensures { ballot_said result ≡ a_ballot s.now }
{
    match s {
        [b'Y'] => Some(Ballot::Yes),
        [b'N'] => Some(Ballot::No),
        _ => None,
    }
}

// "st (`-` means SC)": none is SC.
#[tactic(auto, using(laws::specs::Options::given_some, laws::specs::Options::given_none), unfolding(rules::specs::Records::a_snapshot))]
pub fn read_snapshot(s: &[u8]) -> Option<Option<u32>>
    ensures { snapshot_said result ≡ a_snapshot s.now }
{
    if is_dash(s) {
        return Some(None);
    }
    let st = read_field(s, WORD)?;
    Some(Some(st))
}
