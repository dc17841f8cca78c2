// Sets of partitions and votes: each stands in a table as a word of 32 bits, and is worked on as a mask of 8, one bit a partition.
#![tactic(auto)]

ghost use Rattle.std.specs.Prelude.{ℕ, ◌<◌, ◌≤◌, not, ◌≡◌, eqb};
ghost use Rattle.rules.specs.Partitions.{names, with_partition, only, bad_set, other, outstanding, any_outstanding, every_vote_yes, from_others};

// One of the partitions that a set can name.
#[derive(Clone, Copy)]
pub struct Partition {
    pub number: u32,
    pub ghost below_8: { number < 8 },
}

// A vote: yes or no.
#[derive(Clone, Copy, Debug, PartialEq, Eq)]
pub enum Ballot {
    Yes,
    No,
}

// The votes on an entry, one bit a partition: who is involved, which partition is our own, who said yes and who said no.
#[derive(Clone, Copy)]
pub struct Votes {
    pub involved: u8,
    pub own: Partition,
    pub ayes: u8,
    pub nays: u8,
}

// "a set of partitions (one bit each)": partition p is in the set.
#[tactic(auto, using(crate::specs::Operations::names_shifted, crate::specs::Operations::names_outside_word))]
pub fn has(set: u32, p: u32) -> bool
    ensures { result ≡ names set p }
{
    p < 32 && (set >> p) % 2 == 1
}

// Partition p is one of "the involved partitions, less our own".
#[tactic(auto, using(crate::specs::Sets::own_is_no_other, crate::specs::Sets::other_is_named))]
pub fn is_other(set: u32, own: u32, p: u32) -> bool
    ensures { result ≡ other own set p }
{
    p != own && has(set, p)
}

// The set with partition p in it too.
#[tactic(auto, using(crate::specs::Sets::with_shift))]
pub fn with(set: u8, p: Partition) -> u8
    ensures { result ≡ with_partition p.number set }
{
    set | (1u8 << p.number)
}

// "partition set lacks our own, or names one beyond the number opened"
#[tactic(auto, using(crate::specs::Sets::lacks_own, crate::specs::Sets::beyond_shift))]
pub fn is_bad_set(set: u32, opened: u32, own: u32) -> bool
    requires { opened ≤ 8 }
    ensures { result ≡ bad_set opened own set }
{
    !has(set, own) || (1u32 << opened) <= set
}

// Nobody is involved but our own partition.
pub fn is_local(set: u32, own: Partition) -> bool
    ensures { result ≡ eqb set (only own.number) }
{
    set == 1u32 << own.number
}

// "the involved partitions, less our own"
#[tactic(auto, using(crate::specs::Votes::others_mask))]
fn others(set: u8, own: Partition) -> u8
    ensures { (p : ℕ) → p < 8 → names result p ≡ other own.number set p }
{
    set & !(1u8 << own.number)
}

// "stored votes come from other involved partitions"
#[tactic(auto, using(crate::specs::Votes::none_strange, crate::specs::Votes::beyond_strange))]
pub fn are_from_others(set: u8, own: Partition, voters: u32) -> bool
    ensures { result ≡ from_others own.number set voters }
{
    voters < 256 && voters as u8 & !others(set, own) == 0
}

impl Votes {
    // "The votes outstanding are the involved partitions, less our own and less those heard."
    #[tactic(auto, using(crate::specs::Votes::outstanding_mask))]
    pub fn outstanding(self) -> u8
        ensures { (p : ℕ) → p < 8 → names result p ≡ outstanding self.own.number self.involved (record { ayes = self.ayes; nays = self.nays }) p }
    {
        others(self.involved, self.own) & !(self.ayes | self.nays)
    }

    // "no vote is outstanding"
    #[tactic(auto, using(crate::specs::Votes::none_outstanding))]
    pub fn none_outstanding(self) -> bool
        ensures { result ≡ not (any_outstanding self.own.number self.involved (record { ayes = self.ayes; nays = self.nays })) }
    {
        self.outstanding().count_ones() == 0
    }

    // "if every vote was yes": none of the votes that it waited for was no.
    #[tactic(auto, using(crate::specs::Votes::none_said_no))]
    pub fn every_vote_yes(self) -> bool
        ensures { result ≡ every_vote_yes self.own.number self.involved (record { ayes = self.ayes; nays = self.nays }) }
    {
        others(self.involved, self.own) & self.nays == 0
    }
}
