// The head of the waiting list: is it ready, and does it commit.
ghost use Rattle.std.specs.Prelude.{◌≡◌, get_or};
ghost use Rattle.tables.specs.Bytes.{ByteSets};
ghost use Rattle.tables.specs.Tested.{row_ready, row_commits};

use masks::{Partition, Votes};
use tables::Row;

// The head's row, seen from our own partition: its three sets are bytes.
#[derive(Clone, Copy)]
pub struct Head<'a> {
    pub row: Row<'a>,
    pub own: Partition,
    pub ghost byte_sets: { ByteSets (get_or row.words.now 1 0) (get_or row.words.now 4 0) (get_or row.words.now 5 0) },
}

impl Head<'_> {
    // The votes on the head.
    fn votes(self) -> Votes
        ensures involved { result.involved ≡ get_or self.entry.row.words.now 1 0 }
        ensures ours { result.own.number ≡ self.entry.own.number }
        ensures ayes { result.ayes ≡ get_or self.entry.row.words.now 4 0 }
        ensures nays { result.nays ≡ get_or self.entry.row.words.now 5 0 }
    {
        Votes {
            involved: self.row.set() as u8,
            own: self.own,
            ayes: self.row.ayes() as u8,
            nays: self.row.nays() as u8,
        }
    }

    // "A local head is ready. A global head is ready when DC >= rt and no vote is outstanding."
    #[tactic(auto, unfolding(tables::specs::Tested::row_ready))]
    pub fn is_ready(self, dc: u32) -> bool
        ensures { result ≡ row_ready self.entry.own.number dc self.entry.row.words.now }
    {
        masks::is_local(self.row.set(), self.own)
            || self.row.rt() <= dc && self.votes().none_outstanding()
    }

    // "A local head commits. A global head commits if every vote was yes"
    #[tactic(auto, unfolding(tables::specs::Tested::row_commits))]
    pub fn is_commit(self) -> bool
        ensures { result ≡ row_commits self.entry.own.number self.entry.row.words.now }
    {
        masks::is_local(self.row.set(), self.own) || self.votes().every_vote_yes()
    }
}
