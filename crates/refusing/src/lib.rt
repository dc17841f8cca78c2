// Which refusal an operation on lent tables meets, if any: each check in its order, by early returns. Any tables and any numbers may be lent: the lengths
// are looked at first, then soundness, and only then what the tables hold.
#![tactic(auto)]

ghost use Rattle.std.specs.Prelude.{◌≤◌, Bool, ◌≡◌, cond, get_or, unwrap_or, IfOk};
ghost use Rattle.rules.specs.Events.{snapshot};
ghost use Rattle.tables.specs.Layout.{partitions_at, own_at, sc_at, waiting_at};
ghost use Rattle.tables.specs.View.{view};
ghost use Rattle.refusing.specs.Told.{told};
ghost use Rattle.refusing.specs.Operands.{short, delivery_number, vote_number, change_number, read_number, opening_number, index_of, waiting_identities};
ghost use Rattle.refusing.specs.Lending.{unusable, lending_number};
ghost use Rattle.refusing.specs.Seeking.{row_among, waiting_row_of};
ghost use Rattle.refusing.specs.Snapshots.{snapshot_number, read_words, asked};
ghost use Rattle.refusing.specs.Deliveries.{late, operand_number, delivery_words};
ghost use Rattle.refusing.specs.Votes.{vote_words};

mod refusals;

pub use refusals::Refusal;
use tables::{BOOK, Book, Lent, SUMS, Sizes, Sums, Transaction};

// 01, "The ledger's sizes": the limits of these checks alone, so that a wrong one shows here.
const MOST_KEYS: usize = 8;

const KEYS: u32 = 1024;

const MOST_WAITING: u32 = 32;

const MOST_K: u32 = 31;

const MOST_KEPT: u32 = 64;

const MOST_DC: u32 = 4000000000;

const ROOM: usize = 64; // a finish list of 32 entries, two words each

// Words of a sound state: the sizes that the checks of an event go by hold of them.
#[derive(Clone, Copy)]
struct Usable<'a> {
    book: Book<'a>,
    ghost few_partitions: { get_or book.words.now partitions_at 0 ≤ 8 },
    ghost few_waiting: { get_or book.words.now waiting_at 0 ≤ 32 },
}

// "a lent table too short"
#[tactic(auto, unfolding(crate::specs::Operands::short))]
fn check_lengths(lent: Lent<'_>) -> Result<Book<'_>, Refusal>
    ensures number { told result ≡ cond (short lent.entry.book.now lent.entry.sums.now) 13 0 }
    ensures book { IfOk result (λ b. b.words.now ≡ lent.entry.book.now) }
{
    if lent.book.len() < BOOK || lent.sums.len() < SUMS {
        return Err(Refusal::Unusable);
    }
    Ok(Book { words: lent.book })
}

// 13, for any event: "a lent table too short", "state not sound".
#[tactic(auto, using(crate::specs::Lending::few_partitions, crate::specs::Lending::few_waiting), unfolding(crate::specs::Lending::unusable, crate::specs::Operands::short))]
fn check_tables(lent: Lent<'_>) -> Result<Usable<'_>, Refusal>
    ensures number { told result ≡ cond (unusable lent.entry.book.now lent.entry.sums.now) 13 0 }
    ensures book { IfOk result (λ u. u.book.words.now ≡ lent.entry.book.now) }
{
    let book = check_lengths(lent)?;
    let sums = Sums { amounts: lent.sums };
    if !lent.looked && !checking::is_sound(book, sums) {
        return Err(Refusal::Unusable);
    }
    Ok(Usable { book })
}

// "Then come 15 and 13, in that order": too little room is refused whatever the tables hold. The words of the finish list come beside the tables, since a read and an
// opening lend no such list.
#[tactic(auto, unfolding(crate::specs::Lending::lending_number))]
fn check_lending(lent: Lent<'_>, words: usize) -> Result<Usable<'_>, Refusal>
    ensures number { told result ≡ lending_number lent.entry.book.now lent.entry.sums.now words }
    ensures book { IfOk result (λ u. u.book.words.now ≡ lent.entry.book.now) }
{
    if words < ROOM {
        return Err(Refusal::LittleRoom);
    }
    check_tables(lent)
}

// "st > SC", "st < floor": of a delivery and of a read.
#[tactic(auto, unfolding(crate::specs::Snapshots::snapshot_number))]
fn check_snapshot(st: u32, sc: u32) -> Result<(), Refusal>
    ensures { told result ≡ snapshot_number st sc }
{
    if sc < st {
        return Err(Refusal::SnapshotAhead);
    }
    if MOST_KEPT < sc - st {
        return Err(Refusal::SnapshotFolded);
    }
    Ok(())
}

// The row of an identity among so many first rows of the waiting list, if one has it: of any count, as it was always promised.
pub fn row_of(book: Book<'_>, count: usize, identity: u32) -> Option<usize>
    requires { count ≤ 32 }
    ensures { result ≡ row_among identity count book.entry.words.now }
{
    (0..count).position(|i| book.waiting_row(i).identity() == identity)
}

impl Usable<'_> {
    // The row of an identity among those that wait, if one has it.
    #[tactic(auto, using(crate::specs::Seeking::row_waits))]
    fn row_of(self, identity: u32) -> Option<usize>
        ensures { result ≡ waiting_row_of identity self.entry.book.words.now }
    {
        row_of(self.book, self.book.waiting() as usize, identity)
    }

    // A delivery's numbers 5 to 8.
    #[tactic(auto, unfolding(crate::specs::Deliveries::late))]
    fn check_late(self, st: u32) -> Result<(), Refusal>
        ensures { told result ≡ late st self.entry.book.words.now }
    {
        check_snapshot(st, self.book.sc())?;
        if MOST_WAITING <= self.book.waiting() {
            return Err(Refusal::FullList);
        }
        if self.book.dc() == MOST_DC {
            return Err(Refusal::LastDelivery);
        }
        Ok(())
    }

    // A delivery's numbers 1 to 3, of what is lent with it.
    #[tactic(auto, unfolding(crate::specs::Deliveries::operand_number))]
    fn check_operands(self, t: Transaction<'_>) -> Result<(), Refusal>
        ensures { told result ≡ operand_number (get_or self.entry.book.words.now partitions_at 0) (get_or self.entry.book.words.now own_at 0) t.entry.set t.entry.reads.now t.entry.keys.now }
    {
        if masks::is_bad_set(t.set, self.book.partitions(), self.book.own()) {
            return Err(Refusal::PartitionSet);
        }
        if MOST_KEYS < t.reads.len() || MOST_KEYS < t.keys.len() {
            return Err(Refusal::ManyKeys);
        }
        if keys::is_bad(t.reads) || keys::is_bad(t.keys) {
            return Err(Refusal::Key);
        }
        Ok(())
    }

    // A delivery's numbers.
    #[tactic(auto, unfolding(crate::specs::Deliveries::delivery_words))]
    fn check_delivery(self, t: Transaction<'_>) -> Result<(), Refusal>
        ensures { told result ≡ delivery_words t.entry.identity t.entry.set t.entry.st t.entry.reads.now t.entry.keys.now self.entry.book.words.now }
    {
        self.check_operands(t)?;
        if t.identity == 0 || self.row_of(t.identity).is_some() {
            return Err(Refusal::Identity);
        }
        self.check_late(t.st)
    }

    // A vote's numbers: those of the one row that has the identity.
    #[tactic(auto, using(crate::specs::Votes::word), unfolding(crate::specs::Votes::vote_words, crate::specs::Votes::row_number))]
    fn check_vote(self, identity: u32, p: u32) -> Result<usize, Refusal>
        ensures number { told result ≡ vote_words identity p self.entry.book.words.now }
        ensures row { IfOk result (λ i. i ≡ index_of identity (waiting_identities self.entry.book.words.now)) }
    {
        let i = self.row_of(identity).ok_or(Refusal::NotWaiting)?;
        let row = self.book.waiting_row(i);
        if !masks::is_other(row.set(), self.book.own(), p) {
            return Err(Refusal::NotAsked);
        }
        if masks::has(row.ayes(), p) || masks::has(row.nays(), p) {
            return Err(Refusal::HasVoted);
        }
        Ok(i)
    }

    // A read's numbers.
    #[tactic(auto, unfolding(crate::specs::Snapshots::read_words))]
    fn check_read(self, key: u32, st: Option<u32>) -> Result<u32, Refusal>
        ensures number { told result ≡ read_words key (unwrap_or st (get_or self.entry.book.words.now sc_at 0)) (get_or self.entry.book.words.now sc_at 0) }
        ensures version { IfOk result (λ v. v ≡ unwrap_or st (get_or self.entry.book.words.now sc_at 0)) }
    {
        let version = st.unwrap_or(self.book.sc());
        if KEYS <= key {
            return Err(Refusal::Key);
        }
        check_snapshot(version, self.book.sc())?;
        Ok(version)
    }
}

// Whether a delivery is refused. Its keys and amounts agree in number, or the tables count as too short.
#[tactic(auto, using(crate::specs::Ways::delivery_decided))]
pub fn check_delivery(t: Transaction<'_>, lent: Lent<'_>, words: usize) -> Result<(), Refusal>
    ensures { told result ≡ delivery_number t.entry.identity t.entry.set t.entry.st t.entry.reads.now t.entry.keys.now t.entry.amounts.now lent.entry.book.now lent.entry.sums.now words }
{
    let usable = check_lending(lent, words)?;
    if t.amounts.len() != t.keys.len() {
        return Err(Refusal::Unusable);
    }
    usable.check_delivery(t)
}

// Whether a vote is refused, be it yes or no. The row of the identity is handed back, so that nobody looks for it twice.
#[tactic(auto, using(crate::specs::Ways::vote_decided))]
pub fn check_vote(identity: u32, p: u32, lent: Lent<'_>, words: usize) -> Result<usize, Refusal>
    ensures number { (agrees : Bool) → told result ≡ vote_number identity p agrees lent.entry.book.now lent.entry.sums.now words }
    ensures row { IfOk result (λ i. i ≡ index_of identity (waiting_identities lent.entry.book.now)) }
{
    check_lending(lent, words)?.check_vote(identity, p)
}

// Whether a threshold change is refused.
#[tactic(auto, using(crate::specs::Ways::change_decided))]
pub fn check_change(k: u32, lent: Lent<'_>, words: usize) -> Result<(), Refusal>
    ensures { told result ≡ change_number k lent.entry.book.now lent.entry.sums.now words }
{
    check_lending(lent, words)?;
    if MOST_K < k {
        return Err(Refusal::Threshold);
    }
    Ok(())
}

// Whether a read is refused, at a given st or where none is given at SC. The version to read at is handed back.
#[tactic(auto, using(crate::specs::Ways::read_decided, crate::specs::Snapshots::asked_version))]
pub fn check_read(key: u32, st: Option<u32>, lent: Lent<'_>) -> Result<u32, Refusal>
    ensures number { told result ≡ read_number key (asked st) lent.entry.book.now lent.entry.sums.now }
    ensures version { IfOk result (λ v. v ≡ snapshot (asked st) (view lent.entry.book.now lent.entry.sums.now)) }
{
    check_tables(lent)?.check_read(key, st)
}

// "opening: sizes outside the table", "either: a lent table too short".
#[tactic(auto, unfolding(crate::specs::Operands::opening_number))]
pub fn check_opening(sizes: Sizes, lent: Lent<'_>) -> Result<(), Refusal>
    ensures { told result ≡ opening_number sizes.partitions sizes.own sizes.k lent.entry.book.now lent.entry.sums.now }
{
    check_lengths(lent)?;
    if !checking::sizes_fit(sizes) {
        return Err(Refusal::Unusable);
    }
    Ok(())
}
