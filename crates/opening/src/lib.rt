// Opening: every word and amount that the state needs is cleared, and the sizes are stored.
#![tactic(auto)]

ghost use Rattle.std.specs.Prelude.{◌≡◌};
ghost use Rattle.tables.specs.Opened.{opened_book, opened_sums};

use moves::lay;
use tables::{BOOK, COUNTERS, Ledger, SUMS, Sizes};

// The counters have the number of partitions, our own, and k; SC, DC and how many wait are 0, and so is every word and amount behind them.
#[tactic(auto, using(crate::specs::Clearing::book_opened, crate::specs::Clearing::sums_opened))]
pub fn open_tables(ledger: &mut Ledger<'_>, sizes: Sizes)
    ensures same_book { ledger.new.book.ghost_name ≡ ledger.old.book.ghost_name }
    ensures same_sums { ledger.new.sums.ghost_name ≡ ledger.old.sums.ghost_name }
    ensures book_after { ledger.new.book.now ≡ opened_book ledger.old.book.now sizes.partitions sizes.own sizes.k }
    ensures sums_after { ledger.new.sums.now ≡ opened_sums ledger.old.sums.now }
{
    lay(
        ledger.book,
        0,
        &[sizes.partitions, sizes.own, 0, 0, sizes.k, 0],
    );
    ledger.book[COUNTERS..BOOK].fill(0);
    ledger.sums[..SUMS].fill(0);
}
