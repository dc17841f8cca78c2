// Ascending lists of keys: is a lent list ascending, is it within its limits, and which key two ascending lists share.
#![tactic(auto)]

ghost use Rattle.std.specs.Prelude.{true, ◌≡◌};
ghost use Rattle.rules.specs.Keys.{ascending, bad_keys, shared, meet};
ghost use Rattle.laws.specs.Options.{given};

// 01, "The ledger's sizes": keys are 0 to 1,023. The limit of this check alone, so that a wrong one shows here.
const KEYS: u32 = 1024;

// "strictly ascending": each key is below the one after it.
pub fn is_ascending(keys: &[u32]) -> bool
    ensures { result ≡ ascending keys.now }
{
    keys.is_sorted_by(|key, next| key < next)
}

// "a key over 1,023; keys not strictly ascending"
pub fn is_bad(keys: &[u32]) -> bool
    ensures { result ≡ bad_keys keys.now }
{
    keys.iter().any(|key| KEYS <= *key) || !is_ascending(keys)
}

// A list that is known to ascend.
#[derive(Clone, Copy)]
pub struct Keys<'a> {
    pub list: &'a [u32],
    pub ghost ascends: { ascending list.now ≡ true },
}

impl Keys<'_> {
    // The smallest key that two lists share, if they share one. Both are walked from their smallest keys on: the smaller of the two keys looked at is
    // not in the rest of the other list, and is passed.
    pub fn smallest_shared(self, other: Keys<'_>) -> Option<u32>
        ensures { result ≡ given (shared self.entry.list.now other.entry.list.now) }
    {
        // two lists at once, each at its own pace: no `for` and no chain of the library walks so
        let mut ours = self.list;
        let mut theirs = other.list;
        while let (Some((one, our_rest)), Some((their, their_rest))) = (
            ours.split_first(),
            theirs.split_first(),
        ) {
            // no `match` on what `cmp` gives: an `Ordering` is first made and then branched on, which takes twice the time
            if *one == *their {
                return Some(*one);
            }
            if *one < *their {
                ours = our_rest;
            } else {
                theirs = their_rest;
            }
        }
        None
    }

    // Two lists have a key in common.
    pub fn meets(self, other: Keys<'_>) -> bool
        ensures { result ≡ meet self.entry.list.now other.entry.list.now }
    {
        self.smallest_shared(other).is_some()
    }
}
