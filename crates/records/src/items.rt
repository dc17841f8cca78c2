// The items of a delivery's lists, as they are read.
ghost use Rattle.std.specs.Prelude.{◌≤◌, ◌++◌, [], ◌∷◌, ◌≡◌, length, take};
ghost use Rattle.records.specs.Short.{items_kept};

// So many items of a list are kept: eight are the most that a delivery may read or write, and a ninth shows that there are more. What stands behind it is read and
// checked like the others, and left out.
pub const ITEMS: usize = 9;

// The keys of a list.
#[derive(Clone, Copy)]
pub struct Keys {
    pub items: [u32; ITEMS],
    pub count: usize,
    pub ghost few: { count ≤ items_kept },
}

impl Keys {
    ghost use Rattle.records.specs.Kept.{kept_keys};

    // No keys.
    pub(crate) fn none() -> Keys
        ensures { kept_keys result ≡ [] }
    {
        Keys {
            items: [0; ITEMS],
            count: 0,
        }
    }

    // One key more, where there is room for it.
    pub(crate) fn with(self, key: u32) -> Keys
        ensures { kept_keys result ≡ take items_kept (kept_keys self ++ (key ∷ [])) }
    {
        if self.count == ITEMS {
            return self;
        }
        let mut items = self.items;
        items[self.count] = key;
        Keys {
            items,
            count: self.count + 1,
        }
    }
}

// A key written, and the amount written to it.
#[derive(Clone, Copy)]
pub struct Write {
    pub key: u32,
    pub amount: i64,
}

// The writes of a list: the keys, and an amount for each. They stand side by side, as the engine is lent them.
#[derive(Clone, Copy)]
pub struct Writes {
    pub keys: [u32; ITEMS],
    pub amounts: [i64; ITEMS],
    pub count: usize,
    pub ghost few: { count ≤ items_kept },
}

impl Writes {
    ghost use Rattle.rules.specs.Ledger.{Write};
    ghost use Rattle.records.specs.Kept.{kept_writes, one_write};

    // No writes.
    #[tactic(auto, using(crate::specs::Kept::writes))]
    pub(crate) fn none() -> Writes
        ensures { kept_writes result ≡ [] }
    {
        Writes {
            keys: [0; ITEMS],
            amounts: [0; ITEMS],
            count: 0,
        }
    }

    // One write more, where there is room for it.
    #[tactic(auto, using(crate::specs::Kept::writes))]
    pub(crate) fn with(self, write: Write) -> Writes
        ensures { kept_writes result ≡ take items_kept (kept_writes self ++ (one_write write ∷ [])) }
    {
        if self.count == ITEMS {
            return self;
        }
        let mut keys = self.keys;
        keys[self.count] = write.key;
        let mut amounts = self.amounts;
        amounts[self.count] = write.amount;
        Writes {
            keys,
            amounts,
            count: self.count + 1,
        }
    }
}

// "D identity, partition set, st, reads, writes as key=value"
#[derive(Clone, Copy)]
pub struct Delivery {
    pub identity: u32,
    pub set: u32,
    pub st: u32,
    pub reads: Keys,
    pub writes: Writes,
}

impl Delivery {
    // The keys read that are kept.
    pub fn reads(&self) -> &[u32]
        ensures { result.now ≡ take self.now.reads.count self.now.reads.items }
    {
        &self.reads.items[..self.reads.count]
    }

    // The keys written that are kept.
    pub fn keys(&self) -> &[u32]
        ensures kept { result.now ≡ take self.now.writes.count self.now.writes.keys }
        ensures all { length result.now ≡ self.now.writes.count }
    {
        &self.writes.keys[..self.writes.count]
    }

    // An amount for each of them.
    pub fn amounts(&self) -> &[i64]
        ensures kept { result.now ≡ take self.now.writes.count self.now.writes.amounts }
        ensures all { length result.now ≡ self.now.writes.count }
    {
        &self.writes.amounts[..self.writes.count]
    }
}
