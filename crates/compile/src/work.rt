// The places that are found: every access is here.
ghost use Rattle.std.specs.Prelude.{[]};
ghost use Rattle.compile.specs.Work.{columns, earlier_of, Fit};
ghost use Rattle.compile.specs.Explore.{Seen};

use meaning::{Reason, Refusal};

// What is known of a place, and the earlier place of the same head. A chain is read from fallback to fallback, and a
// row only when the one before it has been read: a row of 8 bytes is found by its number in one load, a longer one by
// a shift more.
#[derive(Clone, Copy, Debug, PartialEq, Eq)]
struct Row {
    head: u16,
    level: u16,
    earlier: u16,
    fallback: u16,
}

const EMPTY: Row = Row {
    head: 0,
    level: 0,
    earlier: 0,
    fallback: 0,
};

// A chain that is not empty: the state at its head, its level, and the place of the rest of it.
#[derive(Clone, Copy, Debug, PartialEq, Eq)]
pub(crate) struct Chain {
    pub(crate) head: usize,
    pub(crate) level: usize,
    pub(crate) fallback: usize,
}

// `newest` is the newest place of each head. Like `earlier` it is 0 for none: place 0, whose chain is empty, has no
// head and ends each list of places. With an Option for `earlier` a row would be longer than its 8 bytes, and what
// stands in `newest` becomes an `earlier`. Arrays with a count, as the library has no heap.
#[derive(Drop)]
pub(crate) struct Places {
    newest: [u16; 512],
    rows: [Row; 1024],
    count: usize,
    ghost fit: { Fit newest (earlier_of rows) (columns rows) count },
}

impl Places {
    ghost use Rattle.std.specs.Prelude.{◌≡◌, [], ◌∷◌, ◌++◌, ◌≤◌, ◌<◌, get_or, Some};
    ghost use Rattle.meaning.specs.Chain.{live, put};
    ghost use Rattle.meaning.specs.Places.{same_chain, meet};
    ghost use Rattle.compile.specs.Explore.{whole, Finds, Grown, Seen, Settled};
    ghost use Rattle.compile.specs.Held.{rows_of, chain_at, chains_in};

    // The place of the empty chain alone, 0.
    pub(crate) fn new() -> Self
        ensures { result.count ≡ 1 }
    {
        Places {
            newest: [0; 512],
            rows: [EMPTY; 1024],
            count: 1,
        }
    }

    pub(crate) fn count(&self) -> usize
        ensures { result ≡ self.now.count }
    {
        self.count
    }

    pub(crate) fn head(&self, p: usize) -> usize
        requires { p < 1024 }
        ensures { (result ≡ get_or (rows_of self.now).heads p 0) × (result < 512) }
    {
        usize::from(self.rows[p].head)
    }

    pub(crate) fn level(&self, p: usize) -> usize
        requires { p < 1024 }
        ensures { (result ≡ get_or (rows_of self.now).levels p 0) × (result ≤ p) }
    {
        usize::from(self.rows[p].level)
    }

    pub(crate) fn fallback(&self, p: usize) -> usize
        requires { p < 1024 }
        ensures { (result ≡ get_or (rows_of self.now).fallbacks p 0) × (result ≤ p) × (0 < p → result < p) }
    {
        usize::from(self.rows[p].fallback)
    }

    // Whether the place p is that of the chain: both are read to their ends.
    fn same_chain(&self, p: usize, chain: Chain) -> bool
        requires { (0 < p) × (p < 1024) × (chain.fallback < 1024) }
        ensures { result
            ≡ same_chain (chain_at self.now p) (live chain.head chain.level ∷ chain_at self.now chain.fallback) }
    {
        if self.head(p) != chain.head {
            return false;
        }
        if self.level(p) != chain.level {
            return false;
        }
        let mut a = self.fallback(p);
        let mut b = chain.fallback;
        // A `while`, here and in `find`, as each place is had from the one before.
        while a != 0 {
            if b == 0 {
                return false;
            }
            if self.head(a) != self.head(b) {
                return false;
            }
            if self.level(a) != self.level(b) {
                return false;
            }
            a = self.fallback(a);
            b = self.fallback(b);
        }
        b == 0
    }

    // The place of the chain.
    pub(crate) fn find(&self, chain: Chain) -> Option<usize>
        requires { (chain.head < 512) × (chain.fallback < self.now.count) }
        ensures { Finds whole (rows_of self.now) self.now.count chain.head chain.level chain.fallback result }
    {
        let mut p = usize::from(self.newest[chain.head]);
        while p != 0 {
            if self.same_chain(p, chain) {
                return Some(p);
            }
            p = usize::from(self.rows[p].earlier);
        }
        None
    }

    // One place more, that of the chain: the newest of its head.
    fn push(&mut self, chain: Chain)
        requires { (self.old.count < 1024) × (chain.head < 512) × (chain.level ≤ self.old.count)
            × (chain.fallback < self.old.count) }
        ensures { chains_in self.new
            ≡ chains_in self.old ++ ((live chain.head chain.level ∷ chain_at self.old chain.fallback) ∷ []) }
    {
        let n = self.count;
        self.rows[n] = Row {
            head: chain.head as u16,
            level: chain.level as u16,
            earlier: self.newest[chain.head],
            fallback: chain.fallback as u16,
        };
        self.newest[chain.head] = n as u16;
        self.count = n + 1;
    }

    // The place of what the chain's head, put on its rest, makes of it: of the rest alone if the head stands there
    // already. The states of the rest are seen. What is asked for in the exploration has a place: with an Option the
    // callers would take up a None that never comes, so 0, which is a place too, stands for it.
    pub(crate) fn settle(&self, chain: Chain, seen: &mut [bool; 512]) -> usize
        requires { (chain.head < 512) × (chain.fallback < self.now.count) }
        ensures { Settled whole (rows_of self.now) self.now.count chain.head chain.level chain.fallback seen.old result
            seen.new }
    {
        if seen[chain.head] {
            return chain.fallback;
        }
        seen[chain.head] = true;
        self.find(chain).unwrap_or(0)
    }

    // What the chain's head, put on its rest, makes of it is met. The states of the rest are seen.
    pub(crate) fn add(&mut self, chain: Chain, seen: &[bool; 512]) -> Result<(), Refusal>
        requires { (chain.head < 512) × (chain.fallback < self.old.count) × (chain.level ≤ self.old.count)
            × Seen seen.now (chain_at self.old chain.fallback) }
        ensures { Grown (rows_of self.new) self.new.count
            (meet (put (Some chain.head) chain.level (chain_at self.old chain.fallback)) (chains_in self.old)) result }
    {
        if seen[chain.head] || self.find(chain).is_some() {
            return Ok(());
        }
        if self.count == 1024 {
            return Err(Reason::Places.into());
        }
        self.push(chain);
        Ok(())
    }
}

// The states of the empty chain: the start stands at the end of every chain.
pub(crate) fn nothing_seen() -> [bool; 512]
    ensures { Seen result [] }
{
    let mut seen = [false; 512];
    seen[0] = true;
    seen
}
