// A book is checked, refusals 1 to 13 in their order; and what the compile asks of a book.
#![tactic(auto)]

ghost use Rattle.std.specs.Prelude.{◌≡◌, Bool, true, false, not, ℕ, List, Option, ◌+◌, ◌-◌, ◌≤◌, ◌<◌, length};
ghost use Rattle.meaning.specs.Book.{look, outs, marks};
ghost use Rattle.meaning.specs.Answer.{Answer, judged, faulty};
ghost use Rattle.meaning.specs.Refusal.{number};
ghost use Rattle.meaning.specs.declared.Reason.{Reason};
ghost use Rattle.wire.specs.Little.{NumberIs};
ghost use Rattle.book.specs.Form.{trailer_at, trailer_of, SB, letters_right, table_at};
ghost use Rattle.book.specs.Form.{state_record_at, edge_record_at};
ghost use Rattle.book.specs.declared.EdgeRecord.{EdgeRecord};
ghost use Rattle.book.specs.Model.{first_edge, edges_from, table_book, firsts_of, RiseFrom, Rising, lead_of};
ghost use Rattle.book.specs.Rules.{state_fault, edge_fault, trailer_rules, table_rules, check_book, told};
ghost use Rattle.book.specs.Rules.{spare_right, astray, unentered, dead_end};
ghost use Rattle.book.specs.Reads.{StateIs, EdgeIs, refused_or, state_breaks, edge_breaks};
ghost use Rattle.book.specs.Reads.{state_broken, own_broken, own_fault, not_after, EnteredAre};
ghost use Rattle.book.specs.Reads.{HoldsStates, HoldsEdges, StatesRight, OwnRight};

use meaning::{Reason, Refusal};

pub const SB: [u8; 2] = *b"SB";

#[derive(Clone, Copy, Debug, PartialEq, Eq)]
pub struct Trailer {
    pub distance: usize,
    pub states: usize,
    pub edges: usize,
    pub form: usize,
}

// The byte beside the mark, or beside the event, is spare: it must be 0.
#[derive(Clone, Copy, Debug, Default, PartialEq, Eq)]
pub struct StateRecord {
    pub mark: usize,
    pub spare: usize,
    pub count: usize,
}

#[derive(Clone, Copy, Debug, Default, PartialEq, Eq)]
pub struct EdgeRecord {
    pub event: usize,
    pub spare: usize,
    pub target: usize,
}

// What the check of a book counts.
#[derive(Clone, Copy, Debug, PartialEq, Eq)]
pub struct Counts {
    pub states: usize,
    pub edges: usize,
}

// The state table of a book, the bytes from table_at on: so many states, and after them all their edges.
#[derive(Clone, Copy, Debug, PartialEq, Eq)]
pub struct Table<'a> {
    pub bytes: &'a [u8],
    pub states: usize,
}

// ---- the trailer

fn trailer_at(book: &[u8]) -> usize
    ensures { result ≡ trailer_at book.now }
{
    book.len().saturating_sub(12)
}

fn trailer_of(book: &[u8]) -> Trailer
    ensures { result ≡ trailer_of book.now }
{
    let at = trailer_at(book);
    Trailer {
        distance: wire::le32(book, at),
        states: wire::le16(book, at + 4),
        edges: wire::le16(book, at + 6),
        form: wire::le16(book, at + 8),
    }
}

// Whether a book that has a trailer ends with the letters.
fn has_letters(book: &[u8]) -> bool
    requires { 12 ≤ length book.now }
    ensures { result ≡ letters_right SB book.now }
{
    book.ends_with(&SB)
}

// Where the state table starts: all before it is a maker's note.
pub fn table_at(book: &[u8]) -> usize
    ensures { result ≡ table_at book.now }
{
    book.len().saturating_sub(trailer_of(book).distance)
}

// ---- refusals 1 to 6: on the trailer's numbers alone

fn check_trailer(book: &[u8], t: Trailer) -> Result<(), Refusal>
    ensures { (x : Answer) → refused_or result x
        ≡ judged (trailer_rules (length book.now) (letters_right SB book.now) t) x }
{
    let n = book.len();
    if n < 12 {
        return Err(Reason::Short.into());
    }
    if 65536 < n {
        return Err(Reason::Long.into());
    }
    if !has_letters(book) {
        return Err(Reason::Letters.into());
    }
    if t.form != 1 {
        return Err(Reason::Form.into());
    }
    if t.states == 0 || 512 < t.states || 2048 < t.edges {
        return Err(Reason::Counts.into());
    }
    if t.distance != 4 * t.states + 4 * t.edges + 12 || n < t.distance {
        return Err(Reason::Distance.into());
    }
    Ok(())
}

// ---- refusals 7 to 13: does a record break the rule

// 7: the byte beside the mark, or beside the event, is not 0.
fn spare(byte: usize) -> bool
    ensures { result ≡ not (spare_right byte) }
{
    byte != 0
}

// 9: the edge's event is not above the event of the edge before it in the same state.
fn not_after(e: EdgeRecord, before: Option<usize>) -> bool
    ensures { result ≡ not_after e before }
{
    before.is_some_and(|event| e.event <= event)
}

// 10: the edge of state s leads to no state above s, of so many states.
fn astray(states: usize, s: usize, e: EdgeRecord) -> bool
    ensures { result ≡ astray states s e }
{
    e.target <= s || states <= e.target
}

// 12: no edge leads into state s.
fn unentered(s: usize, edge_in: bool) -> bool
    ensures { result ≡ unentered s edge_in }
{
    s != 0 && !edge_in
}

// 13: state s has no mark and no edge.
fn dead_end(s: usize, x: StateRecord) -> bool
    ensures { result ≡ dead_end s x }
{
    s != 0 && x.mark == 0 && x.count == 0
}

// State s breaks no rule of states; an edge of state s breaks no rule of edges. Two functions, as each asks its own
// rules of its own record.
fn state_right(s: usize, x: StateRecord, edge_in: bool) -> bool
    ensures { result ≡ true → (reason : Reason) → state_breaks reason s x edge_in ≡ false }
{
    !spare(x.spare) && !unentered(s, edge_in) && !dead_end(s, x)
}

fn edge_right(states: usize, s: usize, e: EdgeRecord, before: Option<usize>) -> bool
    ensures { result ≡ true → (reason : Reason) → edge_breaks reason states s e before ≡ false }
{
    !spare(e.spare) && !not_after(e, before) && !astray(states, s, e)
}

// ---- a table's records

// Their numbers come as `usize` with their bound, as `wire` promises them: in a narrower type each would be widened
// again where it is an index or is added.

impl Table<'_> {
    // The record of state s.
    pub fn state_at(self, s: usize) -> StateRecord
        ensures { StateIs (state_record_at self.entry.bytes.now s) result }
    {
        if s < self.bytes.len() / 4 {
            return self.held_state(s);
        }
        let Some(at) = s.checked_mul(4) else {
            return StateRecord::default();
        };
        StateRecord {
            mark: wire::byte_at(self.bytes, at),
            spare: wire::byte_at(self.bytes, at + 1),
            count: wire::le16(self.bytes, at + 2),
        }
    }

    // The record of edge j, counted over the whole table.
    pub fn edge_at(self, j: usize) -> EdgeRecord
        ensures { EdgeIs (edge_record_at self.entry.bytes.now self.entry.states j) result }
    {
        if j < (self.bytes.len() / 4).saturating_sub(self.states) {
            return self.held_edge(j);
        }
        let Some(at) = self.states.saturating_add(j).checked_mul(4) else {
            return EdgeRecord::default();
        };
        EdgeRecord {
            event: wire::byte_at(self.bytes, at),
            spare: wire::byte_at(self.bytes, at + 1),
            target: wire::le16(self.bytes, at + 2),
        }
    }

    // The event of edge j, and the state it leads to.
    pub fn event_at(self, j: usize) -> usize
        ensures { NumberIs (edge_record_at self.entry.bytes.now self.entry.states j).event 256 result }
    {
        self.edge_at(j).event
    }

    pub fn target_at(self, j: usize) -> usize
        ensures { NumberIs (edge_record_at self.entry.bytes.now self.entry.states j).target 65536 result }
    {
        self.edge_at(j).target
    }

    // The same for records that are among the bytes, as those of a sound book are: read without a test. By these the
    // check of a sound book takes 0.45 to 0.69 of plain C's time.
    fn held_state(self, s: usize) -> StateRecord
        requires { HoldsStates self.bytes.now (s + 1) }
        ensures { StateIs (state_record_at self.entry.bytes.now s) result }
    {
        let at = 4 * s;
        StateRecord {
            mark: usize::from(self.bytes[at]),
            spare: usize::from(self.bytes[at + 1]),
            count: wire::pair(self.bytes[at + 2], self.bytes[at + 3]),
        }
    }

    fn held_edge(self, j: usize) -> EdgeRecord
        requires { HoldsEdges self.bytes.now self.states (j + 1) }
        ensures { EdgeIs (edge_record_at self.entry.bytes.now self.entry.states j) result }
    {
        let at = 4 * self.states + 4 * j;
        EdgeRecord {
            event: usize::from(self.bytes[at]),
            spare: usize::from(self.bytes[at + 1]),
            target: wire::pair(self.bytes[at + 2], self.bytes[at + 3]),
        }
    }
}

// ---- refusals 7 to 13, each judged over the whole table before the next

// How many states there may be is asked at each function: `Table` is public, and a fact in it would ask more of callers.
// So is that edges are few enough for their sum to fit: a range in place of first and count would have it beside it too.

impl Table<'_> {
    // Whether an edge leads into each state.
    fn entered(self, edges: usize) -> [bool; 512]
        requires { edges ≤ 2048 }
        ensures { EnteredAre self.entry.bytes.now self.entry.states edges result }
    {
        let mut r = [false; 512];
        for j in 0..edges {
            let target = self.target_at(j);
            if target < 512 {
                r[target] = true;
            }
        }
        r
    }

    // The sum of the states' edge counts. A loop: `sum` is proved to fit by a bound on every partial sum of every run
    // of its chain, and that was tried and stayed open.
    fn count_sum(self) -> usize
        requires { self.states ≤ 512 }
        ensures { result ≡ first_edge self.entry.bytes.now self.entry.states }
    {
        let mut sum = 0;
        for s in 0..self.states {
            sum += self.state_at(s).count;
        }
        sum
    }

    // Refused at the first of the states that breaks a rule: the caller's function, of a state, its record, and whether
    // an edge leads into it.
    fn check_states<F: Fn(usize, StateRecord, bool) -> bool>(
        self,
        reason: Reason,
        entered: &[bool; 512],
        breaks: F,
    ) -> Result<(), Refusal>
        requires few { self.states ≤ 512 }
        requires asked { (s : ℕ) (x : StateRecord) (edge_in : Bool) → F.pre breaks s x edge_in }
        ensures { (rule : ℕ → StateRecord → Bool → Bool)
            → ((s : ℕ) (x : StateRecord) (edge_in b : Bool) → F.post breaks s x edge_in b → b ≡ rule s x edge_in)
            → (E : ℕ) → EnteredAre self.entry.bytes.now self.entry.states E entered.now
            → (x : Answer) → refused_or result x ≡ faulty (number reason)
            (state_fault (state_broken rule self.entry.bytes.now self.entry.states E) self.entry.states) x }
    {
        for s in 0..self.states {
            if breaks(s, self.state_at(s), entered[s]) {
                return Err(Refusal {
                    reason,
                    place: (4 * s) as u32,
                });
            }
        }
        Ok(())
    }

    // Refused at the first of one state's edges, `count` from edge `first` on, that breaks a rule: of the state, an
    // edge's record, and the event of the edge before it in the same state.
    fn check_own<F: Fn(usize, EdgeRecord, Option<usize>) -> bool>(
        self,
        reason: Reason,
        s: usize,
        first: usize,
        count: usize,
        breaks: &F,
    ) -> Result<(), Refusal>
        requires few { (self.states ≤ 512) × (first + count ≤ 1000000000) }
        requires asked { (s : ℕ) (e : EdgeRecord) (before : Option ℕ) → F.pre breaks.now s e before }
        ensures { (rule : ℕ → EdgeRecord → Option ℕ → Bool)
            → ((s : ℕ) (e : EdgeRecord) (before : Option ℕ) (b : Bool) → F.post breaks.now s e before b
            → b ≡ rule s e before)
            → (x : Answer) → refused_or result x ≡ faulty (number reason)
            (own_fault rule self.entry.bytes.now self.entry.states s first count) x }
    {
        let mut before = None;
        for j in first..first + count {
            let e = self.edge_at(j);
            if breaks(s, e, before) {
                return Err(Refusal {
                    reason,
                    place: (4 * self.states + 4 * j) as u32,
                });
            }
            before = Some(e.event);
        }
        Ok(())
    }

    // Refused at the first of all states' edges that breaks a rule, each as an edge of its state.
    fn check_edges<F: Fn(usize, EdgeRecord, Option<usize>) -> bool>(
        self,
        reason: Reason,
        breaks: F,
    ) -> Result<(), Refusal>
        requires few { self.states ≤ 512 }
        requires asked { (s : ℕ) (e : EdgeRecord) (before : Option ℕ) → F.pre breaks s e before }
        ensures { (rule : ℕ → EdgeRecord → Option ℕ → Bool)
            → ((s : ℕ) (e : EdgeRecord) (before : Option ℕ) (b : Bool) → F.post breaks s e before b
            → b ≡ rule s e before)
            → (x : Answer) → refused_or result x ≡ faulty (number reason)
            (edge_fault (own_broken rule self.entry.bytes.now self.entry.states)
            self.entry.bytes.now self.entry.states) x }
    {
        let mut first = 0;
        for s in 0..self.states {
            let count = self.state_at(s).count;
            self.check_own(reason, s, first, count, &breaks)?;
            first += count;
        }
        Ok(())
    }

    // The zero bytes are those of the states, then those of all edges that the trailer names.
    fn check(self, edges: usize) -> Result<(), Refusal>
        requires { (self.states ≤ 512) × (edges ≤ 2048) }
        ensures { (x : Answer) → refused_or result x
            ≡ judged (table_rules self.entry.bytes.now self.entry.states edges) x }
    {
        let has = self.entered(edges);
        self.check_states(Reason::Spare, &has, |_, x, _| spare(x.spare))?;
        self.check_own(Reason::Spare, 0, 0, edges, &|_, e, _| spare(e.spare))?;
        if self.count_sum() != edges {
            return Err(Reason::Sum.into());
        }
        self.check_edges(Reason::Order, |_, e, before| not_after(e, before))?;
        self.check_edges(Reason::Target, |s, e, _| astray(self.states, s, e))?;
        if self.state_at(0).mark != 0 {
            return Err(Reason::Start.into());
        }
        self.check_states(Reason::Entry, &has, |s, _, edge_in| unentered(s, edge_in))?;
        self.check_states(Reason::Exit, &has, |s, x, _| dead_end(s, x))
    }
}

// ---- refusals 7 to 13 at once: whether the table breaks any rule

// A sound book is read by these alone, an edge once and a state twice. The check above reads the table anew for each
// rule, as it has to tell the first refusal.

impl Table<'_> {
    // The states break no rule.
    fn states_right(self, edges: usize, entered: &[bool; 512]) -> bool
        requires { (self.states ≤ 512) × HoldsStates self.bytes.now self.states
            × EnteredAre self.bytes.now self.states edges entered.now }
        ensures { result ≡ true → StatesRight self.entry.bytes.now self.entry.states edges }
    {
        for s in 0..self.states {
            if !state_right(s, self.held_state(s), entered[s]) {
                return false;
            }
        }
        true
    }

    // One state's edges, `count` from edge `first` on, break no rule, and the states that they lead into are noted.
    fn own_right(self, s: usize, first: usize, count: usize, entered: &mut [bool; 512]) -> bool
        requires { (self.states ≤ 512) × (first + count ≤ 2048) × HoldsEdges self.bytes.now self.states (first + count)
            × EnteredAre self.bytes.now self.states first entered.old }
        ensures { result ≡ true → OwnRight self.entry.bytes.now self.entry.states s first count entered.new }
    {
        let mut before = None;
        for j in first..first + count {
            let e = self.held_edge(j);
            if !edge_right(self.states, s, e, before) {
                return false;
            }
            entered[e.target] = true;
            before = Some(e.event);
        }
        true
    }

    // The table breaks no rule.
    fn right(self, edges: usize) -> bool
        requires { (0 < self.states) × (self.states ≤ 512) × (edges ≤ 2048)
            × HoldsEdges self.bytes.now self.states edges }
        ensures { result ≡ true
            → (x : Answer) → judged (table_rules self.entry.bytes.now self.entry.states edges) x ≡ x }
    {
        let mut entered = [false; 512];
        let mut first = 0;
        for s in 0..self.states {
            let count = self.held_state(s).count;
            if edges - first < count || !self.own_right(s, first, count, &mut entered) {
                return false;
            }
            first += count;
        }
        first == edges && self.held_state(0).mark == 0 && self.states_right(edges, &entered)
    }
}

// ---- the check

// The book's counts, or the first refusal that its bytes deserve.
pub fn check_book(book: &[u8]) -> Result<Counts, Refusal>
    ensures { told result ≡ check_book book.now }
{
    let t = trailer_of(book);
    check_trailer(book, t)?;
    let counts = Counts {
        states: t.states,
        edges: t.edges,
    };
    let at = table_at(book);
    let table = Table {
        bytes: &book[at..],
        states: t.states,
    };
    if !table.right(t.edges) {
        table.check(t.edges)?;
    }
    Ok(counts)
}

// ---- what the compile asks of a book

// Where the event leads by one of `count` edges from edge `first` on, each as it is read: the first edge with the event
// counts.
fn seek<F: Fn(usize) -> EdgeRecord>(
    edge: F,
    first: usize,
    count: usize,
    event: usize,
) -> Option<usize>
    requires few { first + count ≤ 1000000000 }
    requires reads { (j : ℕ) → j < first + count → F.pre edge j }
    ensures { (t : List ℕ) (S : ℕ) → ((j : ℕ) (e : EdgeRecord) → F.post edge j e → e ≡ edge_record_at t S j)
        → result ≡ look (edges_from t S count first) event }
{
    for j in first..first + count {
        let e = edge(j);
        if e.event == event {
            return Some(e.target);
        }
    }
    None
}

// Where the event leads by one of `count` edges from edge `first` on, whose events rise, by halving. Among `count`
// bytes that rise an event stands from event + count - 256 to event. It is a loop, as the search starts in that window
// and the records lie in bytes (for the other two halvings see `edge_of` in `compile`). It takes the bytes, as a proof
// knows of a parameter's bytes that they are below 256, and of a field's it does not.
fn halve(bytes: &[u8], states: usize, first: usize, count: usize, event: usize) -> Option<usize>
    requires { (first + count ≤ 1000000000) × HoldsEdges bytes.now states (first + count)
        × RiseFrom bytes.now states count first }
    ensures { result ≡ look (edges_from bytes.now states count first) event }
{
    if 255 < event {
        return None;
    }
    let table = Table { bytes, states };
    let low = (event + count).saturating_sub(256);
    let mut j = first + low;
    let mut left = count.min(event + 1).saturating_sub(low);
    while 0 < left {
        let half = left / 2;
        let e = table.held_edge(j + half);
        if e.event == event {
            return Some(e.target);
        }
        if e.event < event {
            j += half + 1;
            left -= half + 1;
        } else {
            left = half;
        }
    }
    None
}

impl Table<'_> {
    // The mark of state q, 0 for a state that the table does not have: a number and no Option, as it is promised of any
    // state.
    pub fn mark_of(self, q: usize) -> usize
        ensures { NumberIs (marks (table_book self.entry.bytes.now self.entry.states) q) 256 result }
    {
        if q < self.states {
            self.state_at(q).mark
        } else {
            0
        }
    }

    // The number of the edges of state q.
    pub fn count_of(self, q: usize) -> usize
        ensures { NumberIs (length (outs (table_book self.entry.bytes.now self.entry.states) q)) 65536 result }
    {
        if q < self.states {
            self.state_at(q).count
        } else {
            0
        }
    }

    // For each state the number of its first edge, in 16 bits: the number of the edges of all lower states.
    pub fn firsts(self) -> [u16; 512]
        ensures { result ≡ firsts_of (table_book self.entry.bytes.now self.entry.states) }
    {
        let mut r = [0u16; 512];
        let mut sum: usize = 0;
        for q in 0..512 {
            r[q] = (sum % 65536) as u16;
            sum += self.count_of(q);
        }
        r
    }

    // Where the event leads from state q, whose first edge is listed: as in the book, where `first` is what `firsts`
    // gives.
    pub fn lead(self, first: &[u16; 512], q: usize, event: usize) -> Option<usize>
        ensures { result ≡ lead_of self.entry.bytes.now self.entry.states first.now q event }
    {
        let from = usize::from(*first.get(q)?);
        seek(|j| self.edge_at(j), from, self.count_of(q), event)
    }

    // The same for a state whose events rise, as they do in an accepted book: edges that are among the bytes, as its
    // edges are, are read without a test, and many are searched by halving.
    pub fn lead_rising(self, first: &[u16; 512], q: usize, event: usize) -> Option<usize>
        requires { Rising self.bytes.now self.states first.now q }
        ensures { result ≡ lead_of self.entry.bytes.now self.entry.states first.now q event }
    {
        let from = usize::from(*first.get(q)?);
        let count = self.count_of(q);
        if (self.bytes.len() / 4).saturating_sub(self.states) <= from + count {
            seek(|j| self.edge_at(j), from, count, event)
        } else if count <= 8 {
            seek(|j| self.held_edge(j), from, count, event)
        } else {
            halve(self.bytes, self.states, from, count, event)
        }
    }
}
