// The book that is compiled: its state table, and the number of each state's first edge. All that the compile asks of
// crate `book` after its check is asked here.
ghost use Rattle.compile.specs.Explore.{Ready};

use book::{EdgeRecord, Table};

#[derive(Drop)]
pub(crate) struct Source<'a> {
    table: Table<'a>,
    first: [u16; 512],
    ghost ready: { Ready table.bytes.now table.states first },
}

impl<'a> Source<'a> {
    ghost use Rattle.std.specs.Prelude.{◌≡◌, ◌<◌, length, get_or};
    ghost use Rattle.wire.specs.Little.{NumberIs};
    ghost use Rattle.meaning.specs.Book.{delta, outs, marks};
    ghost use Rattle.book.specs.Form.{edge_record_at};
    ghost use Rattle.book.specs.Model.{table_book, firsts_of};
    ghost use Rattle.book.specs.Reads.{EdgeIs};
    ghost use Rattle.compile.specs.Held.{source_book};

    pub(crate) fn new(table: Table<'a>) -> Self
        requires { Ready table.bytes.now table.states (firsts_of (table_book table.bytes.now table.states)) }
        ensures { source_book result ≡ table_book table.entry.bytes.now table.entry.states }
    {
        Source {
            table,
            first: table.firsts(),
        }
    }

    // The mark of the state q.
    pub(crate) fn mark(&self, q: usize) -> usize
        ensures { NumberIs (marks (source_book self.now) q) 256 result }
    {
        self.table.mark_of(q)
    }

    // The number of the edges of the state q.
    pub(crate) fn count(&self, q: usize) -> usize
        ensures { NumberIs (length (outs (source_book self.now) q)) 65536 result }
    {
        self.table.count_of(q)
    }

    // The number of the first edge of the state q.
    pub(crate) fn first_edge(&self, q: usize) -> usize
        requires { q < 512 }
        ensures { (result ≡ get_or self.now.first q 0) × (result < 65536) }
    {
        usize::from(self.first[q])
    }

    pub(crate) fn edge(&self, j: usize) -> EdgeRecord
        ensures { EdgeIs (edge_record_at self.now.table.bytes.now self.now.table.states j) result }
    {
        self.table.edge_at(j)
    }

    // The event of the edge j, and the state that it leads to.
    pub(crate) fn event(&self, j: usize) -> usize
        ensures { NumberIs (edge_record_at self.now.table.bytes.now self.now.table.states j).event 256 result }
    {
        self.table.event_at(j)
    }

    pub(crate) fn target(&self, j: usize) -> usize
        ensures { NumberIs (edge_record_at self.now.table.bytes.now self.now.table.states j).target 65536 result }
    {
        self.table.target_at(j)
    }

    // The state that the event leads to from the state q.
    pub(crate) fn led(&self, q: usize, event: usize) -> Option<usize>
        ensures { result ≡ delta (source_book self.now) q event }
    {
        self.table.lead_rising(&self.first, q, event)
    }
}
