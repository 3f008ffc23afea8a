// The compile: a book's image into lent memory, or the refusal that the book deserves. The places are found first and
// written afterwards, so that a refusal leaves the memory as it was.
#![tactic(auto)]

mod explore;
mod source;
mod work;
mod write;

ghost use Rattle.std.specs.Prelude.{◌≡◌, length};
ghost use Rattle.book.specs.Model.{table_book, firsts_of};
ghost use Rattle.compile.specs.Answer.{compile_answer, compile_memory, told};
ghost use Rattle.compile.specs.Explore.{Ready};
ghost use Rattle.compile.specs.Write.{Makes};

use book::Table;
use explore::Exploration;
use meaning::{Reason, Refusal};
use source::Source;
use work::Places;
use write::write_image;

// What was made: an image of so many bytes, with so many places and edges.
#[derive(Clone, Copy, Debug, PartialEq, Eq)]
pub struct Made {
    pub length: usize,
    pub places: usize,
    pub edges: usize,
}

// The image of the book of a state table. All entries are empty at the start: nothing of an earlier compile counts.
fn compile_table(table: Table, out: &mut [u8]) -> Result<Made, Refusal>
    requires { Ready table.bytes.now table.states (firsts_of (table_book table.bytes.now table.states)) }
    ensures { Makes (table_book table.entry.bytes.now table.entry.states) out.old out.new (told result) }
{
    let source = Source::new(table);
    let mut found = Exploration {
        source: &source,
        places: Places::new(),
    };
    let edges = found.explore()?;
    if 4096 < edges {
        return Err(Reason::Edges.into());
    }
    let length = 14 * found.places.count() + 4 * edges + 12;
    if out.len() < length {
        return Err(Reason::Room.into());
    }
    write_image(&source, &found.places, edges, out);
    Ok(Made {
        length,
        places: found.places.count(),
        edges,
    })
}

// The image of a book, whatever its bytes: image length, places and edges; or refused, by the book's reasons, or for
// its places, its edges or the room.
pub fn compile(book: &[u8], out: &mut [u8]) -> Result<Made, Refusal>
    ensures answer { told result ≡ compile_answer book.now (length out.old) }
    ensures memory { out.new ≡ compile_memory book.now out.old }
{
    let counts = book::check_book(book)?;
    let at = book::table_at(book);
    let table = Table {
        bytes: &book[at..],
        states: counts.states,
    };
    compile_table(table, out)
}
