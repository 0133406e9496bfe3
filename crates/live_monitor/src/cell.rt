//! The cell in which the totals stand, and the law that all its steps keep.

ghost use Rattle.std.specs.Prelude.{◌≡◌, ◌≤◌, ◌<◌, ◌+◌, ◌^◌, ◌⊎◌, ◌∷◌, [], IfOk, slice_index};
ghost use Rattle.crossbeam_utils.specs.Seq.{cell_view, IsSamePass};
ghost use Rattle.live_monitor.specs.declared.cell.Role.TheVariants.{Reader, Writer};
ghost use Rattle.live_monitor.specs.Totals.{AreInOrder, AreAtLeast};
ghost use Rattle.live_monitor.specs.Law.{founder, writer, reader, risen, told, joined, Loaded};

use crate::opening::Opening;
use crate::totals::Totals;
use ale_base::OutOfMemory;
use atomic_table::{Join, Split};
use crossbeam_utils::atomic::seq_cell::{Pass, RuledSeqCell};
use crossbeam_utils::rule::{Outcome, Protocol};
use std::alloc::Global;
use std::marker::PhantomData;
use std::sync::Wait;

/// What a pass of the cell is for.
pub enum Role {
    /// It came with the cell, which has not started yet.
    Founder,
    /// It stores. There is one.
    Writer,
    /// It loads.
    Reader,
    /// It was joined to another one.
    Spent,
}

/// What a pass of the cell knows. It exists in proofs alone: no value of it is made.
pub struct View {
    pub role: Role,
    /// The totals at the start.
    pub start: Totals,
    /// What it has stored or seen last.
    pub seen: Totals,
    /// What the writer has heard that a reader has seen.
    pub heard: Totals,
}

/// The law of the cell.
pub struct Law;

impl Protocol<[u64; 3], View> for Law {
    ghost use Rattle.live_monitor.specs.Law.{Kept, founder};

    ghost holds = { Kept };

    ghost first = { founder };
}

/// The founder becomes the writer, and the first reader comes from it.
struct Opens<S: Opening> {
    start: PhantomData<S>,
}

impl<S: Opening> Split<View> for Opens<S> {
    ghost use Rattle.live_monitor.specs.Law.{writer, reader};

    ghost left = { λ view. writer S.start S.start };

    ghost right = { λ view. reader S.start S.start };
}

/// The writer stores.
struct Stores;

impl Outcome<[u64; 3], View> for Stores {
    ghost use Rattle.live_monitor.specs.Law.{Stored};

    ghost then = { Stored };
}

/// A reader loads.
struct Loads;

impl Outcome<[u64; 3], View> for Loads {
    ghost use Rattle.live_monitor.specs.Law.{Loaded};

    ghost then = { Loaded };
}

/// A new reader is told what a writer stored or a reader saw last.
struct Tells;

impl Split<View> for Tells {
    ghost use Rattle.live_monitor.specs.Law.{told};

    ghost left = { λ view. view };

    ghost right = { told };
}

/// A reader takes in what another one has seen.
struct Joins;

impl Join<View> for Joins {
    ghost use Rattle.live_monitor.specs.Law.{joined, spent};

    ghost both = { joined };

    ghost spent = { spent };
}

/// The writer hears what a reader has seen.
struct Hears;

impl Join<View> for Hears {
    ghost use Rattle.live_monitor.specs.Law.{hearing, spent};

    ghost both = { hearing };

    ghost spent = { spent };
}

/// The writer loads, and compares what it heard with what it stored.
struct Recalls;

impl Outcome<[u64; 3], View> for Recalls {
    ghost use Rattle.live_monitor.specs.Law.{Recalled};

    ghost then = { Recalled };
}

/// The cell. Its three words are by how much the totals rose since the start.
pub(crate) type Cell = RuledSeqCell<[u64; 3], View, Law, 3>;

/// A pass of the cell. It has no bytes.
pub(crate) type Place = Pass<[u64; 3], View>;

/// A cell that has not started yet, and its founder.
pub(crate) fn new_cell(alloc: Global) -> Result<(Cell, Place), OutOfMemory>
    ensures { IfOk result (λ made. (made.1.table_id ≡ made.0.table.shared.table_id) × (cell_view made.1 ≡ founder)) }
{
    Ok(Cell::ruled(alloc, [0, 0, 0])?)
}

/// The cell starts with these totals: its founder becomes the writer, and the first reader comes from it. The totals are an argument for
/// the proofs alone: what the call picks for `S` it picks by its arguments.
pub(crate) fn open<S: Opening>(cell: &Cell, place: &mut Place, start: Totals) -> Place
    requires start { start ≡ S.start }
    requires order { AreInOrder start }
    requires cell { place.old.table_id ≡ cell.now.table.shared.table_id }
    requires founder { cell_view place.old ≡ founder }
    ensures writer { IsSamePass place.old place.new × (cell_view place.new ≡ writer start start) }
    ensures reader { (result.table_id ≡ place.old.table_id) × (cell_view result ≡ reader start start) }
{
    let _ = start;
    cell.split_pass::<Opens<S>>(place)
}

/// The writer stores by how much the totals rose since the start.
pub(crate) fn store<R: Wait>(rt: &R, cell: &Cell, place: &mut Place, words: [u64; 3])
    requires cell { place.old.table_id ≡ cell.now.table.shared.table_id }
    requires writer { (cell_view place.old).role ≡ Writer }
    requires order { AreInOrder (risen (cell_view place.old).start words) }
    requires rises { AreAtLeast (risen (cell_view place.old).start words) (cell_view place.old).seen }
    requires fits { (risen (cell_view place.old).start words).committed < 2 ^ 64 }
    ensures cell { IsSamePass place.old place.new }
    ensures stored { cell_view place.new ≡ writer (cell_view place.old).start (risen (cell_view place.old).start words) }
{
    cell.swap_as::<Stores, R>(rt, place, words);
}

/// A reader loads by how much the totals rose since the start.
pub(crate) fn load<R: Wait>(rt: &R, cell: &Cell, place: &mut Place) -> [u64; 3]
    requires cell { place.old.table_id ≡ cell.now.table.shared.table_id }
    requires reader { (cell_view place.old).role ≡ Reader }
    ensures cell { IsSamePass place.old place.new }
    ensures loaded { Loaded (cell_view place.old) result result (cell_view place.new) }
{
    cell.load_as::<Loads, R>(rt, place)
}

/// A new reader, which has seen what this writer stored or this reader saw last.
pub(crate) fn tell(cell: &Cell, place: &mut Place) -> Place
    requires cell { place.old.table_id ≡ cell.now.table.shared.table_id }
    requires role { ((cell_view place.old).role ≡ Writer) ⊎ ((cell_view place.old).role ≡ Reader) }
    ensures same { IsSamePass place.old place.new × (cell_view place.new ≡ cell_view place.old) }
    ensures told { (result.table_id ≡ place.old.table_id) × (cell_view result ≡ told (cell_view place.old)) }
    ensures at_rest { result.me.1 ≡ [] }
{
    cell.split_pass::<Tells>(place)
}

/// A reader takes in what another one has seen.
pub(crate) fn join(cell: &Cell, place: &mut Place, other: Place)
    requires cell { place.old.table_id ≡ cell.now.table.shared.table_id }
    requires other { other.table_id ≡ place.old.table_id }
    requires readers { ((cell_view place.old).role ≡ Reader) × ((cell_view other).role ≡ Reader) }
    ensures { IsSamePass place.old place.new × (cell_view place.new ≡ joined (cell_view place.old) (cell_view other)) }
{
    // What is joined is a new pass that was told the same, since only of a new one it is known that it holds no slot.
    let mut other = other;
    let part = tell(cell, &mut other);
    cell.join_pass::<Joins>(place, part);
}

/// What a reader, the other one, has seen is at most what the writer stored last. Neither of them knows it of the other, so the writer
/// hears what the reader has seen, and loads.
pub(crate) fn compare<R: Wait>(rt: &R, cell: &Cell, place: &mut Place, other: &mut Place)
    requires cell { (place.old.table_id ≡ cell.now.table.shared.table_id) × (other.old.table_id ≡ place.old.table_id) }
    requires writer { cell_view place.old ≡ writer (cell_view place.old).start (cell_view place.old).seen }
    requires reader { (cell_view other.old).role ≡ Reader }
    ensures writer { IsSamePass place.old place.new × (cell_view place.new ≡ cell_view place.old) }
    ensures reader { IsSamePass other.old other.new × (cell_view other.new ≡ cell_view other.old) }
    ensures at_most { AreAtLeast (cell_view place.old).seen (cell_view other.old).seen }
{
    let part = tell(cell, other);
    cell.join_pass::<Hears>(place, part);
    cell.load_as::<Recalls, R>(rt, place);
}
