// An elapsed call (specs/Elapsing): time passes for each record alone, and what it sends goes into its cell.
ghost use Rattle.std.specs.Prelude.{◌≡◌, true, ◌*◌, ◌<◌, ◌≤◌, Ok, set};
ghost use Rattle.octets.specs.Octets.{splice};
ghost use Rattle.record.specs.WellFormed.{well_formed};
ghost use Rattle.gap.specs.Elapsed.{elapsed_of};
ghost use Rattle.table.specs.Table.{table_formed, record_at};
ghost use Rattle.member.specs.Sizes.{cell_size};
ghost use Rattle.member.specs.Elapsing.{longest, passing, sent_by, cell_of, ElapsedEndsAs};

use crate::{CELLS, Cell, Passed};
use gap::Event;
use record::Record;

// The octets of one of the eight cells.
const CELL: usize = CELLS / 8;

const NO_CELL: Cell = Cell {
    event: Event::Nothing,
    len: 0,
};

// What `ms` milliseconds do to record i, and what it sends in its cell.
// `ms ≤ longest`, here and in `pass_all`, is no type of its own: refusal 3 says it once, and `passing` and `elapsed_of` would take the type off again.
fn pass_one(before: Passed, cells: &mut [u8; CELLS], i: usize, ms: u32) -> Passed
    requires { (i < 8) × (well_formed (record_at before.table i) ≡ true) × (ms ≤ longest) }
    ensures { (result.table ≡ set before.table i (elapsed_of (record_at before.table i) ms).after)
        × (result.cells ≡ set before.cells i (cell_of (elapsed_of (record_at before.table i) ms)))
        × (cells.new ≡ splice cells.old (i * cell_size) (sent_by (elapsed_of (record_at before.table i) ms))) }
{
    let step = gap::elapsed_step(before.table[i], ms);
    let cell = &mut cells[i * CELL..(i + 1) * CELL];
    let len = sending::put_event(cell, step.after.terms, step.event);
    let mut after = before;
    after.table[i] = step.after;
    after.cells[i] = Cell {
        event: step.event,
        len,
    };
    after
}

// `ms` milliseconds pass for each record alone.
pub fn pass_all(table: [Record; 8], cells: &mut [u8; CELLS], ms: u32) -> Passed
    requires { (table_formed table ≡ true) × (ms ≤ longest) }
    ensures { ElapsedEndsAs (passing table ms) cells.old (record { answer = Ok result; cells = cells.new }) }
{
    let mut after = Passed {
        table,
        cells: [NO_CELL; 8],
    };
    // By index: i picks the record, its answer and its octets; a zip of `iter_mut` over each would take `after` apart and put it together, no plainer.
    for i in 0..8 {
        after = pass_one(after, cells, i, ms);
    }
    after
}
