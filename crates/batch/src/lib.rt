// The public call for a whole array of requests (document 02, Item 2): all are granted, or none. The table and the list are
// checked once; each request then goes to `request` on a table that is known to pass, which a grant leaves so for the next
// one. The mappings before stand in the work table, and are put back where a request is refused. What is lent comes one by one,
// as C has it and as the equation that is promised names it.
#![tactic(auto)]

ghost use Rattle.std.specs.Prelude.{◌≡◌, [], ◌∷◌, length};
ghost use Rattle.model.specs.Rows.{all, verdict};
ghost use Rattle.model.specs.Table.{operations_row};
ghost use Rattle.model.specs.Calls.{lent_rows, reply_of};
ghost use Rattle.batches.specs.Batch.{requests_in, batch_row, work_row, bind_batch, batch_reply};
ghost use Rattle.table.specs.Places.{lent};
ghost use Rattle.change.specs.Change.{FirstBehind};
ghost use Rattle.request.specs.Bound.{lent_words, lent_of, Checked};
ghost use Rattle.batch.specs.Turns.{one, turned, committed};

use batches::BatchRefusal;
use change::Made;
use model::{Grant, Refusal, Request, Space};
use request::Lent;
use rules::CheckedSpace;
use table::Table;

const MOST_RECORDS: usize = 64;

// Row 12: whole records, and not too many.
fn are_records(bytes: &[u8]) -> bool
    ensures { result ≡ all (batch_row bytes.now).tests }
{
    (bytes.len() % record::RECORD_BYTES == 0) & (bytes.len() <= MOST_RECORDS * record::RECORD_BYTES)
}

// Rows 1, 2, 3, 15, 4, 5, 17 and 18, with so many words lent to work in and for operations.
fn lent_verdict(
    s: Space,
    l: &Lent<'_>,
    work_words: usize,
    operation_words: usize,
) -> Result<(), Refusal>
    ensures { reply_of result ≡ verdict (lent_rows s (operations_row operation_words (lent_of l.now).table ∷ work_row work_words (lent_of l.now).table ∷ []) (lent_of l.now)) }
{
    l.lengths_verdict(s, operation_words)?;
    if work_words != l.table.len() {
        return Err(Refusal::BadWorkLength);
    }
    l.contents_verdict(CheckedSpace::new(s))
}

// A request in its turn: rows 13 and 14, of which no flag is served, 6 to 11 and 16, or the table cut and the operations
// from the first word on. The first mapping that ends behind its address is at `place`. Table, count and operations are no
// struct: each turn is lent another part of the operations, and it would be put together anew for each.
fn turn(
    s: Space,
    table: &mut [u64],
    count: usize,
    operations: &mut [u64],
    r: Request,
    place: usize,
) -> Result<Made, Refusal>
    requires { Checked s (lent table.old count) × FirstBehind r.address (lent table.old count) place }
    ensures { one s (lent table.old count) operations.old r ≡ record { reply = reply_of result; table = table.new; operations = operations.new } }
{
    rules::form_verdict(r, 0)?;
    request::bind_known(s, table, count, operations, r, place)
}

// All records, one after another, until one is refused: each is lent the operation words that those before it left. Its place
// is mostly near that of the one before.
fn turns(
    s: Space,
    table: &mut [u64],
    count: usize,
    operations: &mut [u64],
    records: &[u8],
) -> Result<Made, BatchRefusal>
    requires { Checked s (lent table.old count) }
    ensures { turned s 0 (requests_in records.now) (lent table.old count) operations.old ≡ record { reply = batch_reply result; table = table.new; operations = operations.new } }
{
    let mut made = Made {
        operations: 0,
        count,
    };
    let mut place = 0;
    let (records, _) = records.as_chunks::<{ record::RECORD_BYTES }>();
    for (i, bytes) in records.iter().enumerate() {
        let r = record::fields(bytes);
        place = Table::new(table, made.count).first_near(r.address, place);
        let left = &mut operations[cut::OPERATION_WORDS * made.operations..];
        // No map_err and `?`: tried, and the answers behind the closure did not close.
        match turn(s, table, made.count, left, r, place) {
            Ok(next) => {
                made = Made {
                    operations: made.operations + next.operations,
                    count: next.count,
                };
            }
            Err(refusal) => return Err(BatchRefusal { refusal, place: i }),
        }
    }
    Ok(made)
}

// All or none: the table's mappings are kept in the work table, and put back where a request is refused; behind them there
// were zeros. Then no operation is left either. The work table is zeros afterwards.
fn all_or_none(
    s: Space,
    ranges: usize,
    table: &mut [u64],
    count: usize,
    work: &mut [u64],
    operations: &mut [u64],
    records: &[u8],
) -> Result<Grant, BatchRefusal>
    requires { Checked s (lent table.old count) × (length work.old ≡ length table.old) }
    ensures { committed ranges (turned s 0 (requests_in records.now) (lent table.old count) operations.old) table.old work.old operations.old ≡ record { answer = batch_reply result; table = table.new; work = work.new; operations = operations.new } }
{
    words::store(work, 0, &table[..4 * count]);
    match turns(s, table, count, operations, records) {
        Err(refusal) => {
            words::store(table, 0, &work[..4 * count]);
            words::clear(table, 4 * count, table.len());
            work.fill(0);
            operations.fill(0);
            Err(refusal)
        }
        Ok(made) => {
            work.fill(0);
            Ok(Grant {
                operations: made.operations,
                count: made.count,
                ranges,
            })
        }
    }
}

// Maps and unmaps, by 0 to 64 records in a row, all or none. The batch's own refusals come first, 12, 1, 2, 3, 15, 4, 5, 17
// and 18, and change no word; then each request's in its turn, 13, 14, 6 to 11 and 16, with its place, and these leave the
// table as it was and zeros to work in and for operations. A grant leaves the table as it is afterwards, each request's
// operations behind those of the one before, and zeros to work in.
pub fn bind_batch(
    s: Space,
    ranges: &[u64],
    range_count: usize,
    table: &mut [u64],
    count: usize,
    work: &mut [u64],
    operations: &mut [u64],
    records: &[u8],
) -> Result<Grant, BatchRefusal>
    ensures { bind_batch s (lent_words ranges.now range_count table.old count) work.old operations.old records.now ≡ record { answer = batch_reply result; table = table.new; work = work.new; operations = operations.new } }
{
    if !are_records(records) {
        return Err(BatchRefusal::from(Refusal::BadRecordLength));
    }
    let lent = Lent {
        ranges,
        range_count,
        table,
        count,
    };
    lent_verdict(s, &lent, work.len(), operations.len())?;
    all_or_none(s, range_count, table, count, work, operations, records)
}
