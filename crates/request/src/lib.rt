// One request whose form is right, on a table and a list of sparse ranges: what the public calls, of single requests and of
// batches, share. Internal: a batch's requests come to a table that is known to pass.
#![tactic(auto)]

ghost use Rattle.std.specs.Prelude.{◌≡◌, [], ◌∷◌};
ghost use Rattle.model.specs.Rows.{verdict};
ghost use Rattle.model.specs.Table.{operations_row};
ghost use Rattle.model.specs.Ranges.{list_row};
ghost use Rattle.model.specs.Calls.{lent_rows, reply_of};
ghost use Rattle.table.specs.Places.{lent};
ghost use Rattle.ranges.specs.Lists.{lent_list};
ghost use Rattle.change.specs.Change.{FirstBehind};
ghost use Rattle.request.specs.Bound.{lent_words, lent_of, length_rows, contents_rows, partly, Checked, bound_known};

use change::Made;
use model::{Grant, Refusal, Request, Space};
use rules::CheckedSpace;
use table::{Rows, Table};

// Row 18.
#[tactic(auto, unfolding(model::specs::Rows::decide))]
fn list_verdict(s: CheckedSpace, ranges: &[u64], range_count: usize) -> Result<(), Refusal>
    ensures { reply_of result ≡ verdict (list_row s.space (lent_list ranges.now range_count) ∷ []) }
{
    if !ranges::keeps_rules(s, ranges, range_count) {
        return Err(Refusal::BadRanges);
    }
    Ok(())
}

// What is lent to read: a list of sparse ranges and a table, each with its count.
#[derive(Clone, Copy)]
pub struct Lent<'a> {
    pub ranges: &'a [u64],
    pub range_count: usize,
    pub table: &'a [u64],
    pub count: usize,
}

impl Lent<'_> {
    // Rows 1, 2 and 3, with so many words lent for operations.
    #[tactic(auto, unfolding(model::specs::Rows::decide))]
    pub fn lengths_verdict(&self, s: Space, operation_words: usize) -> Result<(), Refusal>
        ensures { reply_of result ≡ verdict (length_rows s operation_words self.now.table.now) }
    {
        if !rules::space_keeps_rules(s) {
            return Err(Refusal::BadSpace);
        }
        if !inspect::length_is_right(self.table) {
            return Err(Refusal::BadTableLength);
        }
        if !cut::operations_fit(operation_words, self.table.len() / 4) {
            return Err(Refusal::ShortOperations);
        }
        Ok(())
    }

    // Rows 4, 5, 17 and 18.
    pub fn contents_verdict(&self, s: CheckedSpace) -> Result<(), Refusal>
        ensures { reply_of result ≡ verdict (contents_rows s.space (lent_of self.now)) }
    {
        inspect::contents_verdict(s, self.table, self.count)?;
        self.list_verdict(s)
    }

    // Row 18. A call with no list is to be as quick as without lists: the list is lent on as a part, so that nothing is stored
    // for a call that is not made.
    #[inline(always)]
    #[tactic(auto, using(crate::proofs::Checked::none_listed))]
    pub fn list_verdict(&self, s: CheckedSpace) -> Result<(), Refusal>
        ensures { reply_of result ≡ verdict (list_row s.space (lent_of self.now).ranges ∷ []) }
    {
        if self.ranges.is_empty() && self.range_count == 0 {
            return Ok(());
        }
        list_verdict(s, &self.ranges[0..], self.range_count)
    }

    // Rows 1 to 5, 17 and 18 of a request.
    #[inline(always)]
    fn verdict(&self, s: Space, operation_words: usize) -> Result<(), Refusal>
        ensures { reply_of result ≡ verdict (lent_rows s (operations_row operation_words (lent_of self.now).table ∷ []) (lent_of self.now)) }
    {
        self.lengths_verdict(s, operation_words)?;
        self.contents_verdict(CheckedSpace::new(s))
    }

    // Rows 1, 2, 4, 5, 17 and 18, of a look-up.
    #[tactic(auto, unfolding(model::specs::Rows::decide, model::specs::Table::table_rows, model::specs::Calls::lent_rows))]
    pub fn lookup_verdict(&self, s: Space) -> Result<(), Refusal>
        ensures { reply_of result ≡ verdict (lent_rows s [] (lent_of self.now)) }
    {
        if !rules::space_keeps_rules(s) {
            return Err(Refusal::BadSpace);
        }
        let checked = CheckedSpace::new(s);
        inspect::table_verdict(checked, self.table, self.count)?;
        self.list_verdict(checked)
    }
}

// A request whose form is right: rows 1 to 5, 17, 18 and 6 to 10. One without the flag goes on to row 11, and cuts the table
// from the first mapping that ends behind its address on; of one with it the grant says that these passed, and what is left
// is the list's. The list is only read. Inlined, with its checks: `change`, which a batch calls too, is a call, and one is
// enough.
#[inline(always)]
pub fn bind_request(
    s: Space,
    ranges: &[u64],
    range_count: usize,
    table: &mut [u64],
    count: usize,
    operations: &mut [u64],
    r: Request,
) -> Result<Grant, Refusal>
    ensures { partly s (lent_words ranges.now range_count table.old count) operations.old r ≡ record { answer = reply_of result; table = table.new; ranges = ranges.now; operations = operations.new } }
{
    let lent = Lent {
        ranges,
        range_count,
        table,
        count,
    };
    lent.verdict(s, operations.len())?;
    rules::request_verdict(s, r)?;
    if r.flags != 0 {
        return Ok(Grant {
            operations: 0,
            count,
            ranges: range_count,
        });
    }
    let place = Table::new(table, count).first_ending_behind(r.address);
    let made = change::change(r, table, count, operations, place)?;
    Ok(Grant {
        operations: made.operations,
        count: made.count,
        ranges: range_count,
    })
}

// A request without the flag on a table that is known to pass the rows up to 17, as each of a batch is: rows 6 to 11 and 16.
// The first mapping that ends behind its address is at `place`. What is known (`Checked`, `FirstBehind`) is no field of a
// struct: the table is lent to write, and a ghost field beside a `&mut` has to stay true at each write.
pub fn bind_known(
    s: Space,
    table: &mut [u64],
    count: usize,
    operations: &mut [u64],
    r: Request,
    place: usize,
) -> Result<Made, Refusal>
    requires { Checked s (lent table.old count) × FirstBehind r.address (lent table.old count) place }
    ensures { bound_known s (lent table.old count) operations.old r ≡ record { reply = reply_of result; table = table.new; operations = operations.new } }
{
    rules::request_verdict(s, r)?;
    change::change(r, table, count, operations, place)
}
