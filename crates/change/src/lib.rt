// Carries out a request that is known to be in order on a table that is known to be valid, in place. Want of room alone
// refuses it, in the table or for its operations.
#![tactic(auto)]

ghost use Rattle.std.specs.Prelude.{◌≡◌};
ghost use Rattle.model.specs.Cut.{after};
ghost use Rattle.table.specs.Places.{lent, between};
ghost use Rattle.table.specs.Splice.{mappings_of};
ghost use Rattle.model.specs.Calls.{reply_of};
ghost use Rattle.change.specs.Change.{Ready, FirstBehind, Placed, BehindHits, changed};

use cut::{Cut, Hit};
use model::{Refusal, Request};
use table::Replacement;

// What carrying out a request made: so many operations, and a table of so many mappings.
#[derive(Clone, Copy)]
pub struct Made {
    pub operations: usize,
    pub count: usize,
}

// The place behind the mappings that a request hits, of which the first is at place `lo`: there the first stands that starts
// behind the request's last byte.
fn behind_hits(r: Request, t: &[u64], count: usize, lo: usize) -> usize
    requires { Ready r (lent t.now count) × FirstBehind r.address (lent t.now count) lo }
    ensures { BehindHits r (lent t.now count) lo result }
{
    table::first_starting_behind(t, lo, count, cut::last_byte(r))
}

// What takes the place of the mappings hit: what is left of the first below the range, the new mapping, what is left of the
// last above the range.
fn replacement(hit: Cut, t: &[u64]) -> Replacement
    requires { Placed hit.request t.now hit.lo hit.hi }
    ensures { mappings_of result ≡ after hit.request (between t.now hit.lo hit.hi) }
{
    let new = cut::new(hit.request);
    if hit.lo == hit.hi {
        return Replacement {
            lower: None,
            new,
            upper: None,
        };
    }
    let first = Hit {
        request: hit.request,
        mapping: table::read_mapping(t, hit.lo),
    };
    let last = Hit {
        request: hit.request,
        mapping: table::read_mapping(t, hit.hi - 1),
    };
    Replacement {
        lower: cut::some_left(first.lower_part()),
        new,
        upper: cut::some_left(last.upper_part()),
    }
}

// The request carried out: its operations from the first word on, and the table in its place. The first mapping that ends
// behind its address is at place `lo`. Where the table or the words for its operations have no room, nothing has changed.
// Words and a count, and no `Table`, since the table is lent to write (`table::splice` says why).
pub fn change(
    r: Request,
    t: &mut [u64],
    count: usize,
    operations: &mut [u64],
    lo: usize,
) -> Result<Made, Refusal>
    requires { Ready r (lent t.old count) × FirstBehind r.address (lent t.old count) lo }
    ensures { changed r (lent t.old count) operations.old ≡ record { reply = reply_of result; table = t.new; operations = operations.new } }
{
    let hi = behind_hits(r, t, count, lo);
    let hit = Cut { request: r, lo, hi };
    let new = replacement(hit, t);
    let after = lo + table::replacement_length(new) + (count - hi);
    let is_full = t.len() / 4 < after;
    if is_full {
        return Err(Refusal::NoRoom);
    }
    let number = hit.operations_number();
    if operations.len() < cut::OPERATION_WORDS * number {
        return Err(Refusal::ShortOutput);
    }
    hit.write_operations(t, operations);
    table::splice(t, count, lo, hi, new);
    Ok(Made {
        operations: number,
        count: after,
    })
}
