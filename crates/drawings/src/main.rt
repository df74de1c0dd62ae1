// The sixteen drawings of document 000, read without joining, the unmarked rows of document 01's
// table, and document 02's keep mark. Each row is asked of the public call, and every word that the
// call answers and leaves is compared with the words that the row expects.
#![tactic(auto)]

mod rows;
mod show;

ghost use Rattle.std.specs.Prelude.{◌≡◌, ◌<◌, length, MatchOption};
ghost use Rattle.drawings.specs.Rows.{FirstDifference};

use bind::Numbers;
use model::{Grant, Range, Refusal, Space};
use rows::{OPERATIONS, ROOM, Row, count, mapping_words, operation_words};
use show::{Drawn, first};
use std::fmt;

// A row that was asked: what the call answered, and the words that it left.
#[derive(Clone, Copy)]
struct Asked<'a> {
    row: Row<'a>,
    answer: Result<Grant, Refusal>,
    table: [[u64; 4]; ROOM],
    operations: [[u64; 14]; OPERATIONS],
}

// Asks the public call to map, in a space of 16 pages with nothing reserved, on as many words as a
// table with the row's room has. The operation slice holds nines before.
fn ask(row: Row<'_>) -> Asked<'_> {
    let space = Space {
        start: 0,
        size: 65536,
        reserved: Range { start: 0, size: 0 },
    };
    let request = Numbers {
        op: 0,
        address: row.request.address,
        size: row.request.size,
        object: row.request.object,
        offset: row.request.offset,
    };
    let mut table = row.old.map(mapping_words);
    let mut operations = [[9; 14]; OPERATIONS];
    let answer = bind::bind(
        space,
        &[],
        0,
        table[..row.room].as_flattened_mut(),
        count(&row.old),
        operations[..row.room + 1].as_flattened_mut(),
        request,
    );
    Asked {
        row,
        answer,
        table,
        operations,
    }
}

// A row's line, from the words that the call was given, answered and left.
impl fmt::Display for Asked<'_> {
    fn fmt<W: fmt::Write>(&self, f: &mut fmt::Formatter<W>) -> fmt::Result {
        let row = self.row;
        let given = row.old.map(mapping_words);
        let old = Drawn(first(&given, count(&row.old)));
        write!(f, "| {} | {old}", row.label)?;
        if row.room != ROOM {
            write!(f, ", capacity {}", row.room)?;
        }
        write!(f, " | map {} | ", Drawn(row.request))?;
        match self.answer {
            Ok(grant) => {
                let operations = Drawn(first(&self.operations, grant.operations));
                let table = Drawn(first(&self.table, grant.count));
                write!(f, "{operations}; operations {}, ", grant.operations)?;
                write!(f, "count {} | {table} |", grant.count)
            }
            // A refusal leaves the count.
            Err(refusal) => {
                let table = Drawn(first(&self.table, count(&row.old)));
                write!(f, "refused {} | {table} |", rules::refusal_number(refusal))
            }
        }
    }
}

// The first place where two runs of words differ, if they do.
fn first_difference(words: &[u64], expected: &[u64]) -> Option<usize>
    requires { length words.now ≡ length expected.now }
    ensures { MatchOption result (words.now ≡ expected.now) (λ place. (place < length words.now) × FirstDifference words.now expected.now place) }
{
    words
        .iter()
        .zip(expected)
        .position(|(word, expected)| word != expected)
}

// Runs and prints a line of the table: whether a word differs from what the row expects. A write that
// fails is passed over: the rows are compared all the same.
fn differs(rt: &impl Print, line: &str) -> bool {
    let Some(row) = Row::parse(line) else {
        let _ = println!(rt; "{line} DIFFERS: no row");
        return true;
    };
    let asked = ask(row);
    let _ = print!(rt; "{asked}");
    let answer = row.expects(asked.answer);
    if !answer {
        let _ = print!(rt; " DIFFERS: answer");
    }
    let expected = row.new.map(mapping_words);
    let table = first_difference(asked.table.as_flattened(), expected.as_flattened());
    if let Some(word) = table {
        let _ = print!(rt; " DIFFERS: table word {word}");
    }
    let expected = row
        .result
        .unwrap_or([None; OPERATIONS])
        .map(operation_words);
    let operations = first_difference(asked.operations.as_flattened(), expected.as_flattened());
    if let Some(word) = operations {
        let _ = print!(rt; " DIFFERS: operations word {word}");
    }
    let _ = println!(rt);
    !answer || table.is_some() || operations.is_some()
}

// Runs every line of a table, and says how many rows there are and how many differ.
fn run(rt: &impl Print, table: &str) {
    let differ = table.lines().filter(|line| differs(rt, line)).count();
    let _ = println!(rt; "{} rows, {differ} differ", table.lines().count());
}

// A row: label; old mappings; what to map; the operations, each with its kind, keep, mapping, lower
// and upper rest, or a refusal; the mappings afterwards. In pages: [0,2) 7@1 is object 7 at page
// offset 1. A `-` is an absent rest. 1 to 16 are document 000's, 17 to 19 document 01's unmarked ones,
// 20 to 23 of document 02's keep mark: 13 and 14 with contiguous offsets; offsets below the address;
// one below it and one above.
fn main(rt: HostRuntime) {
    let _ = println!(rt; "| | old | request | result | table afterwards |");
    let _ = println!(rt; "|---|---|---|---|---|");
    run(
        &rt,
        "| 1 | [0,1) 7@1 | [0,1) 7@1 | unmap keep 1 [0,1) 7@1 - -, map keep 0 [0,1) 7@1 - - | [0,1) 7@1 |
| 2 | [0,1) 7@1 | [0,1) 7@4 | unmap keep 0 [0,1) 7@1 - -, map keep 0 [0,1) 7@4 - - | [0,1) 7@4 |
| 3 | [0,1) 7@1 | [0,1) 9@1 | unmap keep 0 [0,1) 7@1 - -, map keep 0 [0,1) 9@1 - - | [0,1) 9@1 |
| 4 | [0,1) 7@1 | [0,2) 7@1 | unmap keep 1 [0,1) 7@1 - -, map keep 0 [0,2) 7@1 - - | [0,2) 7@1 |
| 5 | [0,2) 7@1 | [0,1) 9@1 | remap keep 0 [0,2) 7@1 - [1,2) 7@2, map keep 0 [0,1) 9@1 - - | [0,1) 9@1, [1,2) 7@2 |
| 6 | [0,2) 7@1 | [0,1) 7@1 | remap keep 1 [0,2) 7@1 - [1,2) 7@2, map keep 0 [0,1) 7@1 - - | [0,1) 7@1, [1,2) 7@2 |
| 7 | [0,2) 7@1 | [1,2) 9@4 | remap keep 0 [0,2) 7@1 [0,1) 7@1 -, map keep 0 [1,2) 9@4 - - | [0,1) 7@1, [1,2) 9@4 |
| 8 | [0,2) 7@1 | [1,2) 7@2 | remap keep 1 [0,2) 7@1 [0,1) 7@1 -, map keep 0 [1,2) 7@2 - - | [0,1) 7@1, [1,2) 7@2 |
| 9 | [0,2) 7@1 | [1,3) 9@4 | remap keep 0 [0,2) 7@1 [0,1) 7@1 -, map keep 0 [1,3) 9@4 - - | [0,1) 7@1, [1,3) 9@4 |
| 10 | [0,2) 7@1 | [1,3) 7@2 | remap keep 1 [0,2) 7@1 [0,1) 7@1 -, map keep 0 [1,3) 7@2 - - | [0,1) 7@1, [1,3) 7@2 |
| 11 | [0,3) 7@1 | [1,2) 9@4 | remap keep 0 [0,3) 7@1 [0,1) 7@1 [2,3) 7@3, map keep 0 [1,2) 9@4 - - | [0,1) 7@1, [1,2) 9@4, [2,3) 7@3 |
| 12 | [0,3) 7@1 | [1,2) 7@2 | remap keep 1 [0,3) 7@1 [0,1) 7@1 [2,3) 7@3, map keep 0 [1,2) 7@2 - - | [0,1) 7@1, [1,2) 7@2, [2,3) 7@3 |
| 13 | [1,2) 7@1 | [0,2) 7@1 | unmap keep 0 [1,2) 7@1 - -, map keep 0 [0,2) 7@1 - - | [0,2) 7@1 |
| 14 | [1,2) 7@1 | [0,3) 7@1 | unmap keep 0 [1,2) 7@1 - -, map keep 0 [0,3) 7@1 - - | [0,3) 7@1 |
| 15 | [1,3) 7@1 | [0,2) 9@4 | remap keep 0 [1,3) 7@1 - [2,3) 7@2, map keep 0 [0,2) 9@4 - - | [0,2) 9@4, [2,3) 7@2 |
| 16 | [0,1) 7@1, [2,3) 7@3 | [1,2) 7@2 | map keep 0 [1,2) 7@2 - - | [0,1) 7@1, [1,2) 7@2, [2,3) 7@3 |
| 17, capacity 3 | [0,3) 7@1 | [1,2) 9@4 | remap keep 0 [0,3) 7@1 [0,1) 7@1 [2,3) 7@3, map keep 0 [1,2) 9@4 - - | [0,1) 7@1, [1,2) 9@4, [2,3) 7@3 |
| 18 | none | [15,16) 9@0 | map keep 0 [15,16) 9@0 - - | [15,16) 9@0 |
| 19 | [0,3) 7@1 | [20,20) 9@0 | refused 6 | [0,3) 7@1 |
| 20 | [1,2) 7@1 | [0,2) 7@0 | unmap keep 1 [1,2) 7@1 - -, map keep 0 [0,2) 7@0 - - | [0,2) 7@0 |
| 21 | [1,2) 7@1 | [0,3) 7@0 | unmap keep 1 [1,2) 7@1 - -, map keep 0 [0,3) 7@0 - - | [0,3) 7@0 |
| 22 | [2,5) 7@0 | [3,4) 7@1 | remap keep 1 [2,5) 7@0 [2,3) 7@0 [4,5) 7@2, map keep 0 [3,4) 7@1 - - | [2,3) 7@0, [3,4) 7@1, [4,5) 7@2 |
| 23 | [1,2) 7@0 | [1,2) 7@2 | unmap keep 0 [1,2) 7@0 - -, map keep 0 [1,2) 7@2 - - | [1,2) 7@2 |
",
    );
}
