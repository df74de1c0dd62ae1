// The script program on lent buffers: what stands at a place of the script, what one record does, and how far it is printed.
#![tactic(auto)]

ghost use Rattle.std.specs.Prelude.{◌≡◌, List, Bool, false, ℕ, ◌+◌, ◌-◌, ◌*◌, ◌≤◌, ◌<◌, length};
ghost use Rattle.program.specs.declared.ScriptRecord.TheVariants.{SetSpace, Bind, LookUp};
ghost use Rattle.program.specs.Script.{space_in, record_at, record_size, request_in, step_on, step, response_told};
ghost use Rattle.words.specs.Words.{moved};
ghost use Rattle.text.specs.Lines.{HasRoom};
ghost use Rattle.script.specs.Progress.{operation_at, start_progress, waits, stops, operation_count, Outstanding, Ready, Advances};
ghost use Rattle.script.specs.Program.{held, Does, TurnsFrom};

use model::{Operation, Range, Refusal, Space};
use program::{Response, ScriptRecord};
use text::Lines;

const SPACE_RECORD: usize = 34;

const REQUEST_RECORD: usize = 2 + record::RECORD_BYTES;

const ADDRESS_RECORD: usize = 10;

// The four numbers behind `SP`.
fn space_in(bytes: &[u8]) -> Space
    requires { 34 ≤ length bytes.now }
    ensures { result ≡ space_in bytes.now }
{
    let reserved = Range {
        start: record::u64_at(bytes, 18),
        size: record::u64_at(bytes, 26),
    };
    Space {
        start: record::u64_at(bytes, 2),
        size: record::u64_at(bytes, 10),
        reserved,
    }
}

// What stands at the front of the bytes.
#[tactic(auto, using(crate::proofs::Reading::reading))]
pub fn read_record(bytes: &[u8]) -> ScriptRecord
    ensures { result ≡ record_at bytes.now }
{
    match bytes {
        [] => ScriptRecord::End,
        [_] => ScriptRecord::Cut,
        [b'S', b'P', ..] if bytes.len() < SPACE_RECORD => ScriptRecord::Cut,
        [b'S', b'P', ..] => ScriptRecord::SetSpace(space_in(bytes)),
        [b'R', b'Q', ..] if bytes.len() < REQUEST_RECORD => ScriptRecord::Cut,
        [b'R', b'Q', ..] => ScriptRecord::Bind,
        [b'L', b'K', ..] if bytes.len() < ADDRESS_RECORD => ScriptRecord::Cut,
        [b'L', b'K', ..] => ScriptRecord::LookUp(record::u64_at(bytes, 2)),
        _ => ScriptRecord::OtherMark,
    }
}

// The program between two records or operations: its space, the counts of the list and of the table, the byte place of the next
// record in the whole script, and the operations of the last grant that are still to be written, `left` of them from the one
// numbered `next` on. `Prints` (specs/Streaming) speaks of `left` and of `stopped`.
#[derive(Clone, Copy)]
pub struct Progress {
    pub space: Space,
    pub ranges: usize,
    pub count: usize,
    pub place: u64,
    pub next: usize,
    pub left: usize,
    pub stopped: bool,
}

// Before the first byte of a script: a space of four zeros.
pub fn start() -> Progress
    ensures { result ≡ start_progress }
{
    let reserved = Range { start: 0, size: 0 };
    let space = Space {
        start: 0,
        size: 0,
        reserved,
    };
    Progress {
        space,
        ranges: 0,
        count: 0,
        place: 0,
        next: 0,
        left: 0,
        stopped: false,
    }
}

// What the program answers to a record, and how many bytes the record takes.
#[derive(Clone, Copy)]
pub struct Stepped {
    pub response: Response,
    pub taken: usize,
}

// The bytes end before a record does, and more can come.
fn waits(last: bool, response: Response) -> bool
    ensures { result ≡ waits last (response_told response) }
{
    !last && matches!(response, Response::Cut | Response::End)
}

// The program goes on to no further record.
fn stops(response: Response) -> bool
    ensures { result ≡ stops (response_told response) }
{
    matches!(
        response,
        Response::OtherMark | Response::Cut | Response::End
    )
}

// How many operations are to be written for it.
fn operation_count(response: Response) -> usize
    ensures { result ≡ operation_count (response_told response) }
{
    match response {
        Response::Granted(g) => g.operations,
        _ => 0,
    }
}

// The program at work: where it is, and the words that are lent for the list, the table and the operations.
#[derive(Drop)]
pub struct Program<'a> {
    pub progress: Progress,
    pub ranges: &'a mut [u64],
    pub table: &'a mut [u64],
    pub operations: &'a mut [u64],
}

impl Program<'_> {
    // `SP`: a granted one empties the list and the table, a refused one changes nothing.
    fn set_space(&mut self, new: Space) -> Response
        ensures { (bs : List ℕ) → Does (step_on (SetSpace new) (held self.old) bs) self.old result self.new }
    {
        if !rules::space_keeps_rules(new) {
            return Response::Refused(Refusal::BadSpace);
        }
        self.ranges.fill(0);
        self.table.fill(0);
        self.progress = Progress {
            space: new,
            ranges: 0,
            count: 0,
            ..self.progress
        };
        Response::Emptied(self.table.len() / 4)
    }

    // `RQ`: the request's 40 bytes go to the public call.
    fn bind_request(&mut self, request: &[u8]) -> Response
        ensures { (bs : List ℕ) → request_in bs ≡ request.now → Does (step_on Bind (held self.old) bs) self.old result self.new }
    {
        let p = self.progress;
        match bind::bind_record(
            p.space,
            self.ranges,
            p.ranges,
            self.table,
            p.count,
            self.operations,
            request,
        ) {
            Ok(g) => {
                self.progress.ranges = g.ranges;
                self.progress.count = g.count;
                Response::Granted(g)
            }
            Err(w) => Response::Refused(w),
        }
    }

    // `LK`.
    fn look_up(&self, x: u64) -> Response
        ensures { (bs : List ℕ) → Does (step_on (LookUp x) (held self.now) bs) self.now result self.now }
    {
        let p = self.progress;
        match bind::lookup(p.space, self.ranges, p.ranges, self.table, p.count, x) {
            Ok(seen) => Response::Shows(x, seen),
            Err(w) => Response::Refused(w),
        }
    }

    // One step of the program: the record at the front of the bytes, on what the program holds. Where the bytes end before the
    // record does, the answer is that it is cut, and nothing has changed.
    #[tactic(auto, using(crate::proofs::Stepping::request_there))]
    pub fn step(&mut self, bytes: &[u8]) -> Stepped
        ensures does { Does (step (held self.old) bytes.now) self.old result.response self.new }
        ensures takes { result.taken ≡ record_size (record_at bytes.now) }
    {
        let (response, taken) = match read_record(bytes) {
            ScriptRecord::SetSpace(new) => (self.set_space(new), SPACE_RECORD),
            ScriptRecord::Bind => (self.bind_request(&bytes[2..REQUEST_RECORD]), REQUEST_RECORD),
            ScriptRecord::LookUp(x) => (self.look_up(x), ADDRESS_RECORD),
            ScriptRecord::OtherMark => (Response::OtherMark, 0),
            ScriptRecord::Cut => (Response::Cut, 0),
            ScriptRecord::End => (Response::End, 0),
        };
        Stepped { response, taken }
    }

    // The next operation that is to be written, if its fourteen words are one.
    fn next_operation(&self) -> Option<Operation>
        requires { (0 < self.now.progress.left) × Outstanding self.now.operations.now self.now.progress.next self.now.progress.left }
        ensures { result ≡ operation_at self.now.operations.now self.now.progress.next }
    {
        let from = cut::OPERATION_WORDS * self.progress.next;
        let to = from + cut::OPERATION_WORDS;
        cut::read_operation(&self.operations[from..to])
    }

    // Its lines.
    fn write_operation(&mut self, lines: &mut Lines<'_>)
        requires { (0 < self.old.progress.left) × Outstanding self.old.operations.now self.old.progress.next self.old.progress.left × HasRoom lines.old 320 }
        ensures { (bs : List ℕ) (last : Bool) → TurnsFrom self.old bs last lines.old 0 self.new lines.new }
    {
        if let Some(operation) = self.next_operation() {
            lines.operation(operation);
        }
        self.progress.next += 1;
        self.progress.left -= 1;
    }

    // The next record, if its bytes are there or no more come: the step, and the line of its answer. How many bytes it took.
    // `bytes` and `last` are no fields of the program: each turn is lent what the one before left, and `last` goes with them.
    #[tactic(auto, using(crate::proofs::Coming::same_place, program::proofs::Records::record_fits))]
    fn answer(&mut self, bytes: &[u8], last: bool, lines: &mut Lines<'_>) -> usize
        requires { Ready self.old.progress self.old.operations.now bytes.now × (self.old.progress.left ≡ 0) × (self.old.progress.stopped ≡ false) × HasRoom lines.old 320 }
        ensures { TurnsFrom self.old bytes.now last lines.old result self.new lines.new }
    {
        let Stepped { response, taken } = self.step(bytes);
        if waits(last, response) {
            return 0;
        }
        lines.response(self.progress.place, response);
        self.progress = Progress {
            place: self.progress.place + taken as u64,
            next: 0,
            left: operation_count(response),
            stopped: stops(response),
            ..self.progress
        };
        taken
    }

    // The next operation, or else the next record.
    #[tactic(auto, using(crate::proofs::Turning::stopped_turns))]
    fn turn(&mut self, bytes: &[u8], last: bool, lines: &mut Lines<'_>) -> usize
        requires { Ready self.old.progress self.old.operations.now bytes.now × HasRoom lines.old 320 }
        ensures { TurnsFrom self.old bytes.now last lines.old result self.new lines.new }
    {
        if 0 < self.progress.left {
            self.write_operation(lines);
            return 0;
        }
        if self.progress.stopped {
            return 0;
        }
        self.answer(bytes, last, lines)
    }
}

// Where the turns of a call leave the program, how many bytes they took, and where their text ends.
#[derive(Clone, Copy)]
pub struct Turned {
    pub progress: Progress,
    pub taken: usize,
    pub end: usize,
}

// Turns, until the output is nearly full or there is nothing to print from the bytes at hand. The slices are lent one by one, as
// `Prints` (specs/Streaming) has them.
pub fn advance(
    p: Progress,
    ranges: &mut [u64],
    table: &mut [u64],
    operations: &mut [u64],
    bytes: &[u8],
    last: bool,
    out: &mut [u8],
) -> Turned
    requires { Ready p operations.old bytes.now }
    ensures { Advances p ranges.old table.old operations.old bytes.now last out.old result ranges.new table.new operations.new out.new }
{
    let mut program = Program {
        progress: p,
        ranges,
        table,
        operations,
    };
    let mut lines = Lines { out, end: 0 };
    let mut taken = 0;
    while lines.end + text::MOST_OPERATION <= lines.out.len() {
        let end = lines.end;
        taken += program.turn(&bytes[taken..], last, &mut lines);
        if lines.end == end {
            break;
        }
    }
    Turned {
        progress: program.progress,
        taken,
        end: lines.end,
    }
}

// Moves the unread bytes, from `from` up to `to`, to the front of the input, and answers how many they are.
pub fn keep_unread(input: &mut [u8], from: usize, to: usize) -> usize
    requires { (from ≤ to) × (to ≤ length input.old) }
    ensures { (result ≡ to - from) × (input.new ≡ moved input.old from 0 result) }
{
    input.copy_within(from..to, 0);
    to - from
}
