// The script program: reads a script from standard input, of any length and in any pieces, and prints what its records give.
// What is printed is made by `script::advance`; here are the buffers, the reads and the writes.
#![tactic(auto)]

ghost use Rattle.std.specs.Prelude.{◌≡◌, ◌+◌, ◌^◌, ◌≤◌, ◌<◌, length, codes, Some, MatchResult};
ghost use Rattle.vmbind.specs.declared.Failure.TheVariants.{Write};
ghost use Rattle.vmbind.specs.Buffers.{message};
ghost use Rattle.vmbind.specs.Buffers.{start_run, Below64KiB, got_of, Brings, Refilled, Printed, Writes, Held, Carries, Ran};

use script::Progress;
use std::io::{Read, Stdin, Stdout, Write};
use std::ops::ControlFlow;
use std::{fmt, io};

// The list of ranges, the table, and the operations of a request on it; with the input and the output they have 58,480 bytes
// together (`Below64KiB`).
const RANGE_WORDS: usize = 128;

const TABLE_WORDS: usize = 1024;

const OPERATION_WORDS: usize = 3598;

const INPUT_BYTES: usize = 8192;

const OUTPUT_BYTES: usize = 12288;

// Byte places below it, with the input behind them, fit 64 bits.
const MOST_PLACE: u64 = 0x8000_0000_0000_0000;

// Why a run ended before its script did. It displays as the line for standard error.
#[derive(Clone, Copy, Debug)]
enum Failure {
    Read,
    Write,
    TooLong,
}

impl fmt::Display for Failure {
    ghost output = { λ f. Some (codes (message f)) };

    fn fmt<W: fmt::Write>(&self, f: &mut fmt::Formatter<W>) -> fmt::Result {
        match self {
            Failure::Read => writeln!(f, "vmbind: cannot read standard input"),
            Failure::Write => writeln!(f, "vmbind: cannot write standard output"),
            Failure::TooLong => writeln!(f, "vmbind: the script is too long"),
        }
    }
}

// What the program holds, and its buffers. The unread bytes stand in the input from `from` up to `to`; no more come if they
// are the last. The last round printed so many bytes, at the front of the output, and the system took so many of them.
// Places beside the arrays: there is no heap, and no struct holds a slice of its own array.
#[derive(Drop)]
struct Run {
    progress: Progress,
    ranges: [u64; RANGE_WORDS],
    table: [u64; TABLE_WORDS],
    operations: [u64; OPERATION_WORDS],
    input: [u8; INPUT_BYTES],
    from: usize,
    to: usize,
    last: bool,
    output: [u8; OUTPUT_BYTES],
    printed: usize,
    written: usize,
}

// What a read's answer says: an error is a failure, and no end of the input.
fn brought(answer: io::Result<usize>) -> Result<usize, Failure>
    ensures { result ≡ got_of answer }
{
    answer.map_err(|_| Failure::Read)
}

// Reads once, behind the bytes that are kept. There is room for one more, so that no byte means the end of the input.
fn read_behind(mut stdin: Stdin, input: &mut [u8], kept: usize) -> Result<usize, Failure>
    requires { kept < length input.old }
    ensures { Brings input.old kept result input.new }
{
    brought(stdin.read(&mut input[kept..]))
}

// Hands over bytes, of which there are some; the system may take fewer. A write that takes none has failed.
fn write_some(mut stdout: Stdout, text: &[u8]) -> Result<usize, Failure>
    requires { 0 < length text.now }
    ensures { MatchResult result (λ n. (0 < n) × (n ≤ length text.now)) (λ f. f ≡ Write) }
{
    match stdout.write(text) {
        Ok(0) | Err(_) => Err(Failure::Write),
        Ok(n) => Ok(n),
    }
}

impl Run {
    // Before the first byte of a script.
    fn new() -> Run
        ensures { result ≡ start_run result.input result.output }
    {
        Run {
            progress: script::start(),
            ranges: [0; RANGE_WORDS],
            table: [0; TABLE_WORDS],
            operations: [0; OPERATION_WORDS],
            input: [0; INPUT_BYTES],
            from: 0,
            to: 0,
            last: false,
            output: [0; OUTPUT_BYTES],
            printed: 0,
            written: 0,
        }
    }

    // Lends the unread bytes, and puts what they give at the front of the output.
    fn print(&mut self)
        requires { Held self.old × (self.old.progress.place + length self.old.input < 2 ^ 64) }
        ensures { Printed self.old self.new }
    {
        let input: &[u8] = &self.input;
        let turned = script::advance(
            self.progress,
            &mut self.ranges,
            &mut self.table,
            &mut self.operations,
            &input[self.from..self.to],
            self.last,
            &mut self.output,
        );
        self.progress = turned.progress;
        self.from += turned.taken;
        self.printed = turned.end;
    }

    // Hands over the rest of what was printed, until the system has taken all of it. Not by `write_all`, which does not tell
    // how much was taken before an error, as `Writes` does.
    fn write_out(&mut self, stdout: Stdout) -> Result<(), Failure>
        requires { (self.old.written ≤ self.old.printed) × (self.old.printed ≤ length self.old.output) }
        ensures { Writes self.old result self.new }
    {
        let end = self.printed;
        while self.written < end {
            self.written += write_some(stdout, &self.output[self.written..end])?;
        }
        Ok(())
    }

    // Keeps the unread bytes, and reads more behind them. A read that brings none tells that they are the last.
    fn refill(&mut self, stdin: Stdin) -> Result<(), Failure>
        requires { (self.old.from ≤ self.old.to) × (self.old.to < self.old.from + length self.old.input) × (self.old.to ≤ length self.old.input) }
        ensures { Refilled self.old result self.new }
    {
        let kept = script::keep_unread(&mut self.input, self.from, self.to);
        self.from = 0;
        self.to = kept;
        let count = read_behind(stdin, &mut self.input, kept)?;
        self.to += count;
        self.last = count == 0;
        Ok(())
    }

    // Prints what the bytes at hand give, writes it, and reads more where the program waits for them. It breaks where the
    // program is done.
    fn round(&mut self, stdin: Stdin, stdout: Stdout) -> Result<ControlFlow<()>, Failure>
        requires { Held self.old }
        ensures { Carries self.old result self.new }
    {
        self.printed = 0;
        self.written = 0;
        if MOST_PLACE <= self.progress.place {
            return Err(Failure::TooLong);
        }
        self.print();
        self.write_out(stdout)?;
        if OUTPUT_BYTES < self.printed + text::MOST_OPERATION {
            return Ok(ControlFlow::Continue(()));
        }
        if self.progress.stopped {
            return Ok(ControlFlow::Break(()));
        }
        self.refill(stdin)?;
        Ok(ControlFlow::Continue(()))
    }

    // Rounds on buffers that are together below 64 KiB, until one ends the run. No script has as many as are counted.
    fn follow(&mut self, stdin: Stdin, stdout: Stdout) -> Result<(), Failure>
        requires { (self.old ≡ start_run self.old.input self.old.output) × Below64KiB self.old.ranges self.old.table self.old.operations self.old.input self.old.output }
        ensures { Ran result self.new }
    {
        for _ in 0..u64::MAX {
            if self.round(stdin, stdout)?.is_break() {
                return Ok(());
            }
        }
        Err(Failure::TooLong)
    }
}

fn main(rt: HostRuntime) {
    let mut run = Run::new();
    if let Err(failure) = run.follow(rt.stdin(), rt.stdout()) {
        let _ = eprint!(rt; "{failure}");
    }
}
