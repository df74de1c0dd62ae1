// The lines of the script program, written into a lent byte slice one behind the other. Every byte is pinned: a promise gives
// the slice as it is afterwards, and where the text in it ends.
#![tactic(auto, using(crate::proofs::Adding::adds_none, crate::proofs::Adding::adds_most), unfolding(program::specs::Text::ascii))]

ghost use Rattle.std.specs.Prelude.{◌≡◌, [], ◌∷◌, ◌+◌, ◌*◌, ◌≤◌, length};
ghost use Rattle.model.specs.Table.{words_of};
ghost use Rattle.program.specs.Text.{decimal, spaced, rest_lines, operation_lines, shown_line};
ghost use Rattle.program.specs.Script.{lines, response_told};
ghost use Rattle.text.specs.Lines.{HasRoom, Adds, phrase_of, line_of, keep_of, bare_of};

use itoa::Buffer;
use model::{Mapping, Operation, Rests, Shown};
use program::Response;

// The lines of an operation have no more bytes than this; an answer's line has fewer.
pub const MOST_OPERATION: usize = 320;

// A mapping's four numbers.
fn mapping_words(m: Mapping) -> [u64; 4]
    ensures { result ≡ words_of m }
{
    [m.address, m.size, m.object, m.offset]
}

// A lent slice, and where the text that has been written into it ends. It is no `fmt::Write`, since no clause of `write!` rules
// an error out: `operation` and `response` can't fail. Each method asks for room of its own (`HasRoom`), and no field says it.
#[derive(Drop)]
pub struct Lines<'a> {
    pub out: &'a mut [u8],
    pub end: usize,
}

impl Lines<'_> {
    // A run of bytes.
    pub fn bytes(&mut self, run: &[u8])
        requires { HasRoom self.old (length run.now) }
        ensures { Adds self.old run.now (length run.now) self.new }
    {
        let end = self.end + run.len();
        self.out[self.end..end].copy_from_slice(run);
        self.end = end;
    }

    // A number's decimal digits one by one: those of its tenth, and then the last one.
    fn digit_by_digit(&mut self, n: u64)
        requires { HasRoom self.old (length (decimal n)) }
        ensures { Adds self.old (decimal n) (length (decimal n)) self.new }
    {
        if n < 10 {
            self.bytes(&[b'0' + n as u8]);
            return;
        }
        self.digit_by_digit(n / 10);
        self.bytes(&[b'0' + (n % 10) as u8]);
    }

    // The same, a long number's by the library, four at a time: it writes them into a buffer of its own, which is copied, and
    // for fewer than five digits that takes longer.
    #[tactic(auto, using(crate::proofs::Digits::same_decimal))]
    fn many_digits(&mut self, n: u64)
        requires { HasRoom self.old (length (decimal n)) }
        ensures { Adds self.old (decimal n) (length (decimal n)) self.new }
    {
        if n < 10000 {
            self.digit_by_digit(n);
        } else {
            self.bytes(Buffer::new().format(n).as_bytes());
        }
    }

    // A number's decimal digits. Inlined, as the two below: a number of one digit and a word that is known are then written
    // without a call.
    #[inline(always)]
    fn decimal(&mut self, n: u64)
        requires { HasRoom self.old (length (decimal n)) }
        ensures { Adds self.old (decimal n) (length (decimal n)) self.new }
    {
        if n < 10 {
            self.bytes(&[b'0' + n as u8]);
        } else {
            self.many_digits(n);
        }
    }

    // Numbers, each behind a space.
    #[inline(always)]
    fn numbers(&mut self, numbers: &[u64])
        requires { HasRoom self.old (21 * length numbers.now) }
        ensures { Adds self.old (spaced numbers.now) (21 * length numbers.now) self.new }
    {
        for n in numbers {
            self.bytes(b" ");
            self.decimal(*n);
        }
    }

    // A word and numbers.
    #[inline(always)]
    fn phrase(&mut self, word: &[u8], numbers: &[u64])
        requires { HasRoom self.old (length word.now + 21 * length numbers.now) }
        ensures { Adds self.old (phrase_of word.now numbers.now) (length word.now + 21 * length numbers.now) self.new }
    {
        self.bytes(word);
        self.numbers(numbers);
    }

    // The same, and the line's end.
    fn line(&mut self, word: &[u8], numbers: &[u64])
        requires { HasRoom self.old (length word.now + 21 * length numbers.now + 1) }
        ensures { Adds self.old (line_of word.now numbers.now) (length word.now + 21 * length numbers.now + 1) self.new }
    {
        self.phrase(word, numbers);
        self.bytes(b"\n");
    }

    // A line with a mapping's four numbers.
    fn mapping(&mut self, word: &[u8], m: Mapping)
        requires { HasRoom self.old (length word.now + 85) }
        ensures { Adds self.old (line_of word.now (words_of m)) (length word.now + 85) self.new }
    {
        self.line(word, &mapping_words(m));
    }

    // The same, and the keep mark.
    fn keep(&mut self, word: &[u8], keep: bool, m: Mapping)
        requires { HasRoom self.old (length word.now + 111) }
        ensures { Adds self.old (keep_of word.now keep m) (length word.now + 111) self.new }
    {
        self.phrase(word, &mapping_words(m));
        self.line(b" keep", &[u64::from(keep)]);
    }

    // A line for each rest.
    fn rests(&mut self, rests: Rests)
        requires { HasRoom self.old 180 }
        ensures { Adds self.old (rest_lines rests) 180 self.new }
    {
        match rests {
            Rests::Lower(lower) => self.mapping(b"lower", lower),
            Rests::Upper(upper) => self.mapping(b"upper", upper),
            Rests::Both(lower, upper) => {
                self.mapping(b"lower", lower);
                self.mapping(b"upper", upper);
            }
        }
    }

    // The lines of an operation.
    pub fn operation(&mut self, operation: Operation)
        requires { HasRoom self.old 320 }
        ensures { Adds self.old (operation_lines operation) 320 self.new }
    {
        match operation {
            Operation::Map(m) => self.mapping(b"map", m),
            Operation::Remap(keep, m, rests) => {
                self.keep(b"remap", keep, m);
                self.rests(rests);
            }
            Operation::Unmap(keep, m) => self.keep(b"unmap", keep, m),
        }
    }

    // The line of an address in no mapping: a word for what it shows there, and for how many bytes.
    fn bare(&mut self, x: u64, word: &[u8], bytes: u64)
        requires { HasRoom self.old (length word.now + 45) }
        ensures { Adds self.old (bare_of x word.now bytes) (length word.now + 45) self.new }
    {
        self.phrase(b"at", &[x]);
        self.line(word, &[bytes]);
    }

    // The line of an address, what it shows, and for how many bytes.
    fn shown(&mut self, x: u64, shown: Shown, bytes: u64)
        requires { HasRoom self.old 128 }
        ensures { Adds self.old (shown_line x shown bytes) 128 self.new }
    {
        match shown {
            Shown::Object(object, offset) => self.line(b"at", &[x, object, offset, bytes]),
            Shown::Sparse => self.bare(x, b" sparse", bytes),
            Shown::Nothing => self.bare(x, b" none", bytes),
        }
    }

    // The line of a response, at a byte place of the script. A grant's operations are written one by one, by `operation`.
    pub fn response(&mut self, place: u64, response: Response)
        requires { HasRoom self.old 128 }
        ensures { Adds self.old (lines place [] (response_told response)) 128 self.new }
    {
        match response {
            Response::Emptied(capacity) => self.line(b"space", &[capacity as u64]),
            Response::Granted(g) => self.line(b"granted", &[g.operations as u64, g.count as u64]),
            Response::Shows(x, seen) => self.shown(x, seen.shown, seen.bytes),
            Response::Refused(w) => self.line(b"refused", &[u64::from(rules::refusal_number(w))]),
            Response::OtherMark => self.line(b"mark", &[place]),
            Response::Cut => self.line(b"cut", &[place]),
            Response::End => {}
        }
    }
}
