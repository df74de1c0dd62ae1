// Runs of words inside one lent slice: stored, moved, cleared and looked at. Places and numbers are parameters, as in the
// library's `copy_within`: a struct of them would be made for one call.
#![tactic(auto)]

ghost use Rattle.std.specs.Prelude.{◌≡◌, true, ◌+◌, ◌-◌, ◌*◌, ◌/◌, ◌<◌, ◌≤◌, length, replicate};
ghost use Rattle.words.specs.Words.{stored, moved, Tells, Joins, ZeroFrom};

// Writes the run over the elements from `at` on.
#[tactic(auto, unfolding(crate::specs::Words::stored))]
pub fn store<T: Copy>(t: &mut [T], at: usize, run: &[T])
    requires { at + length run.now ≤ length t.old }
    ensures { t.new ≡ stored t.old at run.now }
{
    t[at..at + run.len()].copy_from_slice(run)
}

// Copies the `n` elements from `from` on to `to` on; the two runs may overlap.
#[tactic(auto, unfolding(crate::specs::Words::stored, crate::specs::Words::moved))]
pub fn copy_run<T: Copy>(t: &mut [T], from: usize, to: usize, n: usize)
    requires { (from + n ≤ length t.old) × (to + n ≤ length t.old) }
    ensures { t.new ≡ moved t.old from to n }
{
    t.copy_within(from..from + n, to)
}

// Copies N words, of which all are read before one is written.
#[tactic(auto, unfolding(crate::specs::Words::stored, crate::specs::Words::moved))]
fn copy_block<const N: usize>(t: &mut [u64], from: usize, to: usize)
    requires { (0 < N) × (from + N ≤ length t.old) × (to + N ≤ length t.old) }
    ensures { t.new ≡ moved t.old from to N }
{
    let block = t[from..from + N].as_chunks::<N>().0[0];
    t[to..to + N].copy_from_slice(&block)
}

// Copies `blocks` times N words, where `to` is not above `from`: from the first to the last. It goes by place, since both runs
// lie in one lent slice and may overlap, so that no two slices of blocks can be taken.
fn down_by_blocks<const N: usize>(t: &mut [u64], from: usize, to: usize, blocks: usize)
    requires { (0 < N) × (to ≤ from) × (from + N * blocks ≤ length t.old) }
    ensures { t.new ≡ moved t.old from to (N * blocks) }
{
    for i in 0..blocks {
        copy_block::<N>(t, from + N * i, to + N * i)
    }
}

// Copies `n` words down by any distance: sixteen to a block, then four, and then what is left. 2,000 words take 2,317
// instructions so, and 3,553 by copy_within.
fn move_far(t: &mut [u64], from: usize, to: usize, n: usize)
    requires { (to ≤ from) × (from + n ≤ length t.old) }
    ensures { t.new ≡ moved t.old from to n }
{
    let most = n / 16 * 16;
    down_by_blocks::<16>(t, from, to, n / 16);
    down_by_blocks::<4>(t, from + most, to + most, n % 16 / 4);
    let end = n / 4 * 4;
    copy_run(t, from + end, to + end, n % 4)
}

// Copies `n` words between two places that are written down. Of such a copy, in a slice that begins at the lower one, the
// compiler makes one call of memmove, which is as wide as the machine's registers. It makes none of `copy_run`, which is
// handed its places: this one's are its own constants.
#[tactic(auto, unfolding(crate::specs::Words::stored, crate::specs::Words::moved))]
fn copy_known<const FROM: usize, const TO: usize>(t: &mut [u64], n: usize)
    requires { (FROM + n ≤ length t.old) × (TO + n ≤ length t.old) }
    ensures { t.new ≡ moved t.old FROM TO n }
{
    t.copy_within(FROM..FROM + n, TO)
}

// What `copy_run` does, for a table: a request moves its mappings by one or two, and mostly by no more, which is four words
// or eight.
#[tactic(auto, using(crate::proofs::Moved::moved_in_part, crate::proofs::Moved::moved_same))]
pub fn move_run(t: &mut [u64], from: usize, to: usize, n: usize)
    requires { (from + n ≤ length t.old) × (to + n ≤ length t.old) }
    ensures { t.new ≡ moved t.old from to n }
{
    if from < to {
        match to - from {
            4 => copy_known::<0, 4>(&mut t[from..], n),
            8 => copy_known::<0, 8>(&mut t[from..], n),
            _ => copy_run(t, from, to, n),
        }
    } else {
        match from - to {
            0 => {}
            4 => copy_known::<4, 0>(&mut t[to..], n),
            8 => copy_known::<8, 0>(&mut t[to..], n),
            _ => move_far(t, from, to, n),
        }
    }
}

// Makes the words from `from` up to `to` zero.
#[tactic(auto, unfolding(crate::specs::Words::stored))]
pub fn clear(t: &mut [u64], from: usize, to: usize)
    requires { (from ≤ to) × (to ≤ length t.old) }
    ensures { t.new ≡ stored t.old from (replicate (to - from) 0) }
{
    t[from..to].fill(0)
}

// The words joined bit by bit to one.
#[tactic(auto, using(crate::proofs::Zeros::fold_tells))]
fn joined(words: &[u64]) -> u64
    ensures { Tells words.now 0 (length words.now) result }
{
    words.iter().fold(0, |seen, word| seen | word)
}

// Words joined to four, as a mapping has: the first ones of each four, the second ones, and so on. Fewer than four at the end
// are left.
fn join_fours(seen: [u64; 4], words: &[u64]) -> [u64; 4]
    ensures { Joins seen words.now 0 (4 * (length words.now / 4)) result }
{
    let mut all = seen;
    for four in words.as_chunks::<4>().0 {
        all = [
            all[0] | four[0],
            all[1] | four[1],
            all[2] | four[2],
            all[3] | four[3],
        ];
    }
    all
}

// Whether the words are zero, by one look at all of them joined, without a branch for each. Turns of 128 words read memory
// the quickest.
fn all_zero(words: &[u64]) -> bool
    ensures { (result ≡ true → ZeroFrom words.now 0) × (ZeroFrom words.now 0 → result ≡ true) }
{
    let (turns, behind) = words.as_chunks::<128>();
    let mut all = [0; 4];
    for turn in turns {
        all = join_fours(all, turn);
    }
    all = join_fours(all, behind);
    let rest = joined(behind.as_chunks::<4>().1);
    (all[0] | all[1] | all[2] | all[3] | rest) == 0
}

// Whether all words from `from` on are zero. Behind a full table's mappings there are none.
pub fn are_zero_from(t: &[u64], from: usize) -> bool
    requires { from ≤ length t.now }
    ensures { (result ≡ true → ZeroFrom t.now from) × (ZeroFrom t.now from → result ≡ true) }
{
    from == t.len() || all_zero(&t[from..])
}
