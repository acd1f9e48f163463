// The words of a line, with blanks or tabs between them, and what a word says: a number, or bytes. It rests on std.
// What each function answers is an equation with a definition of specs/Words.antt, over the list of the line's bytes.
ghost use Rattle.std.specs.Prelude.{◌≡◌, ◌&&◌, [], ◌+◌, ◌≤◌, length, drop};
ghost use Rattle.std.specs.Str.{bytes_eq};
ghost use Rattle.lines.specs.Words.{passed, trimmed_line, run, start_of, word_at, remark};
ghost use Rattle.lines.specs.Words.{digit_of, with_digit, number_said, pair_said, paired, bytes_said, Laid};

// Whether a byte belongs to these: blanks and tabs, or all others.
#[tactic(auto, unfolding(crate::specs::Words::passed))]
fn passes(b: u8, blanks: bool) -> bool
    ensures { result ≡ passed blanks b }
{
    matches!(b, b' ' | b'\t') == blanks
}

// A line without the carriage return at its end.
#[tactic(auto, unfolding(crate::specs::Words::trimmed_line))]
pub fn trimmed(line: &[u8]) -> &[u8]
    ensures { result.now ≡ trimmed_line line.now }
{
    match line {
        [front @ .., b'\r'] => front,
        _ => line,
    }
}

// Where the blanks from a place on end, or what is not blank. (By index: a part of the line for each word took a third longer where a line has many.)
fn end_of(line: &[u8], from: usize, blanks: bool) -> usize
    requires { from ≤ length line.now }
    ensures { (result ≡ from + run blanks (drop from line.now)) × (result ≤ length line.now) }
{
    for i in from..line.len() {
        if !passes(line[i], blanks) {
            return i;
        }
    }
    line.len()
}

// Where the n-th word starts, counted from 0; the line's length where there is none.
#[tactic(auto, using(crate::proofs::Spelled::start_first, crate::proofs::Spelled::start_more))]
fn start_of(line: &[u8], n: usize) -> usize
    ensures { (result ≡ start_of line.now n) × (result ≤ length line.now) }
{
    let mut at = end_of(line, 0, true);
    for _k in 0..n {
        at = end_of(line, end_of(line, at, false), true);
    }
    at
}

// The n-th word; empty where there is none.
#[tactic(auto, unfolding(crate::specs::Words::word_at))]
fn word(line: &[u8], n: usize) -> &[u8]
    ensures { result.now ≡ word_at line.now n }
{
    let start = start_of(line, n);
    let end = end_of(line, start, false);
    &line[start..end]
}

// Whether a line has no words, or its first starts with #.
#[tactic(auto, unfolding(crate::specs::Words::remark))]
pub fn says_nothing(line: &[u8]) -> bool
    ensures { result ≡ remark (word_at line.now 0) }
{
    match word(line, 0) {
        [first, ..] => *first == b'#',
        [] => true,
    }
}

// Whether a line starts with this word, and has no more than so many.
pub fn asks(line: &[u8], first: &[u8], most: usize) -> bool
    ensures { result ≡ (bytes_eq (word_at line.now most) [] && bytes_eq (word_at line.now 0) first.now) }
{
    word(line, most).is_empty() && word(line, 0) == first
}

// A number with one more decimal digit.
#[tactic(auto, unfolding(crate::specs::Words::with_digit, crate::specs::Words::digit_of))]
fn with_digit(n: u64, b: u8) -> Option<u64>
    ensures { result ≡ with_digit n (digit_of b) }
{
    let d = char::from(b).to_digit(10)?;
    n.checked_mul(10)?.checked_add(u64::from(d))
}

// The number of 64 bits that a word says in decimal, if it says one. (std's parse would take a sign, which says none here.)
fn value(word: &[u8]) -> Option<u64>
    ensures { result ≡ number_said word.now }
{
    if word.is_empty() {
        return None;
    }
    let mut n = 0;
    for b in word {
        n = with_digit(n, *b)?;
    }
    Some(n)
}

// The number that the n-th word says.
pub fn number(line: &[u8], n: usize) -> Option<u64>
    ensures { result ≡ number_said (word_at line.now n) }
{
    value(word(line, n))
}

// The byte that two hexadecimal digits say.
#[tactic(auto, unfolding(crate::specs::Words::pair_said, crate::specs::Words::digit_of))]
fn pair(h: u8, l: u8) -> Option<u8>
    ensures { result ≡ pair_said h l }
{
    let high = char::from(h).to_digit(16)?;
    let low = char::from(l).to_digit(16)?;
    Some((high * 16 + low) as u8)
}

// Lays the bytes that hexadecimal digits say, two digits each. (By index: of what a zip with the buffer's places writes no contract says anything.)
fn lay(word: &[u8], to: &mut [u8]) -> Option<usize>
    ensures { Laid (paired word.now) to.old to.new result }
{
    let n = word.len() / 2;
    if word.len() % 2 == 1 || n > to.len() {
        return None;
    }
    for k in 0..n {
        to[k] = pair(word[2 * k], word[2 * k + 1])?;
    }
    Some(n)
}

// Lays the bytes that the n-th word says in hexadecimal, and answers how many they are, if it says some and the buffer has room for them.
// A - says that there are 0, and so does a word that is not there.
pub fn bytes(line: &[u8], n: usize, to: &mut [u8]) -> Option<usize>
    ensures { Laid (bytes_said (word_at line.now n)) to.old to.new result }
{
    let word = word(line, n);
    if word == b"-".as_slice() {
        return Some(0);
    }
    lay(word, to)
}
