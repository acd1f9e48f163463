// Records in a lent buffer: find, add if new, full. How a label is packed into a record stands here alone.
ghost use Rattle.std.specs.Prelude.{◌≡◌, ◌≤◌, length};
ghost use Rattle.alc.specs.Seeds.{include};
ghost use Rattle.tableau.specs.Records.{word_of, label_of, recorded, found, GrownTo};

use alc::Label;

// There is no room.
#[derive(Clone, Copy)]
pub struct Full;

// The label as the 64 bits of a record. It is no `From`: that would stand in alc, which knows nothing of records.
#[inline]
pub fn word_of(l: Label) -> u64
    ensures { result ≡ word_of l }
{
    (l.failing as u64) * 4294967296 + (l.holding as u64)
}

#[inline]
pub fn label_of(word: u64) -> Label
    ensures { result ≡ label_of word }
{
    Label {
        holding: (word % 4294967296) as u32,
        failing: (word / 4294967296) as u32,
    }
}

// The place of a record among the first `used`.
pub fn find(records: &[u64], used: usize, word: u64) -> Option<usize>
    requires { used ≤ length records.now }
    ensures { result ≡ found records.now used word }
{
    records[..used].iter().position(|record| *record == word)
}

// One record more, unless it is there: how many are used now.
pub fn include_label(l: Label, records: &mut [u64], used: usize) -> Result<usize, Full>
    requires { used ≤ length records.old }
    ensures { GrownTo (include (recorded used records.old) l) records.old result records.new }
{
    let word = word_of(l);
    if find(records, used, word).is_some() {
        return Ok(used);
    }
    if used == records.len() {
        return Err(Full);
    }
    records[used] = word;
    Ok(used + 1)
}
