// Reads a key from any bytes: the numbers of its job, how many pattern rows it lists and where its lists begin; or that it is not readable.
// Keeps nothing of the lists, so it judges a key of any size. A caller with room for the lists reads them again from where they begin.
#![tactic(auto)]

ghost use Rattle.std.specs.Prelude.{◌≤◌, length};
ghost use Rattle.papers.specs.Lists.{flat};
ghost use Rattle.papers.specs.Key.{lists_read_from};
ghost use Rattle.read_fields.specs.Reading.{Told};
ghost use Rattle.read_key.specs.Keys.{mark_read_from, head_read_from, HeadTold, CountAsked, KeyTold};

use papers::JobHead;
use refusals::Fault;

// What is found in a key that was read to its end: the numbers of its job, how many rows its lists have, and where they begin.
#[derive(Clone, Copy, Drop)]
pub struct KeyFound {
    pub head: JobHead,
    pub rows: u64,
    pub lists: usize,
}

// Reads mark and limit from `at` on, for a job of n columns. Answers the numbers before the lists, and the place behind them.
fn read_mark(key: &[u8], at: usize, n: u64) -> Result<(JobHead, usize), Fault>
    requires { at ≤ length key.now }
    ensures { HeadTold (mark_read_from n key.now at) result }
{
    let (mark, middle) = read_fields::read_field(key, at, 0, papers::MAX_MARK)?;
    let (limit, next) = read_fields::read_field(key, middle, 0, papers::MAX_LIMIT)?;
    Ok((JobHead { n, mark, limit }, next))
}

// Reads edition, n, mark and limit, and answers as read_mark does.
fn read_head(key: &[u8]) -> Result<(JobHead, usize), Fault>
    ensures { HeadTold (head_read_from key.now) result }
{
    let (_edition, middle) = read_fields::read_field(key, 0, papers::EDITION, papers::EDITION)?;
    let (n, next) = read_fields::read_field(key, middle, 0, papers::MAX_COLUMNS)?;
    read_mark(key, next, n)
}

// Reads the lists of all columns from `at` on, keeps nothing, and answers how many rows they have, and the place behind them. In the loop
// the lists of the columns before j are read, with `total` rows, and the next starts at k. A match and not a `?`: so what a fault answers
// stands as a value.
fn count_rows(key: &[u8], at: usize, n: u64) -> Result<(u64, usize), Fault>
    requires { CountAsked key.now at n }
    ensures { Told (λ lists. length (flat lists)) (λ lists. Unit {0}) (lists_read_from n 1 n key.now at) result }
{
    let mut none = [0u32; 0];
    let mut k = at;
    let mut total: u64 = 0;
    for j in 1..=n {
        let (counted, next) = match read_lists::read_list(key, k, n, j, total as usize, &mut none) {
            Ok(found) => found,
            Err(fault) => return Err(fault),
        };
        total = counted;
        k = next;
    }
    Ok((total, k))
}

// Reads the whole key: its numbers, its lists, and the end. Answers what is found in it, or None if it is not readable: a caller asks for
// neither the number nor the place of a fault.
pub fn read_key(key: &[u8]) -> Option<KeyFound>
    ensures { KeyTold key.now result }
{
    let (head, lists) = read_head(key).ok()?;
    let (rows, next) = count_rows(key, lists, head.n).ok()?;
    if next < key.len() {
        return None;
    }
    Some(KeyFound { head, rows, lists })
}
