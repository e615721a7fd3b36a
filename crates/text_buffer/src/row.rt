//! A row in which others take the place of some.

ghost use Rattle.std.specs.Prelude.{◌≡◌, ◌+◌, ◌<◌, ◌≤◌, ◌++◌, length, take, drop, vec_len, OnOk, OnErr};

use bg_types::Memory;

/// Puts others in the place of elements `from` up to `to`. What stands behind them is moved once, or not at all where one takes
/// the place of one.
pub fn splice<T: Drop>(
    row: &mut Vec<T>,
    from: usize,
    to: usize,
    others: Vec<T>,
) -> Result<(), Memory>
    requires order { from ≤ to }
    requires within { to ≤ length row.old.items }
    ensures ok { OnOk result (row.new.items ≡ take from row.old.items ++ (others.items ++ drop to row.old.items)) }
    ensures err { OnErr result (row.new.items ≡ row.old.items) }
{
    if to - from == 1 && others.len() == 1 {
        set_one(row, from, others);
        return Ok(());
    }
    row.splice(from..to, others)?;
    Ok(())
}

/// Puts a single one in the place of an element. Nothing is moved.
fn set_one<T: Drop>(row: &mut Vec<T>, at: usize, others: Vec<T>)
    requires within { at < length row.old.items }
    requires one { vec_len others ≡ 1 }
    ensures { row.new.items ≡ take at row.old.items ++ (others.items ++ drop (at + 1) row.old.items) }
{
    let mut others = others;
    if let Some(other) = others.pop() {
        row[at] = other;
    }
}

/// Takes the first `count` elements away.
pub fn drop_front<T: Drop>(row: &mut Vec<T>, count: usize)
    requires { count ≤ length row.old.items }
    ensures { row.new.items ≡ drop count row.old.items }
{
    row.rotate_left(count);
    let left = row.len() - count;
    row.truncate(left);
}
