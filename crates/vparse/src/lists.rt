// Lists with commas.

ghost use Rattle.std.specs.Prelude.{◌≡◌, false, length};
ghost use Rattle.vwords.specs.Words.{is_leaf};
ghost use Rattle.vparse.specs.ModuleGives.{KeepsListed, Lists, ListsUntil, NeverMore};

use basis::OrMemory;
use std::alloc::Global;
use vexpr_parse::{Cursor, Stop};
use vlex::Tokens;

/// What stands after the first one, a comma before each, with the first one.
pub fn list_behind<T: Drop, F: Fn(&mut Cursor) -> Result<T, OrMemory<Stop>>>(
    alloc: Global,
    read: &F,
    tokens: &Tokens<'_>,
    cursor: &mut Cursor,
    first: T,
) -> Result<Vec<T>, OrMemory<Stop>>
    requires callable { F.IsAlwaysCallable read.now }
    requires fewer { NeverMore tokens.now (F.post read.now) }
    ensures lists { Lists tokens.now (F.post read.now) first cursor.old cursor.new result }
    ensures kept { KeepsListed tokens.now (F.post read.now) first cursor.old cursor.new result }
{
    let mut list: Vec<T> = Vec::new(alloc);
    list.push(first)?;
    'list: while cursor.begins(tokens, b",") {
        cursor.pass(tokens);
        let one = read(cursor)?;
        list.push(one)?;
    }
    Ok(list)
}

/// What stands after the first one, with the first one, up to this very word, which is passed.
pub fn list_until<T: Drop, F: Fn(&mut Cursor) -> Result<T, OrMemory<Stop>>>(
    alloc: Global,
    read: &F,
    tokens: &Tokens<'_>,
    cursor: &mut Cursor,
    first: T,
    text: &[u8],
) -> Result<Vec<T>, OrMemory<Stop>>
    requires callable { F.IsAlwaysCallable read.now }
    requires fewer { NeverMore tokens.now (F.post read.now) }
    ensures lists { ListsUntil tokens.now (F.post read.now) first text.now
        cursor.old cursor.new result }
    ensures kept { is_leaf text.now ≡ false →
        KeepsListed tokens.now (F.post read.now) first cursor.old cursor.new result }
{
    let list = list_behind(alloc, read, tokens, cursor, first)?;
    cursor.symbol(tokens, text)?;
    Ok(list)
}
