ghost use Rattle.std.specs.Prelude.{◌+◌, ◌<◌, ◌^◌, IfOk, length};
ghost use Rattle.conley_lists.specs.Lists.{items_of, entries_of};

use std::alloc::Global;
use std::test::Fail;

/// The lists of a small table.
pub fn lists_of(alloc: Global, rows: &[&[u32]]) -> Result<Vec<Vec<u32>>, Fail>
    ensures { IfOk result (λ lists. length lists.items + length (entries_of (items_of lists.items)) < 2 ^ 32) }
{
    if rows.len() >= 100 {
        return Err("too many lists".into());
    }
    let mut lists = Vec::new(alloc);
    for row in rows {
        if row.len() >= 100 {
            return Err("too long a list".into());
        }
        lists.push(Vec::from_slice(alloc, row)?)?;
    }
    Ok(lists)
}
