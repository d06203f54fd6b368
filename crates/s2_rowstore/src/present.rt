// The rows that have a living version or an open write, so that a walk passes over no others.
ghost use Rattle.std.specs.Prelude.{◌≡◌, ◌≤◌, ℕ, ◌++◌, true, false, OnOk, IfOk, is_some, take, length, All};
ghost use Rattle.std.specs.List.{filter};
ghost use Rattle.std.specs.Map.{keys_of};
ghost use Rattle.std.specs.List.Sorted.{IsStrictlySortedBy};
ghost use Rattle.std.specs.Ordering.{nat_cmp};
ghost use Rattle.s2_rowstore.specs.Chains.{own};
ghost use Rattle.s2_rowstore.specs.Lines.{body_at, names_row};
ghost use Rattle.s2_rowstore.specs.Numbers.{is_among, numbers_of, numbers_in};
ghost use Rattle.s2_rowstore.specs.Present.{is_present, is_free, is_free_above, ArePresent};

use crate::ends::Ends;
use crate::ids::put_id;
use crate::lines::Lines;
use crate::numbers::Numbers;
use s2_value::Memory;
use std::alloc::Global;
use std::collections::BTreeSet;
use std::ops::Bound;

// Whether the row has a living version or an open write.
fn is_present(lines: &Lines, id: u64) -> bool
    ensures { result ≡ is_present (body_at lines.now.entries id) }
{
    match lines.get(&id) {
        Some(chain) => chain.is_present(),
        None => false,
    }
}

// Whether the row has a living version that began by `r`, and no open write.
fn is_free(lines: &Lines, id: u64, r: u64) -> bool
    ensures { result ≡ is_free r (body_at lines.now.entries id) }
{
    match lines.get(&id) {
        Some(chain) => chain.is_free(r),
        None => false,
    }
}

// Whether the row is above `from`, has a living version that began by `r`, and no open write.
fn is_free_above(lines: &Lines, id: u64, from: u64, r: u64) -> bool
    ensures { result ≡ is_free_above from r lines.now.entries id }
{
    from < id && is_free(lines, id, r)
}

// Whether the actor has an open write of the row.
fn is_changed(lines: &Lines, id: u64, actor: u8) -> bool
    ensures { result ≡ is_some (own actor (body_at lines.now.entries id).1) }
{
    match lines.get(&id) {
        Some(chain) => chain.holder() == Some(actor),
        None => false,
    }
}

/// Puts the row number among these.
pub(crate) fn add_id(ids: &mut BTreeSet<u64>, id: u64) -> Result<(), Memory>
    ensures kept { (n : ℕ) → names_row ids.old.keys n ≡ true → names_row ids.new.keys n ≡ true }
    ensures added { OnOk result (names_row ids.new.keys id ≡ true) }
{
    put_id(ids, id)
}

// How many row numbers the actors have together.
fn count_all(changed: &[BTreeSet<u64>]) -> usize {
    let mut count = 0usize;
    for ids in changed {
        count = count.saturating_add(ids.len());
    }
    count
}

/// Puts the row numbers of these pairs among the others, and makes room for all ends until the next call: `changed` has each actor's rows with an open write.
pub(crate) fn list_rows<T>(
    ids: &mut Numbers,
    ends: &mut Ends,
    changed: &[BTreeSet<u64>],
    rows: &[(u64, T)],
) -> Result<(), Memory>
    ensures ends { ends.new ≡ ends.old }
    ensures kept { (n : ℕ) → is_among ids.old n ≡ true → is_among ids.new n ≡ true }
    ensures added { OnOk result (All (λ p. is_among ids.new p.0 ≡ true) rows.now) }
{
    for (id, _) in rows {
        ids.insert(*id)?;
    }
    // A commit queues one end for each row with an open write, and a row that ends otherwise has none and is present no more.
    let open = count_all(changed).saturating_add(rows.len());
    ends.reserve(ids.len().saturating_add(open))?;
    Ok(())
}

/// Takes the row out of these, if it has neither a living version nor an open write.
pub(crate) fn drop_absent(ids: &mut Numbers, lines: &Lines, id: u64)
    ensures { ArePresent ids.old lines.now.entries → ArePresent ids.new lines.now.entries }
{
    if !is_present(lines, id) {
        ids.remove(id);
    }
}

/// The same for each of the rows that changed.
pub(crate) fn drop_all_absent(ids: &mut Numbers, lines: &Lines, changed: &BTreeSet<u64>)
    ensures { ArePresent ids.old lines.now.entries → ArePresent ids.new lines.now.entries }
{
    for id in changed {
        drop_absent(ids, lines, *id);
    }
}

/// Those of the rows that have an open write of the actor.
pub(crate) fn changed_rows(
    lines: &Lines,
    alloc: Global,
    ids: &BTreeSet<u64>,
    actor: u8,
) -> Result<Vec<u64>, Memory>
    ensures rows { IfOk result (λ found. found.items ≡ filter (λ n. is_some (own actor (body_at lines.now.entries n).1)) ids.now.keys) }
    ensures ordered { IsStrictlySortedBy nat_cmp ids.now.keys }
{
    let mut found = Vec::new(alloc);
    for id in ids {
        if is_changed(lines, *id, actor) {
            found.push(*id)?;
        }
    }
    Ok(found)
}

// Puts those of the block's numbers that are free behind the found ones, as long as there are fewer than `most`.
fn find_in_block(
    found: &mut Vec<u64>,
    lines: &Lines,
    block: u64,
    flags: &[bool; 16],
    from: u64,
    r: u64,
    most: usize,
) -> Result<(), Memory>
    requires { length found.old.items ≤ most }
    ensures { OnOk result (found.new.items ≡ take most (found.old.items ++ filter (is_free_above from r lines.now.entries) (numbers_of (block, flags.now)))) }
{
    if block > u64::MAX / 16 {
        // The numbers of such a block are no row numbers.
        return Ok(());
    }
    for i in 0..16usize {
        if found.len() >= most {
            return Ok(());
        }
        let id = block * 16 + i as u64;
        if flags[i] && is_free_above(lines, id, from, r) {
            found.push(id)?;
        }
    }
    Ok(())
}

/// The first of the rows above `from` that have a living version that began by `r` and no open write, at most so many.
pub(crate) fn first_free(
    lines: &Lines,
    alloc: Global,
    ids: &Numbers,
    from: u64,
    r: u64,
    most: usize,
) -> Result<Vec<u64>, Memory>
    ensures rows { IfOk result (λ found. found.items ≡ take most (filter (is_free_above from r lines.now.entries) (numbers_in ids.now))) }
    ensures ordered { IsStrictlySortedBy nat_cmp (keys_of ids.now) }
{
    let mut found = Vec::new(alloc);
    let start = Bound::Included(from / 16);
    for (block, flags) in ids.blocks().range((start, Bound::Unbounded)) {
        if found.len() >= most {
            return Ok(found);
        }
        find_in_block(&mut found, lines, *block, flags, from, r, most)?;
    }
    Ok(found)
}
