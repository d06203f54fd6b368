//! What a block spells, as theorems that callers may rest on.
ghost use Rattle.std.specs.Prelude.{◌≡◌, ◌≤◌, ℕ, List, length, true, Ok, None};
ghost use Rattle.s2_colbytes.specs.Numbers.{IsBytes};
ghost use Rattle.s2_value.specs.declared.values.ColType.{ColType as AnyType};
ghost use Rattle.std.specs.List.{AllByRecursion};
ghost use Rattle.std.specs.Map.{keys_of};
ghost use Rattle.s2_value.specs.declared.values.Value.{Value as AnyValue};
ghost use Rattle.s2_segindex.specs.Groups.{Group, groups_of, offsets_at_key, some_places, places_from, are_rising};
ghost use Rattle.s2_segindex.specs.Blocks.{index_at};
ghost use Rattle.s2_segindex.specs.Spells.{Spells, block_of, IsKeyOf};

/// A block that is read spells the groups that it is read as.
pub fn read_blocks_are_spelled()
    ensures { (kinds : List AnyType) (n : ℕ) (bytes : List ℕ) (groups : List Group) → IsBytes bytes → index_at kinds n bytes ≡ Ok groups → Spells kinds n groups bytes }
{}

/// A block that spells groups is read as these groups.
pub fn spelled_blocks_are_read()
    ensures { (kinds : List AnyType) (n : ℕ) (groups : List Group) (bytes : List ℕ) → Spells kinds n groups bytes → index_at kinds n bytes ≡ Ok groups }
{}

/// A block spells at most one list of groups.
pub fn one_block_spells_one_list()
    ensures { (kinds : List AnyType) (n : ℕ) (groups others : List Group) (bytes : List ℕ) → Spells kinds n groups bytes → Spells kinds n others bytes → groups ≡ others }
{}

/// The block of rows with these keys spells their groups, and is read as them.
pub fn built_blocks_are_spelled()
    ensures { (kinds : List AnyType) (keys : List (List AnyValue)) → length kinds ≤ 16 → length keys ≤ 8192 → AllByRecursion (IsKeyOf kinds) keys → Spells kinds (length keys) (groups_of keys) (block_of (groups_of keys)) }
{}

/// The groups of rows have for each key exactly the places of the rows that have it; without such a row there is no group.
pub fn groups_have_all_places()
    ensures { (keys : List (List AnyValue)) (key : List AnyValue) → offsets_at_key key (groups_of keys) ≡ some_places (places_from 0 keys key) }
{}

/// The groups of rows rise strictly by key.
pub fn groups_rise()
    ensures { (keys : List (List AnyValue)) → are_rising None (keys_of (groups_of keys)) ≡ true }
{}
