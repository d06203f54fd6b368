//! What a block spells, as theorems that callers may rest on.
ghost use Rattle.std.specs.Prelude.{◌≡◌, ℕ, List, length, Ok};
ghost use Rattle.s2_colbytes.specs.Numbers.{IsBytes};
ghost use Rattle.s2_value.specs.declared.values.Value.{Value as AnyValue};
ghost use Rattle.s2_value.specs.declared.values.ColType.{ColType as AnyType};
ghost use Rattle.s2_colenc.specs.declared.views.Body.{Body as AnyBody};
ghost use Rattle.s2_colenc.specs.Column.{column_at, values_of};
ghost use Rattle.s2_colenc.specs.Written.{IsBlock};
ghost use Rattle.s2_colenc.specs.Spells.{AreValues, Spells, ReadAs};

/// A block that spells values is read as these values.
pub fn spelled_blocks_are_read()
    ensures { (kind : AnyType) (vals : List AnyValue) (bytes : List ℕ) → Spells kind vals bytes → ReadAs kind vals bytes }
{}

/// A block that is read spells the values that it is read as, as many as were asked for.
pub fn read_blocks_are_spelled()
    ensures { (kind : AnyType) (n : ℕ) (bytes : List ℕ) (body : AnyBody) → IsBytes bytes → column_at kind n bytes ≡ Ok body → Spells kind (values_of body) bytes × (length (values_of body) ≡ n) }
{}

/// A block spells at most one list of as many values.
pub fn one_block_spells_one_list()
    ensures { (kind : AnyType) (vals others : List AnyValue) (bytes : List ℕ) → Spells kind vals bytes → Spells kind others bytes → length vals ≡ length others → vals ≡ others }
{}

/// The block that is written spells the values.
pub fn written_blocks_are_spelled()
    ensures { (kind : AnyType) (vals : List AnyValue) (bytes : List ℕ) → AreValues kind vals → IsBlock kind vals bytes → Spells kind vals bytes }
{}

/// The block that is written is read as the values.
pub fn written_blocks_are_read()
    ensures { (kind : AnyType) (vals : List AnyValue) (bytes : List ℕ) → AreValues kind vals → IsBlock kind vals bytes → ReadAs kind vals bytes }
{}

/// The values have one shortest block.
pub fn shortest_blocks_are_one()
    ensures { (kind : AnyType) (vals : List AnyValue) (bytes others : List ℕ) → IsBlock kind vals bytes → IsBlock kind vals others → bytes ≡ others }
{}
