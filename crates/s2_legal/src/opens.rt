//! The open writes of an actor.
ghost use Rattle.std.specs.Prelude.{◌≡◌, ◌++◌, ◌∷◌, [], IfOk, OnOk};
ghost use Rattle.std.specs.Option.{option_copied};
ghost use Rattle.std.specs.BTreeMap.{get};
ghost use Rattle.std.specs.Ordering.{nat_cmp};
ghost use Rattle.s2_model.specs.Table.{touches};
ghost use Rattle.s2_legal.specs.Lasts.{KnowsLast, is_put, is_left, last_of};

use s2_model::Change;
use s2_slow::number_of;
use s2_value::{Duplicate, Memory};
use std::alloc::Global;
use std::collections::BTreeMap;
use std::marker::Model;
use std::mem;

/// The changes of an actor's open writes in their order, and of each row that they change the place of the last of them.
/// In contracts it is the list of the changes.
#[derive(Drop)]
pub struct OpenWrites {
    changes: Vec<Change>,
    places: BTreeMap<u64, usize>,
}

impl Model for OpenWrites {
    ghost use Rattle.std.specs.Prelude.{List};
    ghost use Rattle.std.specs.BTreeMap.{get};
    ghost use Rattle.std.specs.Ordering.{nat_cmp};
    ghost use Rattle.s2_model.specs.declared.entries.Change.{Change as AnyChange};
    ghost use Rattle.s2_legal.specs.Lasts.{KnowsLast};

    ghost Value = { List AnyChange };

    ghost view = { λ w. w.changes.items };

    ghost invariant = { λ w. KnowsLast (get nat_cmp w.places) w.changes.items };
}

fn is_put(change: &Change) -> bool
    ensures { result ≡ is_put change.now }
{
    match change {
        Change::Put(_, _) => true,
        Change::Drop(_) => false,
    }
}

#[tactic(auto, using(crate::proofs::LastPuts::knows_more))]
fn add(
    changes: &mut Vec<Change>,
    places: &mut BTreeMap<u64, usize>,
    change: &Change,
) -> Result<(), Memory>
    requires { KnowsLast (get nat_cmp places.old) changes.old.items }
    ensures changes { OnOk result (changes.new.items ≡ changes.old.items ++ change.now ∷ []) }
    ensures last { OnOk result (KnowsLast (get nat_cmp places.new) changes.new.items) }
{
    places.insert(number_of(change), changes.len())?;
    changes.push(change.copy()?)?;
    Ok(())
}

impl OpenWrites {
    /// No changes. It takes no memory.
    #[tactic(auto, using(crate::proofs::LastPuts::knows_none))]
    pub(crate) fn new(alloc: Global) -> OpenWrites
        ensures { result ≡ [] }
    {
        OpenWrites {
            changes: Vec::new(alloc),
            places: BTreeMap::new(alloc),
        }
    }

    fn extended(self, more: &[Change]) -> Result<OpenWrites, Memory>
        ensures { IfOk result (λ w. w ≡ self ++ more.now) }
    {
        let OpenWrites {
            mut changes,
            mut places,
        } = self;
        for change in more {
            add(&mut changes, &mut places, change)?;
        }
        Ok(OpenWrites { changes, places })
    }

    /// Puts copies of further changes behind the others; each costs a look-up. After want of memory there are none left.
    pub(crate) fn extend(&mut self, alloc: Global, more: &[Change]) -> Result<(), Memory>
        ensures { OnOk result (self.new ≡ self.old ++ more.now) }
    {
        let open = mem::replace(self, OpenWrites::new(alloc));
        *self = open.extended(more)?;
        Ok(())
    }

    /// The changes in their order.
    pub(crate) fn as_slice(&self) -> &[Change]
        ensures { result.now ≡ self.now }
    {
        self.changes.as_slice()
    }

    /// The changes in their order. It takes no memory.
    pub(crate) fn into_changes(self) -> Vec<Change>
        ensures { result.items ≡ self }
    {
        self.changes
    }

    /// The last of the changes that are of this row. It costs a look-up.
    pub(crate) fn last(&self, number: u64) -> Option<&Change>
        ensures { option_copied result ≡ last_of self.now number }
    {
        match self.places.get(&number) {
            Some(place) => self.changes.get(*place),
            None => None,
        }
    }

    /// Whether one of the changes is of this row. It costs a look-up.
    pub(crate) fn touches(&self, number: u64) -> bool
        ensures { result ≡ touches self.now number }
    {
        self.last(number).is_some()
    }

    /// Whether there is a row of this number after the changes, from whether there was one before them. It costs a look-up.
    #[tactic(auto, using(crate::proofs::LastPuts::last_left))]
    pub(crate) fn is_left(&self, number: u64, was: bool) -> bool
        ensures { result ≡ is_left self.now number was }
    {
        match self.last(number) {
            Some(change) => is_put(change),
            None => was,
        }
    }
}
