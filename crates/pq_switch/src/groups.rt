ghost use Rattle.std.specs.Prelude.{◌≡◌, ℕ, [], ◌∷◌, OnErr, OnOk, not};
ghost use Rattle.std.specs.List.{list_all};
ghost use Rattle.std.specs.FinMap.{contains_key, get, insert};
ghost use Rattle.std.specs.Ordering.{eq_by_cmp, nat_cmp};
ghost use Rattle.std.specs.Set.{is_member};
ghost use Rattle.pq_model.specs.SwitchMachine.{buckets_in, groups_named, no_groups, removed_from};

use crate::actions::Actions;
use pq_model::{ALL_GROUPS, Action};
use std::alloc::{AllocError, Global};
use std::collections::BTreeMap;
use std::collections::btree_map::Keys;
use std::marker::Model;

/// The groups of a switch: the buckets of each, by its number.
#[derive(Drop)]
pub(crate) struct Groups {
    buckets: BTreeMap<u32, Vec<Actions>>,
}

impl Model for Groups {
    ghost use Rattle.std.specs.Coded.{coded_ℕ, coded_list};
    ghost use Rattle.std.specs.FinMap.{code};
    ghost use Rattle.pq_model.specs.contracts.action.Action as action;
    ghost use Rattle.pq_model.specs.SwitchMachine.{Groups};

    ghost Value = { Groups };

    ghost coded = { code coded_ℕ (coded_list (coded_list action.the_row.coded)) };

    ghost use Rattle.std.specs.Prelude.{map};
    ghost use Rattle.std.specs.FinMap.{from_entries};

    ghost view = { λ g. from_entries (map (λ e. (e.0, e.1.items)) g.buckets.entries) };
}

impl Groups {
    pub(crate) fn empty(alloc: Global) -> Groups
        ensures { result ≡ no_groups }
    {
        Groups {
            buckets: BTreeMap::new(alloc),
        }
    }

    pub(crate) fn contains(&self, number: u32) -> bool
        ensures { result ≡ contains_key self.now number }
    {
        self.buckets.contains_key(&number)
    }

    /// The buckets of a group; none where there is no such group.
    pub(crate) fn buckets(&self, number: u32) -> &[Actions]
        ensures { result.now ≡ buckets_in (get self.now number) }
    {
        match self.buckets.get(&number) {
            Some(buckets) => buckets.as_slice(),
            None => &[],
        }
    }

    /// Puts a group in the place of the one with its number.
    pub(crate) fn put(&mut self, number: u32, buckets: Vec<Actions>) -> Result<(), AllocError>
        ensures ok { OnOk result (self.new ≡ insert self.old number buckets.items) }
        ensures err { OnErr result (self.new ≡ self.old) }
    {
        self.buckets.insert(number, buckets)?;
        Ok(())
    }

    /// Takes out the group with this number, or all groups.
    pub(crate) fn remove(&mut self, number: u32)
        ensures { self.new ≡ removed_from self.old number }
    {
        if number == ALL_GROUPS {
            self.buckets.clear();
        } else {
            self.buckets.remove(&number);
        }
    }

    /// Whether each group that the actions name is there.
    pub(crate) fn contains_named(&self, actions: &[Action]) -> bool
        ensures { result ≡ list_all (contains_key self.now) (groups_named actions.now) }
    {
        for action in actions {
            if self.lacks(*action) {
                return false;
            }
        }
        true
    }

    /// The numbers of all groups.
    pub(crate) fn numbers(&self) -> Keys<'_, u32, Vec<Actions>>
        ensures { (n : ℕ) → contains_key self.now n ≡ is_member (eq_by_cmp nat_cmp) result n }
    {
        self.buckets.keys()
    }

    // Whether the action names a group that isn't there.
    fn lacks(&self, action: Action) -> bool
        ensures { result ≡ not (list_all (contains_key self.now) (groups_named (action ∷ []))) }
    {
        match action {
            Action::Group(named) => !self.contains(named),
            _ => false,
        }
    }
}
