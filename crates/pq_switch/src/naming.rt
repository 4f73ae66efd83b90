ghost use Rattle.std.specs.Prelude.{◌≡◌, true, false, [], ◌∷◌, IfSome, IfNone, OnOk};
ghost use Rattle.std.specs.Ordering.{is_eq};
ghost use Rattle.pq_switch.specs.Namings.{AreNoted, Grows, is_noted, names, naming};
ghost use Rattle.pq_switch.specs.Places.{place_cmp};
ghost use Rattle.pq_switch.specs.declared.place.Place.{Place as PlaceValue};

use crate::place::{Block, Place};
use pq_model::Action;
use std::alloc::AllocError;
use std::collections::BTreeSet;

/// A group, and the place of an entry that names it.
#[derive(Clone, Copy, PartialEq, Eq, PartialOrd, Ord)]
pub(crate) struct Naming {
    pub(crate) group: u32,
    pub(crate) place: Place,
}

/// Notes the place with each group that the actions name.
pub(crate) fn note(
    index: &mut BTreeSet<Naming>,
    place: Place,
    actions: &[Action],
) -> Result<(), AllocError>
    ensures ok { OnOk result (AreNoted index.new.keys place actions.now) }
    ensures kept { Grows index.old.keys index.new.keys }
{
    for action in actions {
        note_one(index, place, *action)?;
    }
    Ok(())
}

// Notes the place with the group that the action names.
fn note_one(index: &mut BTreeSet<Naming>, place: Place, action: Action) -> Result<(), AllocError>
    ensures ok { OnOk result (AreNoted index.new.keys place (action ∷ [])) }
    ensures kept { Grows index.old.keys index.new.keys }
{
    match action {
        Action::Group(group) => add(index, group, place),
        _ => Ok(()),
    }
}

fn add(index: &mut BTreeSet<Naming>, group: u32, place: Place) -> Result<(), AllocError>
    ensures ok { OnOk result (is_noted index.new.keys group place ≡ true) }
    ensures kept { Grows index.old.keys index.new.keys }
{
    index.insert(Naming { group, place })?;
    Ok(())
}

/// The first place that is noted with the group.
pub(crate) fn first_place(index: &BTreeSet<Naming>, group: u32) -> Option<Place>
    ensures some { IfSome result (λ place. is_noted index.now.keys group place ≡ true) }
    ensures none { IfNone result ((place : PlaceValue) → is_noted index.now.keys group place ≡ false) }
{
    let block = Block {
        table: 0,
        in_port: None,
        vlan: None,
    };
    let from = Naming {
        group,
        place: Place::first(block),
    };
    match index.range(from..).next() {
        Some(naming) if naming.group == group => Some(naming.place),
        _ => None,
    }
}

/// Whether the actions name the group.
pub(crate) fn names_group(group: u32, actions: &[Action]) -> bool
    ensures { result ≡ names group actions.now }
{
    for action in actions {
        if is_group(*action, group) {
            return true;
        }
    }
    false
}

fn is_group(action: Action, group: u32) -> bool
    ensures { result ≡ names group (action ∷ []) }
{
    match action {
        Action::Group(named) => named == group,
        _ => false,
    }
}
