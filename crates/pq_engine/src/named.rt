//! Lists of what is named: a place by its name, and what is put there, removed and put back.
ghost use Rattle.std.specs.Prelude.{◌≡◌, ◌≤◌, ◌<◌, [], ◌∷◌, ◌++◌, suc, length, map, take, drop, IfOk, OnOk, OnErr};
ghost use Rattle.std.specs.declared.option.Option.TheVariants.{None};
ghost use Rattle.std.specs.Vec.{vec_capacity};
ghost use Rattle.pq_sum.specs.Sum.{replaced};
ghost use Rattle.pq_engine.specs.Places.{listed, place_in};

use pq_term::Name;
use std::alloc::AllocError;
use std::mem;

/// The place of the first that has the name; the length where none has.
#[tactic(auto, using(crate::proofs::PlacesLemmas::place_here, crate::proofs::PlacesLemmas::place_after))]
pub(crate) fn place_of<T>(named: &[(Name, T)], name: &Name) -> usize
    ensures { result ≡ place_in name.now (map (λ n. n.0) named.now) }
{
    for place in 0..named.len() {
        if named[place].0.bytes() == name.bytes() {
            return place;
        }
    }
    named.len()
}

/// Puts what is named into a place; gives what was there.
#[tactic(auto, using(crate::proofs::PlacesLemmas::set_is))]
pub(crate) fn put_at<T: Drop>(
    named: &mut Vec<(Name, T)>,
    place: usize,
    new: (Name, T),
) -> Result<Option<(Name, T)>, AllocError>
    requires { place ≤ length named.old.items }
    ensures put { OnOk result (named.new.items ≡ replaced place (new ∷ []) named.old.items) }
    ensures old { IfOk result (λ old. listed old ≡ take 1 (drop place named.old.items)) }
    ensures kept { OnErr result (named.new.items ≡ named.old.items) }
{
    if place < named.len() {
        let old = mem::replace(&mut named[place], new);
        return Ok(Some(old));
    }
    named.push(new)?;
    Ok(None)
}

/// Puts back what was in a place; nothing was in the last one where it was after the others.
#[tactic(auto, using(crate::proofs::PlacesLemmas::set_is))]
pub(crate) fn put_back<T: Drop>(named: &mut Vec<(Name, T)>, place: usize, old: Option<(Name, T)>)
    requires place { place < length named.old.items }
    requires last { old ≡ None → length named.old.items ≡ suc place }
    ensures { named.new.items ≡ replaced place (listed old) named.old.items }
{
    match old {
        Some(old) => named[place] = old,
        None => {
            named.pop();
        }
    }
}

/// Takes what is in a place out.
pub(crate) fn remove_at<T: Drop>(named: &mut Vec<(Name, T)>, place: usize) -> (Name, T)
    requires { place < length named.old.items }
    ensures removed { named.new.items ≡ replaced place [] named.old.items }
    ensures old { result ∷ [] ≡ take 1 (drop place named.old.items) }
    ensures room { length named.new.items < vec_capacity named.new }
{
    named.remove(place)
}

/// Puts back what was taken out.
pub(crate) fn insert_back<T: Drop>(named: &mut Vec<(Name, T)>, place: usize, old: (Name, T))
    requires place { place ≤ length named.old.items }
    requires room { length named.old.items < vec_capacity named.old }
    ensures { named.new.items ≡ take place named.old.items ++ (old ∷ drop place named.old.items) }
{
    match named.insert(place, old) {
        Ok(()) => {}
        Err(_) => unreachable!(),
    }
}
