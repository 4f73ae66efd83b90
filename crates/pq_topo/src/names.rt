//! Sets of names.
ghost use Rattle.std.specs.Prelude.{◌≡◌, ◌++◌, ◌∷◌, [], false, bytes_eq, IfErr, OnOk};
ghost use Rattle.std.specs.List.{list_any};

use crate::fault::NameFault;
use indexmap::IndexSet;
use pq_term::Name;

/// Whether the name is one of these.
#[tactic(auto, using(crate::proofs::SameNames::among_names))]
pub fn has_name(names: &IndexSet<Name>, name: &Name) -> bool
    ensures { result ≡ list_any (λ n. bytes_eq name.now n) names.now.keys }
{
    names.contains(name)
}

/// Adds a new name after the others; it fails only where there is no memory for it.
#[tactic(auto, using(crate::proofs::SameNames::new_name_last))]
pub fn add_name(names: &mut IndexSet<Name>, name: Name) -> Result<(), NameFault>
    requires { list_any (λ n. bytes_eq name n) names.now.keys ≡ false }
    ensures keys { OnOk result (names.new.keys ≡ names.old.keys ++ name ∷ []) }
    ensures err { IfErr result (λ fault. fault ≡ NameFault.Memory) }
{
    match names.insert(name) {
        Ok(_) => Ok(()),
        Err(_) => Err(NameFault::Memory),
    }
}
