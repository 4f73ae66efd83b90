ghost use Rattle.std.specs.Prelude.{◌≡◌, IfOk};
ghost use Rattle.pq_auto.specs.Machine.{SaySame};

use crate::classes::Classes;
use pq_auto::{Automaton, least};
use std::alloc::{AllocError, Global};

/// The least automaton that says the same of each word. The automaton is given up, also on a refusal.
pub fn minimise(alloc: Global, automaton: Automaton) -> Result<Classes, AllocError>
    ensures letters { IfOk result (λ c. c.letters ≡ automaton.letters) }
    ensures same { IfOk result (λ c. SaySame automaton c) }
{
    automaton.is_lawful();
    let table = least(alloc, automaton.table())?;
    table.is_lawful();
    Ok(Classes { table })
}
