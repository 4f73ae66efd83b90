ghost use Rattle.std.specs.Prelude.{◌≡◌, All, map, IfOk};
ghost use Rattle.pq_model.specs.Install.{IsLawfulList};
ghost use Rattle.pq_model.specs.Lawful.{IsLawfulMessage};
ghost use Rattle.pq_model.specs.SwitchMachine.{applies_all, no_tables};

use pq_model::Message;
use pq_switch::{Settled, Tables};
use std::alloc::{AllocError, Global};

/// The tables that each switch's messages leave in empty ones.
pub(crate) fn all_tables(alloc: Global, lists: &[Vec<Message>]) -> Result<Vec<Settled>, AllocError>
    requires { All IsLawfulList (map (λ ms. ms.items) lists.now) }
    ensures { IfOk result (λ tables. tables.items
        ≡ map (applies_all no_tables) (map (λ ms. ms.items) lists.now)) }
{
    let mut tables = Vec::new(alloc);
    for messages in lists {
        tables.push(tables_after(alloc, messages)?)?;
    }
    Ok(tables)
}

// The tables that messages leave in empty ones, applied in order.
fn tables_after(alloc: Global, messages: &[Message]) -> Result<Settled, AllocError>
    requires { IsLawfulList messages.now }
    ensures { IfOk result (λ tables. tables ≡ applies_all no_tables messages.now) }
{
    let mut tables = Tables::empty(alloc);
    for message in messages {
        tables.apply(alloc, message)?;
    }
    tables.settle(alloc)
}
