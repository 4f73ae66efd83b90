ghost use Rattle.std.specs.Prelude.{◌≡◌};
ghost use Rattle.std.specs.Option.{option_copied};
ghost use Rattle.pq_model.specs.SwitchMachine.{Tables as TablesValue, taken};

use crate::entry::Entry;
use crate::groups::Groups;
use crate::settled::Settled;
use crate::tables::Tables;
use pq_model::Tagged;

/// Tables in which packets are looked up.
pub(crate) trait FlowTables {
    ghost tables: { Self → TablesValue };

    /// The covering entry of highest priority in a table; of several, the one added first.
    fn taken(&self, table: u8, x: &Tagged) -> Option<&Entry>
        ensures { option_copied result ≡ taken (tables self.now).entries table x.now };

    /// The groups.
    fn groups(&self) -> &Groups
        ensures { result.now ≡ (tables self.now).groups };
}

impl FlowTables for Tables {
    ghost tables = { λ t. t };

    fn taken(&self, table: u8, x: &Tagged) -> Option<&Entry>
        ensures { option_copied result ≡ taken self.now.entries table x.now }
    {
        self.entries.taken(table, x)
    }

    fn groups(&self) -> &Groups
        ensures { result.now ≡ self.now.groups }
    {
        &self.groups
    }
}

impl FlowTables for Settled {
    ghost tables = { λ t. t };

    fn taken(&self, table: u8, x: &Tagged) -> Option<&Entry>
        ensures { option_copied result ≡ taken self.now.entries table x.now }
    {
        self.entries.taken(table, x)
    }

    fn groups(&self) -> &Groups
        ensures { result.now ≡ self.now.groups }
    {
        &self.groups
    }
}
