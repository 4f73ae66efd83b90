use pq_flowmod::Message;
use pq_model::Instance;
use pq_term::Name;
use pq_topo::Topology;
use std::marker::Model;

/// A row of the report: what the controller makes of a packet that comes with a tag.
#[derive(Debug, Drop)]
pub struct ReportRow {
    /// The VLAN number, 1 to 4,094.
    pub tag: u16,
    /// The instances that have seen the packet, ascending; at least one.
    pub pairs: Vec<Instance>,
}

impl Model for ReportRow {
    ghost use Rattle.pq_model.specs.TablesMachine.{Row};

    ghost Value = { Row };

    ghost view = { λ r. record { tag = r.tag; pairs = r.pairs.items } };
}

/// All that is installed in a network.
#[derive(Debug, Drop)]
pub struct Install {
    pub topology: Topology,
    /// The names of the queries.
    pub names: Vec<Name>,
    /// The rows, ascending by their tags.
    pub report: Vec<ReportRow>,
    /// The messages to each switch, in the topology's order.
    pub messages: Vec<Vec<Message>>,
}

impl Model for Install {
    ghost use Rattle.std.specs.Prelude.{map};
    ghost use Rattle.pq_model.specs.Install.{Install as InstallValue};

    ghost Value = { InstallValue };

    ghost view = { λ i. record { topology = i.topology; queries = i.names.items; report = i.report.items; messages = map (λ ms. ms.items) i.messages.items } };
}
