ghost use Rattle.std.specs.Prelude.{◌≡◌, IfOk, OnErr, OnOk, slice_get};
ghost use Rattle.std.specs.List.{remove};
ghost use Rattle.pq_model.specs.Install.{IsLawfulInstall};
ghost use Rattle.pq_model.specs.TablesMachine.{hops_sending, injects_sending};
ghost use Rattle.pq_net.specs.Network.{after, opened, sender_of};

use crate::entry::Entry;
use crate::hops::{additions, port_of};
use crate::lookups::copies_of;
use crate::opening::all_tables;
use crate::state::State;
use crate::wiring::Wiring;
use pq_install::{Install, ReportRow};
use pq_model::{Event, Tagged};
use pq_switch::Settled;
use pq_term::Name;
use std::alloc::{AllocError, Global};
use std::marker::Model;

/// A network of switches with what is installed in them, the packets in it, and what the collector has.
#[derive(Drop)]
pub struct Net {
    wiring: Wiring,
    names: Vec<Name>,
    report: Vec<ReportRow>,
    tables: Vec<Settled>,
    state: State,
}

impl Model for Net {
    ghost use Rattle.std.specs.Prelude.{ℕ, List, refl};
    ghost use Rattle.std.specs.Coded.{code_by, coded_list, coded_ℕ, coded×};
    ghost use Rattle.pq_model.specs.Topology.{Topology as TopologyValue};
    ghost use Rattle.pq_model.specs.SwitchMachine.{Tables as TablesValue};
    ghost use Rattle.pq_model.specs.TablesMachine.{Report, TablesState};
    ghost use Rattle.pq_install.specs.contracts.install.ReportRow as rows;
    ghost use Rattle.pq_switch.specs.contracts.settled.Settled as switches;
    ghost use Rattle.pq_net.specs.contracts.state.State as states;
    ghost use Rattle.pq_net.specs.contracts.wiring.Wiring as wirings;
    ghost use Rattle.pq_net.specs.Network.{Network};

    ghost Value = { Network };

    ghost coded = { code_by
        (TopologyValue × (List (List ℕ) × (Report × (List TablesValue × TablesState))))
        (coded× wirings.the_row.coded (coded× (coded_list (coded_list coded_ℕ))
        (coded× (coded_list rows.the_row.coded)
        (coded× (coded_list switches.the_row.coded) states.the_row.coded))))
        (λ n. (n.topology, (n.queries, (n.report, (n.tables, n.state)))))
        (λ p. record {
          topology = p.0;
          queries = p.1.0;
          report = p.1.1.0;
          tables = p.1.1.1.0;
          state = p.1.1.1.1;
        })
        (λ _. refl) };

    ghost use Rattle.pq_net.specs.Stored.{stored_network, IsSearchable};

    ghost view = { stored_network };

    ghost invariant = { λ n. IsSearchable (stored_network n) };
}

impl Net {
    /// The network of an install, with its messages applied to empty tables in order, and with no packet anywhere. It
    /// fails only where there is no memory for it.
    pub fn open(alloc: Global, install: Install) -> Result<Net, AllocError>
        requires { IsLawfulInstall install }
        ensures { IfOk result (λ net. net ≡ opened install) }
    {
        let tables = all_tables(alloc, &install.messages)?;
        let wiring = Wiring::of(alloc, install.topology)?;
        Ok(Net {
            wiring,
            names: install.names,
            report: install.report,
            tables,
            state: State::empty(alloc),
        })
    }

    /// What an event makes of the network. An injection at what is not an edge port, and a hop or a loss at a number that is
    /// no place of the flight list, change nothing; so does a refusal, because memory runs out.
    pub fn event(&mut self, alloc: Global, event: Event) -> Result<(), AllocError>
        ensures ok { OnOk result (self.new ≡ after self.old event) }
        ensures err { OnErr result (self.new ≡ self.old) }
    {
        match event {
            Event::Inject(x) => self.inject(x),
            Event::Hop(place) => self.hop(alloc, place),
            Event::Lose(place) => {
                self.lose(place);
                Ok(())
            }
        }
    }

    /// The packets in flight, in the order in which they came.
    pub fn flight(&self) -> &[Tagged]
        ensures { result.now ≡ self.now.state.flight }
    {
        self.state.flight()
    }

    /// The packets that left at edge ports, in the order in which they did.
    pub fn delivered(&self) -> &[Tagged]
        ensures { result.now ≡ self.now.state.delivered }
    {
        self.state.delivered()
    }

    /// What the collector has, hop by hop, and for one hop by instance and then by packet.
    pub fn buckets(&self) -> &[Entry]
        ensures { result.now ≡ self.now.state.buckets }
    {
        self.state.buckets()
    }

    /// The names of the queries, which the instances of entries count.
    pub fn names(&self) -> &[Name]
        ensures { result.now ≡ self.now.queries }
    {
        &self.names
    }

    fn inject(&mut self, x: Tagged) -> Result<(), AllocError>
        ensures ok { OnOk result (self.new
            ≡ record self.old { state = injects_sending self.old.topology self.old.state x }) }
        ensures err { OnErr result (self.new ≡ self.old) }
    {
        if !self.wiring.is_edge(x.packet.switch, port_of(x.packet)) {
            return Ok(());
        }
        self.state.put(x)
    }

    fn hop(&mut self, alloc: Global, place: u64) -> Result<(), AllocError>
        ensures ok { let moving = slice_get self.old.state.flight place in
            let send = sender_of self.old in
            OnOk result (self.new ≡ record self.old {
              state = hops_sending self.old.topology self.old.report send self.old.state place moving;
            }) }
        ensures err { OnErr result (self.new ≡ self.old) }
    {
        let place = place as usize;
        let Some(x) = self.state.flight().get(place) else {
            return Ok(());
        };
        let sent = copies_of(alloc, &self.wiring, &self.tables, x)?;
        let added = additions(alloc, &self.wiring, &self.report, &sent)?;
        self.state.move_on(place, added)
    }

    fn lose(&mut self, place: u64)
        ensures { let left = remove self.old.state.flight place in
            self.new ≡ record self.old { state = record self.old.state { flight = left } } }
    {
        self.state.drop_at(place as usize);
    }
}
