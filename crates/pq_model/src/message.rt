use crate::flow_mod::FlowMod;
use crate::group_mod::GroupMod;

/// A message from the controller to a switch (OpenFlow 1.3.5, sections 7.3.4 and 7.3.8).
#[derive(Debug, Drop)]
pub enum Message {
    Flow(FlowMod),
    Group(GroupMod),
    /// What came before is carried out before what comes after.
    Barrier { xid: u32 },
}
