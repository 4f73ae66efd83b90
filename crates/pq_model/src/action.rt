use pq_fields::Field;

/// An action of a flow entry or of a group's bucket (OpenFlow 1.3.5, section 7.2.5).
#[derive(Clone, Copy, Debug, PartialEq, Eq)]
pub enum Action {
    /// Send a copy to this port, back to the arriving port (`IN_PORT`, 0xfffffff8), or to the controller
    /// (`CONTROLLER`, 0xfffffffd).
    Output(u32),
    /// Put a VLAN header of type 0x8100 in front.
    PushVlan,
    /// Take the VLAN header away.
    PopVlan,
    /// Run the buckets of the group with this number.
    Group(u32),
    /// Write the VLAN_VID word: 0x1000 and the VLAN number together.
    SetVlan(u16),
    /// Write this number into a header field.
    SetField(Field, u64),
}
