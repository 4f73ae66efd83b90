//! Numbers of ports and groups that OpenFlow 1.3.5 reserves (sections 7.2.1 and 7.3.4.2).

/// The greatest number of a port and of a group that is not reserved: `OFPP_MAX`, `OFPG_MAX`.
pub const LAST_PORT: u32 = 0xffff_ff00;

/// As an Output's port: back to the port that the packet arrived at, `OFPP_IN_PORT`.
pub const IN_PORT: u32 = 0xffff_fff8;

/// As an Output's port: to the controller, `OFPP_CONTROLLER`.
pub const CONTROLLER: u32 = 0xffff_fffd;

/// As the number of a group to delete: all groups, `OFPG_ALL`.
pub const ALL_GROUPS: u32 = 0xffff_fffc;
