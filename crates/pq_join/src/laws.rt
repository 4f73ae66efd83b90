//! Laws of the trees of a switch: calls that do nothing, for what their contracts say.
ghost use Rattle.pq_join.specs.Sound.{
  ArrivingAreSound,
  ArrivingStandBelow,
  ArrivingTestPorts,
  LeavingAreSound,
  LeavingStandBelow,
  LeavingTestPorts,
};

/// Law: the trees of a switch have no test of the switch; their leaves have tags of classes, and writes that change the packets
/// that reach them, to numbers that fit, and to ports of the switch.
pub fn trees_are_sound()
    ensures arriving { ArrivingAreSound }
    ensures leaving { LeavingAreSound }
{}

/// Law: where neither letters nor the policy depend on the number in a field that a packet lacks, each test of the trees of a
/// switch is below its prerequisites (OpenFlow 1.3.5, section 7.2.3.6).
pub fn tests_stand_below_prerequisites()
    ensures arriving { ArrivingStandBelow }
    ensures leaving { LeavingStandBelow }
{}

/// Law: port 0, which no packet is at, is not tested by the trees of a switch, where the policy tests numbers of ports alone.
pub fn trees_test_ports()
    ensures arriving { ArrivingTestPorts }
    ensures leaving { LeavingTestPorts }
{}
