ghost use Rattle.std.specs.Prelude.{◌≡◌, ℕ, List, IfErr, IfOk};
ghost use Rattle.pq_model.specs.Events.{IsSchedule};
ghost use Rattle.pq_schedule.specs.Schedules.{FirstFault, IsScheduleText, IsScheduleFault, IsTooLong};

use crate::event_line::event_of_line;
use pq_model::Event;
use pq_term::cut_at;
use std::alloc::Global;

/// The most events of a schedule.
const EVENT_LIMIT: usize = 100_000;

/// Why a text is not a schedule.
#[derive(Clone, Copy, Debug, PartialEq, Eq)]
pub enum ScheduleFault {
    /// A line is not an event; its first byte is at this place, counted from 0.
    Syntax { at: usize },
    /// There are more than 100,000 events.
    Full,
    /// Memory ran out.
    Memory,
}

/// The events of a schedule: lines that are events, each ended by a line feed, at most 100,000 of them.
///
/// `Syntax` is answered exactly where the first line that is not an event, which an empty line and an unended last one
/// are too, is after at most 100,000 events; `Full` exactly where the first 100,001 lines are all events.
pub fn read_schedule(alloc: Global, text: &[u8]) -> Result<Vec<Event>, ScheduleFault>
    ensures ok { IfOk result (λ events. IsScheduleText text.now events.items) }
    ensures may_happen { IfOk result (λ events. IsSchedule events.items) }
    ensures err { IfErr result (IsScheduleFault text.now) }
{
    let mut events = Vec::new(alloc);
    let mut rest = text;
    while !rest.is_empty() {
        let (line, behind) = cut_at(b'\n', rest);
        let Some(behind) = behind else {
            return Err(ScheduleFault::Syntax {
                at: text.len() - rest.len(),
            });
        };
        let Some(event) = event_of_line(line) else {
            return Err(ScheduleFault::Syntax {
                at: text.len() - rest.len(),
            });
        };
        if events.len() == EVENT_LIMIT {
            return Err(ScheduleFault::Full);
        }
        match events.push(event) {
            Ok(()) => {}
            Err(_) => return Err(ScheduleFault::Memory),
        }
        rest = behind;
    }
    Ok(events)
}

/// What a text is answered is settled by the text, but for memory: it has at most one list of events, or a first
/// line that is not an event at one place, or too many events, and never two of the three. It does nothing when it runs.
pub fn a_text_is_read_one_way()
    ensures schedule { (text : List ℕ) (xs ys : List Event)
        → IsScheduleText text xs → IsScheduleText text ys → xs ≡ ys }
    ensures fault { (text : List ℕ) (p q : ℕ) → FirstFault text p → FirstFault text q → p ≡ q }
    ensures schedule_or_fault { (text : List ℕ) (xs : List Event) (p : ℕ)
        → IsScheduleText text xs → FirstFault text p → ⊥ }
    ensures schedule_or_full { (text : List ℕ) (xs : List Event)
        → IsScheduleText text xs → IsTooLong text → ⊥ }
    ensures fault_or_full { (text : List ℕ) (p : ℕ) → FirstFault text p → IsTooLong text → ⊥ }
{}
