// What is counted of a mode and of its activities.
ghost use Rattle.std.specs.Prelude.{◌≡◌};
ghost use Rattle.sheets.specs.Sheets.{guard_cell, guards_after, acted, mode_opened, closed};

use super::numbers::clamp;
use sheets::{Acting, Filled, Opened, Plan};
use text::Name;

// An activity's guard: 0 none, else its number and 1.
pub fn guard_cell(acting: Acting, guards: u32) -> u32
    ensures { result ≡ guard_cell acting guards }
{
    if acting.function == 0 {
        0
    } else {
        guards.saturating_add(1)
    }
}

// How many guards there are behind an activity.
fn guards_after(acting: Acting, guards: u32) -> u32
    ensures { result ≡ guards_after acting guards }
{
    if acting.function == 0 {
        guards
    } else {
        guards.saturating_add(1)
    }
}

// What is kept behind an activity: its guard counts, and nothing of it is under way but its frequency.
pub fn act_done(plan: Plan, opened: Opened) -> Plan
    ensures { result ≡ acted plan opened }
{
    let Plan { filled, acting, .. } = plan;
    Plan {
        filled: Filled {
            guards: guards_after(acting, filled.guards),
            ..filled
        },
        opened,
        acting: super::begin(acting.frequency, 0),
    }
}

// A mode's begin.
pub fn mode_begun(s: &[u8], plan: Plan, start: bool, name: Name, digits: Name, milli: bool) -> Plan
    ensures { result ≡ mode_opened s.now plan start name digits milli }
{
    Plan {
        opened: Opened {
            name,
            start: u32::from(start),
            period: clamp(activities::period_of(s, digits, milli)),
            calls: 0,
            updates: 0,
            switches: 0,
            sources: 0,
        },
        ..plan
    }
}

// What is filled behind the mode under way.
pub fn close(filled: Filled, opened: Opened) -> Filled
    ensures { result ≡ closed filled opened }
{
    let works = opened.updates.saturating_add(opened.calls);
    let acts = works.saturating_add(opened.switches);
    Filled {
        drivers: filled.drivers.saturating_add(works),
        acts: filled.acts.saturating_add(acts),
        modes: filled.modes.saturating_add(1),
        ..filled
    }
}
