// The numbers of a mode, and the activities that it is asked for.
ghost use Rattle.std.specs.Prelude.{◌≡◌, min, ◌+◌, ◌≤◌, ◌<◌};

use super::activities::{Group, Kind};

// A mode: its period, its first activity's row, how many activities of each kind it has, its first driver.
#[derive(Clone, Copy)]
pub(crate) struct Frame {
    pub period: usize,
    pub row: usize,
    pub calls: usize,
    pub updates: usize,
    pub switches: usize,
    pub driver: usize,
    ghost short: { period < 4294967296 },
    ghost placed: { row < 4294967296 },
    ghost few_calls: { calls ≤ 32 },
    ghost few_updates: { updates ≤ 32 },
    ghost few_switches: { switches ≤ 32 },
    ghost based: { driver < 1024 },
}

// A number that is over its room: the room.
pub(crate) fn few(number: u32, room: usize) -> usize
    ensures { result ≡ min number room }
{
    room.min(number as usize)
}

impl Frame {
    ghost use Rattle.emit.specs.Frames.{FrameOf, group_of};

    // The numbers of mode k, whose first driver this is.
    pub(crate) fn of(modes: &[u32], k: usize, driver: usize) -> Self
        requires { (k < 8) × (driver < 1024) }
        ensures { FrameOf modes.now k driver result }
    {
        let at = k * 5;
        Frame {
            period: cells::at32(modes, at) as usize,
            row: cells::at32(modes, at + 4) as usize,
            calls: few(cells::at32(modes, at + 1), 32),
            updates: few(cells::at32(modes, at + 2), 32),
            switches: few(cells::at32(modes, at + 3), 32),
            driver,
        }
    }

    // The activities of a kind.
    #[inline(always)]
    pub(crate) fn group(self, kind: Kind) -> Group
        ensures rows { result ≡ group_of self kind }
        ensures few { result.count ≤ 32 }
        ensures within { (result.row + result.count < 5000000000) × (result.driver + result.count < 4294967296) }
    {
        let Frame {
            row,
            calls,
            updates,
            switches,
            driver,
            ..
        } = self;
        match kind {
            Kind::Termination => Group {
                kind,
                row,
                count: calls,
                driver: 0,
            },
            Kind::Update => Group {
                kind,
                row: row + calls,
                count: updates,
                driver,
            },
            Kind::Switch => Group {
                kind,
                row: row + calls + updates,
                count: switches,
                driver: 0,
            },
            Kind::Release => Group {
                kind,
                row,
                count: calls,
                driver: driver + updates,
            },
        }
    }
}
