//! CLOCK_REALTIME is set.
ghost use Rattle.std.specs.Prelude.{◌≡◌, ◌≤◌, ◌^◌};
ghost use Rattle.kernel_state.specs.Kernel.{after};
ghost use Rattle.kernel_state.specs.RealTimes.{sets_clock};

use crate::clock::Clock;
use crate::parts::Parts;
use kernel_table::Setting;

impl Parts {
    /// CLOCK_REALTIME reads that now. Each time on it that a thread waits for, or a timer, comes when the clock then reads it, and now
    /// where it does or has passed.
    pub fn set_real_clock(&mut self, reading: u64)
        requires reading { reading ≤ 10 ^ 18 }
        requires early { self.old.machine.now ≤ 10 ^ 18 }
        ensures { self.new ≡ after (sets_clock reading) self.old }
    {
        let set = Setting {
            at: self.instant,
            before: self.real_time(),
            reading,
        };
        self.table.move_times(&set);
        self.clock = Clock::at(reading, self.instant);
    }
}
