//! Whether the waiters of a condition wait with another mutex.
ghost use Rattle.std.specs.Prelude.{◌≡◌};
ghost use Rattle.std.specs.List.{list_any};
ghost use Rattle.rules_machine.specs.Conditions.{waits_with_other_mutex};
ghost use Rattle.rules_machine.specs.Waiters.{waits_so};

use crate::table::Table;
use words_numbers::ObjId;

impl Table {
    /// Whether a thread waits for the condition with another mutex.
    pub fn is_bound_elsewhere(&self, c: ObjId, k: ObjId) -> bool
        ensures { result ≡ list_any (waits_so (waits_with_other_mutex c k)) self.now.threads }
    {
        self.waits.is_bound_elsewhere(c, k)
    }
}
