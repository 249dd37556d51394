//! A look goes over many facts that tell nothing.
ghost use Rattle.std.specs.Prelude.{ℕ, ◌≡◌, ◌≤◌, ◌<◌, ◌+◌, false, length};
ghost use Rattle.kernel_seen.specs.FactSeen.{may_tell};
ghost use Rattle.kernel_looks.specs.Nothings.{WentKnown, nothings};

use crate::desk::Desk;

impl Desk {
    // How many facts from here on have a text and a subject, of so many.
    fn told_ahead(&self, count: usize) -> usize
        requires told { self.now.at ≤ length self.now.told.texts }
        requires subjects { self.now.at ≤ length self.now.subjects.texts }
        ensures few { result ≤ count }
        ensures told { self.now.at + result ≤ length self.now.told.texts }
        ensures subjects { self.now.at + result ≤ length self.now.subjects.texts }
    {
        let most = self.told.count().min(self.subjects.count());
        count.min(most - self.at)
    }

    // How many facts from here on told nothing, of so many, as far as that is seen at once.
    fn quiet_ahead(&self, count: usize) -> usize
        requires told { self.now.at ≤ length self.now.told.texts }
        requires subjects { self.now.at ≤ length self.now.subjects.texts }
        ensures few { result ≤ count }
        ensures told { self.now.at + result ≤ length self.now.told.texts }
        ensures subjects { self.now.at + result ≤ length self.now.subjects.texts }
        ensures quiet { (i : ℕ) → i < result → may_tell (self.now.at + i) self.now.seen.busy ≡ false }
    {
        // so it is known that there are fewer than 2^64
        let _count = self.told.count();
        self.seen.quiet_from(self.at, self.told_ahead(count))
    }

    // The look goes over facts that tell nothing, as they did, and answers how many these are, of so many.
    fn go_over_empty(&mut self, count: usize) -> usize
        ensures went { WentKnown self.old self.new (nothings result) }
        ensures few { result ≤ count }
    {
        if self.at > self.told.count() || self.at > self.subjects.count() {
            return 0;
        }
        let empty = self.quiet_ahead(count);
        self.at += empty;
        empty
    }

    // The look goes over the next facts that tell nothing, of so many, and answers how many these are: those that told nothing at once, or
    // else one.
    fn go_over_next(&mut self, count: usize) -> usize
        requires { 0 < count }
        ensures went { WentKnown self.old self.new (nothings result) }
        ensures few { result ≤ count }
        ensures some { 0 < result }
    {
        let empty = self.go_over_empty(count);
        if empty > 0 {
            return empty;
        }
        self.go_over_nothing();
        1
    }

    /// The look goes over so many facts that tell nothing. Mostly one word shows that they told nothing.
    #[inline(always)]
    pub(crate) fn go_over_nothings(&mut self, count: usize)
        ensures { WentKnown self.old self.new (nothings count) }
    {
        let empty = self.go_over_empty(count);
        if empty == count {
            return;
        }
        self.go_over_others(count - empty);
    }

    // The same, of which some may have told something.
    #[inline(never)]
    fn go_over_others(&mut self, count: usize)
        ensures { WentKnown self.old self.new (nothings count) }
    {
        let mut gone = 0;
        while gone < count {
            gone += self.go_over_next(count - gone);
        }
    }
}
