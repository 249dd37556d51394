//! The versions of the language.
ghost use Rattle.std.specs.Prelude.{◌≡◌};
ghost use Rattle.script_table.specs.Versions.{version_number, most_of};

/// A version of the script language. A text whose first line with words is `version 2` is of version 2, every other of version 1.
#[derive(Clone, Copy)]
pub enum Version {
    One,
    /// With strict servers, and more threads, mutexes, conditions and semaphores.
    Two,
}

impl Version {
    /// Its number: 1 or 2.
    pub fn number(self) -> u8
        ensures { result ≡ version_number self }
    {
        match self {
            Version::One => 1,
            Version::Two => 2,
        }
    }

    /// How many threads a script of this version may have at most, and as many mutexes, conditions and semaphores of each: 64 or 256.
    pub fn most(self) -> u64
        ensures { result ≡ most_of self }
    {
        match self {
            Version::One => 64,
            Version::Two => 256,
        }
    }
}
