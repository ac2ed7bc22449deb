//! Dewey versions: lists of digits, ordered by "begins".
//!
//! A clause sees a `Version` as the list of its digits.
#![tactic(auto)]

ghost use Rattle.std.specs.Prelude.{◌≡◌, ◌<◌, ◌≤◌, [], ◌∷◌, ◌++◌, IfOk, IsOk, length};
ghost use Rattle.dewey_version.specs.Version.{begins, version_cmp};

use cep_event::NoMemory;
use smallvec::SmallVec;
use std::alloc::Global;
use std::cmp::Ordering;
use std::marker::Model;

/// How many digits a version holds with no memory of its own.
pub const INLINE_DIGITS: usize = 8;

/// A list of digits, which names one path among those that share nodes.
#[derive(Drop)]
pub struct Version {
    digits: SmallVec<u64, INLINE_DIGITS>,
}

impl Model for Version {
    ghost use Rattle.std.specs.Prelude.{List, ℕ};

    ghost Value = { List ℕ };

    ghost view = { λ v. v.digits.items };
}

impl Version {
    /// The version with no digit. It takes no memory.
    pub fn empty(alloc: Global) -> Version
        ensures { result ≡ [] }
    {
        Version {
            digits: SmallVec::new(alloc),
        }
    }

    /// This version with one more digit at its end. It takes memory only for a ninth digit and those after it.
    pub fn child(&self, digit: u64) -> Result<Version, NoMemory>
        ensures appended { IfOk result (λ child. child ≡ self.now ++ digit ∷ []) }
        ensures inline { length self.now < 8 → IsOk result }
    {
        let mut digits = SmallVec::from_slice(*self.digits.allocator(), self.digits.as_slice())?;
        digits.push(digit)?;
        Ok(Version { digits })
    }

    /// Whether this version is a prefix of the other.
    pub fn begins(&self, other: &Version) -> bool
        ensures { result ≡ begins self.now other.now }
    {
        other.digits.as_slice().starts_with(self.digits.as_slice())
    }

    /// The place of this version in order against the other: by the first digits that differ, and a proper prefix first.
    pub fn compare(&self, other: &Version) -> Ordering
        ensures { result ≡ version_cmp self.now other.now }
    {
        self.digits.as_slice().cmp(other.digits.as_slice())
    }

    /// How many digits it has.
    pub fn len(&self) -> usize
        ensures { result ≡ length self.now }
    {
        self.digits.len()
    }

    /// An equal version. Up to eight digits are copied with no memory taken.
    pub fn copy(&self) -> Result<Version, NoMemory>
        ensures same { IfOk result (λ copy. copy ≡ self.now) }
        ensures inline { length self.now ≤ 8 → IsOk result }
    {
        let digits = SmallVec::from_slice(*self.digits.allocator(), self.digits.as_slice())?;
        Ok(Version { digits })
    }
}

#[cfg(test)]
mod tests {
    use super::{NoMemory, Version};
    use std::alloc::Global;
    use std::cmp::Ordering;
    use std::test::Fail;

    fn version(alloc: Global, digits: &[u64]) -> Result<Version, NoMemory> {
        let mut version = Version::empty(alloc);
        for digit in digits {
            version = version.child(*digit)?;
        }
        Ok(version)
    }

    #[test]
    fn prefixes(rt: HostRuntime) -> Result<(), Fail> {
        let alloc = rt.alloc();
        let long = [0, 1, 2, 3, 4, 5, 6, 7, 8, 9];
        let cases: [(&[u64], &[u64], bool); 7] = [
            (&[], &[], true),
            (&[], &[3], true),
            (&[3], &[], false),
            (&[0, 7], &[0, 7, 0], true),
            (&[0, 7], &[0, 0, 7], false),
            (&[0, 7], &[0, 7], true),
            (&[0, 1, 2, 3, 4, 5, 6, 7, 8], &long, true),
        ];
        for (part, whole, expected) in cases {
            let part = version(alloc, part)?;
            let whole = version(alloc, whole)?.copy()?;
            assert_eq!(rt; part.begins(&whole), expected);
        }
        assert_eq!(rt; version(alloc, &long)?.len(), 10);
        assert_eq!(rt;
            version(alloc, &[0, 7])?.compare(&version(alloc, &[0, 7, 0])?),
            Ordering::Less
        );
        Ok(())
    }
}
