//! The releases of a log, one after another.
ghost use Rattle.std.specs.Prelude.{◌≡◌};

use crate::release::Release;
use semver::Version;
use std::alloc::AllocError;
use std::fmt;
use std::iter::FusedIterator;
use std::marker::Model;
use warg_maps::Values;

/// The releases of a log, in the order of their release.
#[derive(Drop)]
pub struct Releases<'a> {
    pub(crate) inner: Values<'a, Release>,
}

impl<'a> Model for Releases<'a> {
    ghost use Rattle.std.specs.Prelude.{List, map};
    ghost use Rattle.warg_package_log.specs.Releases.{ReleaseView};
    ghost use Rattle.warg_package_log.specs.ReleaseMap.{release_view};

    ghost Value = { List ReleaseView };

    ghost view = { λ a. map release_view a.inner };
}

impl<'a> Iterator for Releases<'a> {
    type Item = &'a Release;

    ghost use Rattle.std.specs.Prelude.{length, IfSome, Some};
    ghost use Rattle.std.specs.Iterator.{UpTo, at_most};
    ghost use Rattle.std.specs.Iterator.SizeHint.{IsWithinCount};
    ghost use Rattle.std.specs.Map.Iter.{TakesFirst};
    ghost use Rattle.warg_package_log.specs.ReleaseMap.{release_view};

    ghost next_gives = { TakesFirst (λ r. release_view r.now) };

    ghost remaining = { λ s. at_most (length s) };

    fn next(&mut self) -> Option<&'a Release> {
        self.inner.next()
    }

    fn size_hint(&self) -> (usize, Option<usize>)
        ensures exact { result ≡ (length self.now, Some (length self.now)) }
        ensures lower { IsWithinCount result.0 (at_most (length self.now)) }
        ensures upper { IfSome result.1 (UpTo (at_most (length self.now))) }
    {
        let len = self.len();
        (len, Some(len))
    }
}

impl<'a> DoubleEndedIterator for Releases<'a> {
    ghost use Rattle.std.specs.Map.Iter.{TakesLast};
    ghost use Rattle.warg_package_log.specs.ReleaseMap.{release_view};

    ghost next_back_gives = { TakesLast (λ r. release_view r.now) };

    fn next_back(&mut self) -> Option<&'a Release> {
        self.inner.next_back()
    }
}

impl<'a> ExactSizeIterator for Releases<'a> {
    fn len(&self) -> usize {
        self.inner.len()
    }
}

impl<'a> FusedIterator for Releases<'a> {}

impl<'a> Clone for Releases<'a> {
    ghost use Rattle.std.specs.Prelude.{⊤};

    ghost is_clone = { λ s r. r ≡ s };

    ghost is_infallible = { λ _. ⊤ };

    fn clone(&self) -> Result<Releases<'a>, AllocError> {
        Ok(Releases {
            inner: self.inner.clone()?,
        })
    }
}

impl<'a> fmt::Debug for Releases<'a> {
    fn fmt<W: fmt::Write>(&self, f: &mut fmt::Formatter<W>) -> fmt::Result {
        f.debug_list().entries(self.inner.as_slice()).finish()
    }
}
