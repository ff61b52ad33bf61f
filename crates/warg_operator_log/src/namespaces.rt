//! The namespaces of a log, one after another.
ghost use Rattle.std.specs.Prelude.{◌≡◌, ⊤, length, IfSome, Some};
ghost use Rattle.std.specs.Iterator.{UpTo, at_most};
ghost use Rattle.std.specs.Iterator.SizeHint.{IsWithinCount};
ghost use Rattle.std.specs.Map.Iter.{TakesFirst, TakesLast};
ghost use Rattle.warg_operator_log.specs.NamespaceMap.{namespace_view};

use crate::namespace::NamespaceState;
use std::alloc::AllocError;
use std::fmt;
use std::iter::FusedIterator;
use std::marker::Model;
use warg_maps::Iter;

/// The namespaces of a log, each its name and what it is, in the order in which they came to the log.
#[derive(Drop)]
pub struct Namespaces<'a> {
    pub(crate) inner: Iter<'a, String, NamespaceState>,
}

impl<'a> Model for Namespaces<'a> {
    ghost use Rattle.std.specs.Prelude.{ℕ, List};
    ghost use Rattle.warg_operator_log.specs.Namespaces.{Namespace};
    ghost use Rattle.warg_operator_log.specs.NamespaceMap.{namespace_entries};

    ghost Value = { List (List ℕ × Namespace) };

    ghost view = { λ a. namespace_entries a.inner };
}

impl<'a> Iterator for Namespaces<'a> {
    type Item = (&'a str, &'a NamespaceState);

    ghost next_gives = { TakesFirst (λ e. (e.0.now, namespace_view e.1.now)) };

    ghost remaining = { λ s. at_most (length s) };

    fn next(&mut self) -> Option<(&'a str, &'a NamespaceState)> {
        match self.inner.next() {
            Some((name, state)) => Some((name.as_str(), state)),
            None => None,
        }
    }

    fn size_hint(&self) -> (usize, Option<usize>)
        ensures exact { result ≡ (length self.now, Some (length self.now)) }
        ensures lower { IsWithinCount result.0 (at_most (length self.now)) }
        ensures upper { IfSome result.1 (UpTo (at_most (length self.now))) }
    {
        let len = self.len();
        (len, Some(len))
    }
}

impl<'a> DoubleEndedIterator for Namespaces<'a> {
    ghost next_back_gives = { TakesLast (λ e. (e.0.now, namespace_view e.1.now)) };

    fn next_back(&mut self) -> Option<(&'a str, &'a NamespaceState)> {
        match self.inner.next_back() {
            Some((name, state)) => Some((name.as_str(), state)),
            None => None,
        }
    }
}

impl<'a> ExactSizeIterator for Namespaces<'a> {
    fn len(&self) -> usize {
        self.inner.len()
    }
}

impl<'a> FusedIterator for Namespaces<'a> {}

impl<'a> Clone for Namespaces<'a> {
    ghost is_clone = { λ s r. r ≡ s };

    ghost is_infallible = { λ _. ⊤ };

    fn clone(&self) -> Result<Namespaces<'a>, AllocError> {
        Ok(Namespaces {
            inner: self.inner.clone()?,
        })
    }
}

impl<'a> fmt::Debug for Namespaces<'a> {
    fn fmt<W: fmt::Write>(&self, f: &mut fmt::Formatter<W>) -> fmt::Result {
        fmt::Debug::fmt(&self.inner, f)
    }
}
