//! What is left of a map or a set: the slices that an iterator has not come to yet.
ghost use Rattle.std.specs.Prelude.{◌≡◌, ◌<◌, ◌++◌, ◌∷◌, [], length, zip, IfSome, Some, ⊤};
ghost use Rattle.std.specs.Iterator.{UpTo, at_most};
ghost use Rattle.std.specs.Iterator.SizeHint.{IsWithinCount};
ghost use Rattle.std.specs.Map.Iter.{TakesFirst, TakesLast, deref, deref_pair};

use std::alloc::AllocError;
use std::fmt;
use std::iter::FusedIterator;
use std::marker::Model;

/// The last of a slice, and what stands before it.
fn last_and_rest<T>(left: &[T]) -> (&T, &[T])
    requires { 0 < length left.now }
    ensures { left.now ≡ result.1.now ++ result.0.now ∷ [] }
{
    let last = left.len() - 1;
    (&left[last], &left[..last])
}

/// The entries of a map that are left, each a key and its value.
#[derive(Drop)]
pub struct Iter<'a, K, V> {
    pub(crate) keys: &'a [K],
    pub(crate) values: &'a [V],
}

impl<'a, K, V> Model for Iter<'a, K, V> {
    ghost use Rattle.std.specs.Prelude.{◌≡◌, List, length, zip};

    ghost Value = { List (K × V) };

    ghost view = { λ a. zip a.keys.now a.values.now };

    ghost invariant = { λ a. length a.values.now ≡ length a.keys.now };
}

impl<'a, K, V> Iter<'a, K, V> {
    /// Each key with the value at its place.
    pub(crate) fn over(keys: &'a [K], values: &'a [V]) -> Iter<'a, K, V>
        requires { length values.now ≡ length keys.now }
        ensures { result ≡ zip keys.now values.now }
    {
        Iter { keys, values }
    }
}

impl<'a, K, V> Iterator for Iter<'a, K, V> {
    type Item = (&'a K, &'a V);

    ghost next_gives = { TakesFirst deref_pair };

    ghost remaining = { λ s. at_most (length s) };

    fn next(&mut self) -> Option<(&'a K, &'a V)> {
        if self.keys.is_empty() {
            return None;
        }
        let pair = (&self.keys[0], &self.values[0]);
        self.keys = &self.keys[1..];
        self.values = &self.values[1..];
        Some(pair)
    }

    fn size_hint(&self) -> (usize, Option<usize>)
        ensures exact { result ≡ (length self.now, Some (length self.now)) }
        ensures lower { IsWithinCount result.0 (at_most (length self.now)) }
        ensures upper { IfSome result.1 (UpTo (at_most (length self.now))) }
    {
        let left = self.len();
        (left, Some(left))
    }
}

impl<'a, K, V> DoubleEndedIterator for Iter<'a, K, V> {
    ghost next_back_gives = { TakesLast deref_pair };

    fn next_back(&mut self) -> Option<(&'a K, &'a V)> {
        if self.keys.is_empty() {
            return None;
        }
        let (key, keys) = last_and_rest(self.keys);
        let (value, values) = last_and_rest(self.values);
        self.keys = keys;
        self.values = values;
        Some((key, value))
    }
}

impl<'a, K, V> ExactSizeIterator for Iter<'a, K, V> {
    fn len(&self) -> usize {
        self.keys.len()
    }
}

impl<'a, K, V> FusedIterator for Iter<'a, K, V> {}

impl<'a, K, V> Clone for Iter<'a, K, V> {
    ghost is_clone = { λ s r. r ≡ s };

    ghost is_infallible = { λ _. ⊤ };

    fn clone(&self) -> Result<Iter<'a, K, V>, AllocError> {
        Ok(Iter::over(self.keys, self.values))
    }
}

impl<'a, K: fmt::Debug, V: fmt::Debug> fmt::Debug for Iter<'a, K, V> {
    fn fmt<W: fmt::Write>(&self, f: &mut fmt::Formatter<W>) -> fmt::Result {
        let mut list = f.debug_list();
        for place in 0..self.keys.len() {
            list.entry(&(&self.keys[place], &self.values[place]));
        }
        list.finish()
    }
}

/// The values of a map, or the keys of a map or a set, that are left.
#[derive(Drop)]
pub struct Values<'a, V> {
    left: &'a [V],
}

impl<'a, V> Model for Values<'a, V> {
    ghost use Rattle.std.specs.Prelude.{List};

    ghost Value = { List V };

    ghost view = { λ a. a.left.now };
}

impl<'a, V> Values<'a, V> {
    /// All of a slice.
    pub(crate) fn of(left: &'a [V]) -> Values<'a, V>
        ensures { result ≡ left.now }
    {
        Values { left }
    }

    /// What is left, in one piece.
    pub fn as_slice(&self) -> &'a [V]
        ensures { result.now ≡ self.now }
    {
        self.left
    }
}

impl<'a, V> Iterator for Values<'a, V> {
    type Item = &'a V;

    ghost next_gives = { TakesFirst deref };

    ghost remaining = { λ s. at_most (length s) };

    fn next(&mut self) -> Option<&'a V> {
        if self.left.is_empty() {
            return None;
        }
        let first = &self.left[0];
        self.left = &self.left[1..];
        Some(first)
    }

    fn size_hint(&self) -> (usize, Option<usize>)
        ensures exact { result ≡ (length self.now, Some (length self.now)) }
        ensures lower { IsWithinCount result.0 (at_most (length self.now)) }
        ensures upper { IfSome result.1 (UpTo (at_most (length self.now))) }
    {
        let left = self.len();
        (left, Some(left))
    }
}

impl<'a, V> DoubleEndedIterator for Values<'a, V> {
    ghost next_back_gives = { TakesLast deref };

    fn next_back(&mut self) -> Option<&'a V> {
        if self.left.is_empty() {
            return None;
        }
        let (value, left) = last_and_rest(self.left);
        self.left = left;
        Some(value)
    }
}

impl<'a, V> ExactSizeIterator for Values<'a, V> {
    fn len(&self) -> usize {
        self.left.len()
    }
}

impl<'a, V> FusedIterator for Values<'a, V> {}

impl<'a, V> Clone for Values<'a, V> {
    ghost is_clone = { λ s r. r ≡ s };

    ghost is_infallible = { λ _. ⊤ };

    fn clone(&self) -> Result<Values<'a, V>, AllocError> {
        Ok(Values { left: self.left })
    }
}

impl<'a, V: fmt::Debug> fmt::Debug for Values<'a, V> {
    fn fmt<W: fmt::Write>(&self, f: &mut fmt::Formatter<W>) -> fmt::Result {
        f.debug_list().entries(self.left).finish()
    }
}
