// What is compared of two slices, and of a slice and what it was.

// The first n places, all where there are fewer.
pub(crate) fn front<T>(s: &[T], n: usize) -> &[T] {
    &s[..n.min(s.len())]
}

// Those after the first n.
pub(crate) fn back<T>(s: &[T], n: usize) -> &[T] {
    &s[n.min(s.len())..]
}

// It is `front` again: no one function lends its slice both ways, as the library has `get` and `get_mut`.
pub(crate) fn front_mut<T>(s: &mut [T], n: usize) -> &mut [T] {
    let end = n.min(s.len());
    &mut s[..end]
}

// How many places differ, and the lengths.
pub(crate) fn differ<T: PartialEq>(a: &[T], b: &[T]) -> usize {
    let unequal = a.iter().zip(b).filter(|(x, y)| x != y).count();
    unequal.saturating_add(a.len().abs_diff(b.len()))
}

// How many places are not as they were.
pub(crate) fn changed<T: PartialEq>(s: &[T], was: &T) -> usize {
    s.iter().filter(|x| *x != was).count()
}
