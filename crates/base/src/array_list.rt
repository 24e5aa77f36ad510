// A list of at most N items in an array of its own.
ghost use Rattle.std.specs.Prelude.{◌≡◌, ◌≤◌, ◌++◌, ◌∷◌, [], ⊤, if◌then◌else◌, length, take, nat_le, nat_lt};
ghost use Rattle.std.specs.Option.{option_map};

use std::alloc::AllocError;
use std::marker::Model;

/// A list of at most N items: it is `Copy` where its items are, and nothing is allocated.
pub struct ArrayList<T, const N: usize> {
    // The first `count` items are the list.
    items: [T; N],
    count: usize,
}

impl<T, const N: usize> Model for ArrayList<T, N> {
    ghost use Rattle.std.specs.Prelude.{◌≡◌, ◌≤◌, ◌++◌, length, take, drop};
    ghost use Rattle.std.proofs.Common.{arith, take-append-drop, length-take-le};
    ghost use Rattle.base.specs.Lists.{ArrayContents};

    ghost Value = { ArrayContents T };

    ghost view = { λ l. record { items = take l.count l.items; rest = drop l.count l.items } };

    ghost invariant = { λ l. (l.count ≤ N) × (length l.items ≡ N) };

    ghost inverse = { λ l. record { items = l.items ++ l.rest; count = length l.items } };

    ghost inverse_ok = { λ l h i. record {
      items = take-append-drop l.count l.items i;
      count = length-take-le l.count l.items (omega (arith, h.0, h.1)) i;
    } };
}

impl<T: Copy, const N: usize> Copy for ArrayList<T, N> {}

// By hand, so that a clone is the list itself: a derived one promises only that the fields are clones of each other.
impl<T: Copy, const N: usize> Clone for ArrayList<T, N> {
    ghost is_clone = { λ x y. y ≡ x };

    ghost is_infallible = { λ _. ⊤ };

    fn clone(&self) -> Result<Self, AllocError> {
        Ok(*self)
    }
}

impl<T: Copy, const N: usize> ArrayList<T, N> {
    /// An empty list; the array is filled with `filler`.
    pub fn new(filler: T) -> Self
        ensures { result.items ≡ [] }
    {
        ArrayList {
            items: [filler; N],
            count: 0,
        }
    }

    /// A list of these items, if they fit; the rest of the array is filled with `filler`.
    pub fn of(items: &[T], filler: T) -> Option<Self>
        ensures { option_map (λ l. l.items) result ≡ (if nat_le (length items.now) N then Some items.now else None) }
    {
        if items.len() > N {
            return None;
        }
        let count = items.len();
        let mut array = [filler; N];
        array[..count].copy_from_slice(items);
        Some(ArrayList {
            items: array,
            count,
        })
    }

    /// The items.
    pub fn as_slice(&self) -> &[T]
        ensures value { result.now ≡ self.now.items }
        ensures few { length result.now ≤ N }
    {
        &self.items[..self.count]
    }

    /// Puts an item at the end, or hands it back where the list is full.
    pub fn push(&mut self, item: T) -> Result<(), T>
        ensures list { self.new.items ≡ take N (self.old.items ++ item ∷ []) }
        ensures full { result ≡ (if nat_lt (length self.old.items) N then Ok record {} else Err item) }
    {
        if self.count == N {
            return Err(item);
        }
        self.items[self.count] = item;
        self.count += 1;
        Ok(())
    }

    /// Puts items at the end, as many of them as there is room for.
    pub fn extend(&mut self, items: &[T])
        ensures { self.new.items ≡ take N (self.old.items ++ items.now) }
    {
        self.count = fill(&mut self.items[..], self.count, items);
    }
}

// Copies items to a place, as many of them as there is room for, and returns where they end.
fn fill<T: Copy>(all: &mut [T], start: usize, items: &[T]) -> usize
    requires { start ≤ length all.old }
    ensures after { take result all.new ≡ take (length all.old) (take start all.old ++ items.now) }
    ensures end { result ≤ length all.old }
{
    let end = start + items.len().min(all.len() - start);
    all[start..end].copy_from_slice(&items[..end - start]);
    end
}
