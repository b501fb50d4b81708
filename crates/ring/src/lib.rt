//! The first-in-first-out queue, over places that the caller lends to each call.
#![tactic(auto)]

ghost use Rattle.std.specs.Prelude.{◌≡◌, ◌+◌, ◌-◌, ◌<◌, ◌&&◌, [], ◌∷◌, ◌++◌, length, drop, is_ok, is_some, if◌then◌else◌, MatchOption, ◌==◌, nat_lt, slice_set};
ghost use Rattle.std.specs.List.{slice_get};
ghost use Rattle.ring.specs.Queue.{fits, fresh, held, longer, shorter, spot, place};

/// The ends of a queue: where its first item is, and how many there are. Its capacity is the number of places lent.
///
/// Each call on one ring is lent the same places. Lent too few, a ring gives nothing and takes nothing: `append` refuses,
/// `front` and `remove` answer `None`, and nothing changes.
#[derive(Clone, Copy, Debug, PartialEq, Eq)]
pub struct Ring {
    head: usize,
    len: usize,
}

/// No place was free.
#[derive(Clone, Copy, Debug, PartialEq, Eq)]
pub struct Full;

impl Ring {
    /// The queue that holds nothing.
    pub fn new() -> Self
        ensures value { result ≡ fresh }
    {
        Ring { head: 0, len: 0 }
    }

    /// How many items are held.
    pub fn len(&self) -> usize
        ensures value { result ≡ self.now.len }
    {
        self.len
    }

    pub fn is_empty(&self) -> bool
        ensures value { result ≡ (self.now.len == 0) }
    {
        self.len == 0
    }

    /// The first of the items held.
    pub fn front<T: Copy>(&self, places: &[T]) -> Option<T>
        ensures value { result ≡ slice_get (held self.now places.now) 0 }
        ensures test { is_some result ≡ (fits self.now (length places.now) && nat_lt 0 self.now.len) }
    {
        self.get(places, 0)
    }

    /// The i-th of the items held, the first being number 0.
    pub fn get<T: Copy>(&self, places: &[T], i: usize) -> Option<T>
        ensures value { result ≡ slice_get (held self.now places.now) i }
        ensures test { is_some result ≡ (fits self.now (length places.now) && nat_lt i self.now.len) }
    {
        if self.fits(places.len()) && i < self.len {
            Some(places[self.place(i, places.len())])
        } else {
            None
        }
    }

    /// Puts `item` behind those held, where a place is free for it.
    pub fn append<T: Copy>(&mut self, places: &mut [T], item: T) -> Result<(), Full>
        ensures value { is_ok result ≡ (fits self.old (length places.old) && nat_lt self.old.len (length places.old)) }
        ensures items { held self.new places.new ≡ (if is_ok result then held self.old places.old ++ item ∷ [] else held self.old places.old) }
        ensures len { self.new.len ≡ (if is_ok result then self.old.len + 1 else self.old.len) }
        ensures fit { fits self.new (length places.old) ≡ fits self.old (length places.old) }
        ensures after { self.new ≡ (if is_ok result then longer self.old else self.old) }
        ensures places { places.new ≡ (if is_ok result then slice_set places.old (place self.old (length places.old)) item else places.old) }
    {
        let count = places.len();
        if !self.fits(count) || self.len == count {
            return Err(Full);
        }
        places[self.place(self.len, count)] = item;
        self.len += 1;
        Ok(())
    }

    /// Takes out the first of the items held. It is lent the places as `append` is, and leaves them as they were.
    pub fn remove<T: Copy>(&mut self, places: &mut [T]) -> Option<T>
        ensures value { result ≡ slice_get (held self.old places.old) 0 }
        ensures test { is_some result ≡ (fits self.old (length places.old) && nat_lt 0 self.old.len) }
        ensures items { held self.new places.new ≡ drop 1 (held self.old places.old) }
        ensures cases { MatchOption result (held self.old places.old ≡ []) (λ x. held self.old places.old ≡ x ∷ held self.new places.new) }
        ensures len { self.new.len ≡ (if is_some result then self.old.len - 1 else self.old.len) }
        ensures fit { fits self.new (length places.old) ≡ fits self.old (length places.old) }
        ensures after { self.new ≡ (if is_some result then shorter self.old (length places.old) else self.old) }
        ensures places { places.new ≡ places.old }
    {
        let first = self.front(places)?;
        let next = self.head + 1;
        self.head = if next < places.len() { next } else { 0 };
        self.len -= 1;
        Some(first)
    }

    /// The place of the i-th item, of `count` places that go round.
    fn place(&self, i: usize, count: usize) -> usize
        requires head { self.now.head < count }
        requires within { i < count }
        ensures value { result ≡ spot self.now i count }
    {
        let until_end = count - self.head;
        if i < until_end {
            self.head + i
        } else {
            i - until_end
        }
    }

    /// Whether `count` places are enough for what is held, and the head is one of them.
    fn fits(&self, count: usize) -> bool
        ensures value { result ≡ fits self.now count }
    {
        self.head < count && self.len <= count
    }
}
