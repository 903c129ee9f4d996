// Cells, one for each place: the key that is entered there, and the place behind it.
ghost use Rattle.std.specs.Prelude.{◌≡◌, ◌↔◌, Some, IsTrue};
ghost use Rattle.linear_index.specs.Chains.{behind_of, key_in, link_to};

// How a place stands in the chain of its bucket.
#[derive(Clone, Copy)]
pub(crate) enum Link {
    // No key is entered at the place, so it is in no chain.
    Free,
    // Its chain ends here.
    Last,
    // This place is behind it.
    Before(u32),
}

// A place. The key says nothing where the place is free.
#[derive(Clone, Copy)]
pub(crate) struct Cell {
    pub(crate) key: u64,
    pub(crate) link: Link,
}

// A place at which no key is entered.
pub(crate) const FREE: Cell = Cell {
    key: 0,
    link: Link::Free,
};

impl Link {
    // The link of a place that has this place behind it, or none.
    pub(crate) fn to(next: Option<u32>) -> Link
        ensures { result ≡ link_to next }
    {
        match next {
            Some(place) => Link::Before(place),
            None => Link::Last,
        }
    }

    // The place behind, if there is one.
    pub(crate) fn next(&self) -> Option<u32>
        ensures { result ≡ behind_of self.now }
    {
        match self {
            Link::Before(place) => Some(*place),
            _ => None,
        }
    }
}

impl Cell {
    // Whether this key is entered at the place.
    #[inline(always)]
    pub(crate) fn has(&self, key: u64) -> bool
        ensures { IsTrue result ↔ (key_in self.now ≡ Some key) }
    {
        match self.link {
            Link::Free => false,
            _ => self.key == key,
        }
    }
}
