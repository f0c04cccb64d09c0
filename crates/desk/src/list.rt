// A list in fixed memory: so many items at most, and as many as are counted.
#[derive(Clone, Copy)]
pub struct List<T, const N: usize> {
    items: [T; N],
    count: usize,
}

impl<T: Copy, const N: usize> List<T, N> {
    // The first of these items, so many of them.
    pub fn of(items: [T; N], count: usize) -> List<T, N> {
        List { items, count }
    }

    // So many items that are alike, as far as there is room for them.
    pub fn alike(item: T, count: usize) -> List<T, N> {
        List {
            items: [item; N],
            count,
        }
    }

    pub fn items(&self) -> &[T] {
        self.items.get(..self.count).unwrap_or(&self.items)
    }

    // All that stands in its memory, behind the items too.
    pub fn whole(&self) -> &[T] {
        &self.items
    }

    // Says whether there was room for one more.
    pub fn push(&mut self, item: T) -> bool {
        match self.items.get_mut(self.count) {
            Some(place) => {
                *place = item;
                self.count = self.count.wrapping_add(1);
                true
            }
            None => false,
        }
    }

    // Says whether the list has such a place.
    pub fn set(&mut self, place: usize, item: T) -> bool {
        if self.count <= place {
            return false;
        }
        if let Some(old) = self.items.get_mut(place) {
            *old = item;
        }
        true
    }

    // How many more there is room for.
    pub fn left(&self) -> usize {
        N.saturating_sub(self.count)
    }

    pub fn clear(&mut self) {
        self.count = 0;
    }
}
