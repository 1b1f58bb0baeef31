ghost use Rattle.std.specs.Prelude.{◌≡◌, ℕ, ◌++◌, ◌∷◌, [], OnOk, IfSome, Some};
ghost use Rattle.lists.specs.Words.{Stands};
ghost use Rattle.judge.specs.Entering.{entered};

use std::alloc::{AllocError, Global};

/// A thing with its bucket, and the number of the one before it there.
#[derive(Clone, Copy)]
pub(crate) struct Entry<T> {
    pub(crate) item: T,
    pub(crate) bucket: usize,
    before: usize,
}

/// Things in buckets, numbered in the order in which they came. The things of a bucket are chained from the last one on.
// What is found by it is looked at before it counts, so it is proved of a find only that it was entered.
#[derive(Drop)]
pub(crate) struct Buckets<T> {
    last: Vec<usize>,
    entries: Vec<Entry<T>>,
}

/// Stands before the first thing of a bucket.
const NONE: usize = usize::MAX;

impl<T: Copy> Buckets<T> {
    /// So many buckets, with room for so many things.
    pub(crate) fn with_room(
        heap: Global,
        buckets: usize,
        room: usize,
    ) -> Result<Buckets<T>, AllocError> {
        let mut last = Vec::new(heap);
        last.resize(buckets, NONE)?;
        Ok(Buckets {
            last,
            entries: Vec::with_capacity(heap, room)?,
        })
    }

    /// The bucket that is told by a fingerprint.
    pub(crate) fn bucket(&self, fingerprint: u64) -> usize {
        ((fingerprint >> 32).wrapping_mul(self.last.len() as u64) >> 32) as usize
    }

    /// All that was entered.
    pub(crate) fn entries(&self) -> &[Entry<T>]
        ensures { result.now ≡ self.now.entries.items }
    {
        &self.entries
    }

    /// Takes all out of the buckets.
    // Entry by entry, since the buckets may be many.
    pub(crate) fn clear(&mut self)
        ensures { entered self.new ≡ [] }
    {
        for entry in &self.entries {
            if let Some(last) = self.last.get_mut(entry.bucket) {
                *last = NONE;
            }
        }
        self.entries.clear();
    }

    /// Enters the next thing. It is found again where there is such a bucket.
    pub(crate) fn enter(&mut self, bucket: usize, item: T) -> Result<(), AllocError>
        ensures { OnOk result (entered self.new ≡ entered self.old ++ item ∷ []) }
    {
        let number = self.entries.len();
        let mut before = NONE;
        if let Some(last) = self.last.get_mut(bucket) {
            before = *last;
            *last = number;
        }
        self.entries.push(Entry {
            item,
            bucket,
            before,
        })?;
        Ok(())
    }

    /// The number of the last thing in the bucket.
    fn last(&self, bucket: usize) -> usize {
        self.last.get(bucket).copied().unwrap_or(NONE)
    }

    fn entry(&self, number: usize) -> Option<Entry<T>>
        ensures { IfSome result (λ e. Stands (entered self.now) e.item number) }
    {
        self.entries.get(number).copied()
    }

    /// What `look` gives of a thing in the bucket. One may be overlooked.
    pub(crate) fn find<F: Fn(T) -> Option<usize>>(&self, bucket: usize, look: F) -> Option<usize>
        requires { F.IsAlwaysCallable look }
        ensures { IfSome result (λ found. (k : ℕ) × (x : T) × Stands (entered self.now) x k × F.post look x (Some found)) }
    {
        let mut number = self.last(bucket);
        // at most all of them, so that it ends whatever the entries say
        for _ in 0..self.entries.len() {
            let entry = self.entry(number)?;
            let found = look(entry.item);
            if found.is_some() {
                return found;
            }
            number = entry.before;
        }
        None
    }
}
