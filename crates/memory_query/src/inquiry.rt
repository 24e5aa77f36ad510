// A query whose checks are passed.
ghost use Rattle.std.specs.Prelude.{◌≡◌, ◌+◌, ◌≤◌, length};
ghost use Rattle.cache.specs.CachePlaces.{look_up, keep_in};
ghost use Rattle.memory_query.specs.MemoryParts.{cache_part, with_cache};

use cache::CachedAnswer;
use policy::CACHE;
use query::{Query, Scope};

// What it looks at, and the versions and the place by which its user's cache has it.
#[derive(Clone, Copy)]
pub(crate) struct CheckedQuery<'a> {
    pub(crate) query: Query,
    pub(crate) scope: Scope<'a>,
    pub(crate) versions: &'a [u64],
    pub(crate) at: usize,
}

impl CheckedQuery<'_> {
    // What the cache has for it.
    pub(crate) fn look_up(&self, memory: &[u64]) -> Option<CachedAnswer>
        requires { self.now.at + 192 ≤ length memory.now }
        ensures { result ≡ look_up self.now.query self.now.versions.now (cache_part self.now.at memory.now) }
    {
        cache::look_up(&memory[self.at..self.at + CACHE], self.query, self.versions)
    }

    // Keeps an answer for it in the cache.
    pub(crate) fn keep(&self, memory: &mut [u64], kept: CachedAnswer)
        requires { self.now.at + 192 ≤ length memory.old }
        ensures { memory.new ≡ with_cache self.now.at
            (keep_in self.now.query self.now.versions.now kept (cache_part self.now.at memory.old)) memory.old }
    {
        cache::keep(
            &mut memory[self.at..self.at + CACHE],
            self.query,
            self.versions,
            kept,
        );
    }
}
