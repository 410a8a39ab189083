// To reveal: to show ids and everything reached through deps.
ghost use Rattle.std.specs.Prelude.{◌≡◌, ◌≤◌, true, length, slice_index};
ghost use Rattle.std.proofs.lemmas.List.Edits.{sets};
ghost use Rattle.causal.specs.Lists.{part};
ghost use Rattle.causal.specs.Sets.{subset_of};
ghost use Rattle.store.specs.Reveal.{revealed};
ghost use Rattle.store.specs.Offices.{office_of, sound_store};

use crate::layout;

#[derive(Clone, Copy)]
pub struct Revealed {
    pub visible: [u32; 8],
    pub steps: usize,
}

// Step by step: each reveals the lowest pending id that is not visible.
fn reveal_on(store: &[u32], seeds: [u32; 8]) -> Revealed
    requires { (sound_store store.now ≡ true) × (subset_of seeds (part store.now 3 8) ≡ true) }
    ensures { result ≡ revealed (λ k. ((office_of store.now).entry k).deps) (slice_index store.now 0) (part store.now 11 8) seeds }
{
    let mut visible = layout::set_at(store, 11);
    let mut pending = seeds;
    let mut steps: usize = 0;
    loop {
        let left = causal::set::without(pending, visible);
        let next = causal::set::lowest_of(left);
        let Some(k) = next else {
            return Revealed { visible, steps };
        };
        let deps = layout::deps_at(store, k);
        let more = causal::set::insert(visible, k);
        let all = causal::set::union(pending, deps);
        visible = more;
        pending = all;
        steps += 1;
    }
}

// The visible set once all seeds are revealed, and how many ids it has more. Most often that is none, and no step is taken.
pub fn revealed_by(store: &[u32], seeds: [u32; 8]) -> Revealed
    requires { (sound_store store.now ≡ true) × (subset_of seeds (part store.now 3 8) ≡ true) }
    ensures { result ≡ revealed (λ k. ((office_of store.now).entry k).deps) (slice_index store.now 0) (part store.now 11 8) seeds }
{
    let visible = layout::set_at(store, 11);
    if causal::set::subset(seeds, visible) {
        return Revealed { visible, steps: 0 };
    }
    reveal_on(store, seeds)
}

// Stores a visible set.
pub fn show(store: &mut [u32], visible: [u32; 8])
    requires { 19 ≤ length store.old }
    ensures { store.new ≡ sets store.old 11 visible }
{
    layout::put(&mut *store, 11, visible);
}
