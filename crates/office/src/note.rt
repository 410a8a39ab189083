// What a session notes of what is current on a plot.
ghost use Rattle.std.specs.Prelude.{◌≡◌, length};
ghost use Rattle.store.specs.Current.{found_at, InSlots};
ghost use Rattle.office.specs.Decide.{noted_seen, with_seen};

use frame::session::Session;

// The part of a session that a reading changes.
#[derive(Clone, Copy)]
pub struct Seen {
    pub clock: [u32; 8],
    pub read: [u32; 8],
}

// The clock joins that of the entry, which is read.
#[inline(always)]
#[tactic(auto, unfolding(store::specs::Current::found_at, crate::specs::Decide::noted_seen), using(crate::proofs::Notes::slot_id))]
pub fn note(store: &[u32], place: Option<usize>, seen: Seen) -> Seen
    requires { InSlots (length store.now) place }
    ensures { result ≡ noted_seen (found_at store.now place) seen }
{
    match place {
        None => seen,
        Some(k) => Seen {
            clock: causal::clock::join(seen.clock, store::layout::clock_at(store, k)),
            read: causal::set::insert(seen.read, k),
        },
    }
}

// The session has seen this.
#[tactic(auto, unfolding(crate::specs::Decide::with_seen))]
pub fn set_seen(s: &mut Session, seen: Seen)
    ensures { s.new ≡ with_seen s.old seen }
{
    let Seen { clock, read } = seen;
    s.clock = clock;
    s.read = read;
}
