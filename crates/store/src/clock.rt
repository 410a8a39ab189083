// The office's clock.
ghost use Rattle.std.specs.Prelude.{◌≡◌, ◌<◌, true, length};
ghost use Rattle.store.specs.Offices.{office_of, sound_store, made as made_of, clock_of};
ghost use Rattle.store.specs.Slots.{Laid};
ghost use Rattle.store.specs.Current.{WordReaches};
ghost use Rattle.store.specs.Tops.{tops_in};

use crate::bits::Bits;
use crate::layout;

// How many entries the office made.
#[tactic(auto, using(crate::proofs::Joins::made_is))]
pub fn made(store: &[u32]) -> u32
    requires { Laid store.now }
    ensures { result ≡ made_of (office_of store.now) }
{
    let own = store[1] as usize;
    store[3 + own].count_ones()
}

// w is word i of a set: the join of the clocks of its ids and of the clock before.
fn tops_in(store: &[u32], i: usize, w: u32, before: [u32; 8]) -> [u32; 8]
    requires { (i < 8) × WordReaches (length store.now) i w }
    ensures { result ≡ tops_in store.now i w 32 before }
{
    let mut tops = before;
    for b in Bits(w) {
        let more = causal::clock::join(tops, layout::clock_at(store, 32 * i + b));
        tops = more;
    }
    tops
}

// At its own place how many entries it made, elsewhere the greatest number among visible entries.
#[tactic(auto, using(crate::proofs::Rules::numbers))]
pub fn office_clock(store: &[u32]) -> [u32; 8]
    requires { sound_store store.now ≡ true }
    ensures { result ≡ clock_of (office_of store.now) }
{
    let visible = layout::set_at(store, 11);
    let n = store[0] as usize;
    let mut tops = [0u32; 8];
    for (i, &w) in visible[..n].iter().enumerate() {
        let more = tops_in(store, i, w, tops);
        tops = more;
    }
    let own = store[1] as usize;
    let count = made(store);
    tops[own] = count;
    tops
}
