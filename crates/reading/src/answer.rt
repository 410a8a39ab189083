// The answer of a joint reading: three words for each plot.
ghost use Rattle.std.specs.Prelude.{◌≡◌, [], ◌∷◌, ◌+◌, ◌*◌, ◌≤◌, length};
ghost use Rattle.std.proofs.lemmas.List.Edits.{sets};
ghost use Rattle.store.specs.Current.{InSlots, found_at};
ghost use Rattle.store.specs.Offices.{best_own};
ghost use Rattle.office.specs.Calls.{three_words};
ghost use Rattle.reading.specs.Readings.{Answerable, NamedIn, OwnNamed, answers_in};

use crate::best::best_with;
use frame::entry::Entry;

// 1, value and name payload of what was found, or zeros.
#[tactic(auto, unfolding(office::specs::Calls::three_words, frame::specs::Entries::name_of))]
fn three_words(found: Option<Entry>) -> [u32; 3]
    requires { NamedIn found }
    ensures { result ≡ three_words found }
{
    match found {
        None => [0; 3],
        Some(e) => [1, e.value, 256 * e.office + e.serial],
    }
}

// The same of what stands at a place of the store, from its words there.
#[tactic(auto, unfolding(store::specs::Current::found_at, store::specs::Offices::entry_at, office::specs::Calls::three_words, frame::specs::Entries::name_of))]
fn words_at(store: &[u32], place: Option<usize>) -> [u32; 3]
    requires { InSlots (length store.now) place }
    ensures { result ≡ three_words (found_at store.now place) }
{
    match place {
        None => [0; 3],
        Some(k) => [
            1,
            store[19 + 18 * k + 1],
            (256 * (k / 32) + (k % 32 + 1)) as u32,
        ],
    }
}

// The same of what is handed back on a plot. Where there are no own writes, no entry is copied.
fn handed_words(store: &[u32], own: &[Entry], plot: u32, place: Option<usize>) -> [u32; 3]
    requires { InSlots (length store.now) place × OwnNamed own.now }
    ensures { result ≡ three_words (best_own plot (found_at store.now place) own.now) }
{
    if own.is_empty() {
        return words_at(store, place);
    }
    three_words(best_with(store, own, plot, place))
}

// Three words from `at` on, one by one.
fn put_three(three: [u32; 3], answer: &mut [u32], at: usize)
    requires { at + 3 ≤ length answer.old }
    ensures { answer.new ≡ sets answer.old at three }
{
    answer[at] = three[0];
    answer[at + 1] = three[1];
    answer[at + 2] = three[2];
}

// For each plot the best of what is current there and the own writes.
pub fn put_answers(
    store: &[u32],
    own: &[Entry],
    plots: &[u32],
    places: &[Option<usize>],
    answer: &mut [u32],
)
    requires { Answerable store.now own.now plots.now places.now answer.old }
    ensures { answer.new ≡ answers_in store.now own.now plots.now places.now answer.old }
{
    // at is counted: of chunks_exact_mut a proof knows the length alone.
    let mut at = 0;
    for (plot, place) in plots.iter().zip(places) {
        let three = handed_words(store, own, *plot, *place);
        put_three(three, &mut *answer, at);
        at += 3;
    }
}
