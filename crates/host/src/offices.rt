// The calls of an office for a host. Sessions go in and come back by value. A refusal is answered first, by a `return`, and what takes or gives a
// session is compiled as a function of its own: otherwise the session is copied more often.
ghost use Rattle.std.specs.Prelude.{◌≡◌, ◌≤◌};
ghost use Rattle.office.specs.Promises.{FreshPromise, JointPromise, NeedPromise, OpenPromise, ReadPromise, ReceivePromise, SettingsPromise, WritePromise};
ghost use Rattle.host.specs.Flags.{is_set};

use crate::answer::{
    PlotAnswer, SessionAnswer, SettingsAnswer, WordsAnswer, WroteAnswer, session_answer,
};
use frame::entry::blank_entry;
use frame::refusal::code_of;
use frame::session::{Session, blank_session};
use office::settings::NO_SETTINGS;
use reading::read::PlotRead;

// 01: the call that gives the store's need.
#[inline(always)]
pub fn burial_store_need(offices: u32, own: u32, plots: u32) -> WordsAnswer
    ensures { NeedPromise offices own plots (record { code = result.refusal; words = result.words }) }
{
    office::need::store_need(offices, own, plots).into()
}

// 01: open an office.
#[inline(always)]
pub fn burial_open_office(offices: u32, own: u32, plots: u32, store: &mut [u32]) -> u32
    ensures { OpenPromise offices own plots store.old result store.new }
{
    code_of(&office::open::open_office(offices, own, plots, store))
}

// What a store was opened with.
#[inline(always)]
pub fn burial_store_settings(store: &[u32]) -> SettingsAnswer
    ensures { SettingsPromise store.now result.refusal result.offices result.own result.plots }
{
    let settings = office::settings::store_settings(store);
    let refusal = code_of(&settings);
    let opened = settings.unwrap_or(NO_SETTINGS);
    SettingsAnswer {
        refusal,
        offices: opened.offices,
        own: opened.own,
        plots: opened.plots,
    }
}

// 01: a fresh errand.
#[inline(always)]
pub fn burial_fresh_session(offices: u32) -> SessionAnswer
    ensures { FreshPromise offices result.refusal result.session }
{
    session_answer(office::open::fresh_session(offices), blank_session())
}

// 01: read one plot.
pub fn burial_read_plot(store: &mut [u32], session: Session, plot: u32) -> PlotAnswer
    ensures { (result.found ≤ 1) × ReadPromise store.old session plot result.refusal (is_set result.found) result.entry result.session store.new }
{
    let read = reading::read::read_plot(store, session, plot);
    let refusal = code_of(&read);
    let Ok(
        PlotRead {
            entry,
            session: after,
        },
    ) = read
    else {
        return PlotAnswer {
            refusal,
            found: 0,
            entry: blank_entry(),
            session,
        };
    };
    PlotAnswer {
        refusal,
        found: u32::from(entry.is_some()),
        entry: entry.unwrap_or(blank_entry()),
        session: after,
    }
}

// 01: read jointly.
pub fn burial_read_joint(
    store: &mut [u32],
    session: Session,
    plots: &[u32],
    answer: &mut [u32],
) -> SessionAnswer
    ensures { JointPromise store.old session plots.now answer.old result.refusal result.session store.new answer.new }
{
    let left = match reading::joint::read_joint(store, session, plots, answer) {
        Ok(left) => left,
        Err(refusal) => {
            return SessionAnswer {
                refusal: u32::from(refusal),
                session,
            };
        }
    };
    SessionAnswer {
        refusal: 0,
        session: left,
    }
}

// 01: write.
pub fn burial_write(
    store: &mut [u32],
    session: Session,
    plot: u32,
    value: u32,
    out: &mut [u32],
) -> WroteAnswer
    ensures { WritePromise store.old session plot value out.old (record { code = result.refusal; words = result.words }) result.session store.new out.new }
{
    let wrote = match writing::write::write(store, session, plot, value, out) {
        Ok(wrote) => wrote,
        Err(refusal) => {
            return WroteAnswer {
                refusal: u32::from(refusal),
                words: 0,
                session,
            };
        }
    };
    WroteAnswer {
        refusal: 0,
        words: wrote.words,
        session: wrote.session,
    }
}

// 01: hear a frame.
#[inline(always)]
pub fn burial_receive(store: &mut [u32], frame: &[u32], out: &mut [u32]) -> WordsAnswer
    ensures { ReceivePromise store.old frame.now out.old (record { code = result.refusal; words = result.words }) store.new out.new }
{
    hearing::receive::receive(store, frame, out).into()
}
