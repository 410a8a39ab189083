// The calls of an office for a host. Sessions go in and come back by value.
ghost use Rattle.std.specs.Prelude.{◌≤◌};
ghost use Rattle.office.specs.Promises.{FreshPromise, JointPromise, NeedPromise, OpenPromise, ReadPromise, ReceivePromise, SettingsPromise, WritePromise};
ghost use Rattle.host.specs.Flags.{is_set};

use frame::session::Session;
use host::answer::{PlotAnswer, SessionAnswer, SettingsAnswer, WordsAnswer, WroteAnswer};

// 01: the call that gives the store's need.
#[unsafe(no_mangle)]
pub extern "C" fn burial_store_need(offices: u32, own: u32, plots: u32) -> WordsAnswer
    ensures { NeedPromise offices own plots (record { code = result.refusal; words = result.words }) }
{
    host::offices::burial_store_need(offices, own, plots)
}

// 01: open an office.
#[unsafe(no_mangle)]
pub extern "C" fn burial_open_office(offices: u32, own: u32, plots: u32, store: &mut [u32]) -> u32
    ensures { OpenPromise offices own plots store.old result store.new }
{
    host::offices::burial_open_office(offices, own, plots, store)
}

// What a store was opened with.
#[unsafe(no_mangle)]
pub extern "C" fn burial_store_settings(store: &[u32]) -> SettingsAnswer
    ensures { SettingsPromise store.now result.refusal result.offices result.own result.plots }
{
    host::offices::burial_store_settings(store)
}

// 01: a fresh errand.
#[unsafe(no_mangle)]
pub extern "C" fn burial_fresh_session(offices: u32) -> SessionAnswer
    ensures { FreshPromise offices result.refusal result.session }
{
    host::offices::burial_fresh_session(offices)
}

// 01: read one plot.
#[unsafe(no_mangle)]
pub extern "C" fn burial_read_plot(store: &mut [u32], session: Session, plot: u32) -> PlotAnswer
    ensures { (result.found ≤ 1) × ReadPromise store.old session plot result.refusal (is_set result.found) result.entry result.session store.new }
{
    host::offices::burial_read_plot(store, session, plot)
}

// 01: read jointly.
#[unsafe(no_mangle)]
pub extern "C" fn burial_read_joint(
    store: &mut [u32],
    session: Session,
    plots: &[u32],
    answer: &mut [u32],
) -> SessionAnswer
    ensures { JointPromise store.old session plots.now answer.old result.refusal result.session store.new answer.new }
{
    host::offices::burial_read_joint(store, session, plots, answer)
}

// 01: write.
#[unsafe(no_mangle)]
pub extern "C" fn burial_write(
    store: &mut [u32],
    session: Session,
    plot: u32,
    value: u32,
    out: &mut [u32],
) -> WroteAnswer
    ensures { WritePromise store.old session plot value out.old (record { code = result.refusal; words = result.words }) result.session store.new out.new }
{
    host::offices::burial_write(store, session, plot, value, out)
}

// 01: hear a frame.
#[unsafe(no_mangle)]
pub extern "C" fn burial_receive(store: &mut [u32], frame: &[u32], out: &mut [u32]) -> WordsAnswer
    ensures { ReceivePromise store.old frame.now out.old (record { code = result.refusal; words = result.words }) store.new out.new }
{
    host::offices::burial_receive(store, frame, out)
}
