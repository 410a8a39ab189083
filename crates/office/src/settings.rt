// The settings with which a store was opened, for a host that finds one in a file.
ghost use Rattle.std.specs.Result.{result_unwrap_or};
ghost use Rattle.office.specs.Promises.{SettingsPromise};
ghost use Rattle.office.specs.Answers.{no_settings};
ghost use Rattle.frame.specs.Refusals.{code_of};

use frame::refusal::Refusal;

#[derive(Clone, Copy, Debug, PartialEq, Eq)]
pub struct Settings {
    pub offices: u32,
    pub own: u32,
    pub plots: u32,
}

// What stands where a store is refused.
pub const NO_SETTINGS: Settings = Settings {
    offices: 0,
    own: 0,
    plots: 0,
};

// Ring size, own number and plots of a sound store.
pub fn store_settings(store: &[u32]) -> Result<Settings, Refusal>
    ensures { SettingsPromise store.now (code_of result) (result_unwrap_or result no_settings).offices (result_unwrap_or result no_settings).own (result_unwrap_or result no_settings).plots }
{
    if !store::sound::is_sound(store) {
        return Err(Refusal::Store);
    }
    Ok(Settings {
        offices: store[0],
        own: store[1],
        plots: store[2],
    })
}
