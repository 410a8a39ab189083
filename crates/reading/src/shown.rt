// What is shown once the ids that a session has read are brought out. Readings of one plot and of several share it.
ghost use Rattle.std.specs.Prelude.{◌≡◌, true};
ghost use Rattle.causal.specs.Lists.{part};
ghost use Rattle.causal.specs.Sets.{subset_of};
ghost use Rattle.store.specs.Offices.{sound_store};
ghost use Rattle.reading.specs.Readings.{Shows};

pub fn shown_by(store: &[u32], read: [u32; 8]) -> [u32; 8]
    requires { (sound_store store.now ≡ true) × (subset_of read (part store.now 3 8) ≡ true) }
    ensures { Shows store.now read result }
{
    store::reveal::revealed_by(store, read).visible
}
