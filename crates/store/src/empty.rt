// The store of an office that holds nothing.
ghost use Rattle.std.specs.Prelude.{◌≡◌, ◌≤◌, length};
ghost use Rattle.store.specs.Slots.{empty_words};

// Settings, and nothing held. What the slots have means nothing, and stays.
pub fn lay_empty(store: &mut [u32], offices: u32, own: u32, plots: u32)
    requires { 19 ≤ length store.old }
    ensures { store.new ≡ empty_words store.old offices own plots }
{
    store[0] = offices;
    store[1] = own;
    store[2] = plots;
    store[3..19].fill(0);
}
