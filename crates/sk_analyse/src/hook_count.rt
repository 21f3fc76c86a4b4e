//! How many hooks a definition has.
ghost use Rattle.std.specs.Prelude.{◌≡◌, ◌≤◌};

use std::marker::Model;

/// A number of hooks, which is at most 8.
#[derive(Drop)]
pub(crate) struct HookCount {
    count: usize,
}

impl Model for HookCount {
    ghost use Rattle.std.specs.Prelude.{ℕ, ◌≤◌};

    ghost Value = { ℕ };

    ghost view = { λ hooks. hooks.count };

    ghost invariant = { λ hooks. hooks.count ≤ 8 };
}

impl HookCount {
    /// So many hooks.
    pub(crate) fn of(count: usize) -> HookCount
        requires { count ≤ 8 }
        ensures { result ≡ count }
    {
        HookCount { count }
    }

    /// The number.
    pub(crate) fn get(&self) -> usize
        ensures value { result ≡ self.now }
        ensures few { result ≤ 8 }
    {
        self.count
    }
}
