//! The outputs of keys.
ghost use Rattle.std.specs.Prelude.{◌≡◌, find};
ghost use Rattle.std.specs.Option.{option_copied};
ghost use Rattle.sk_absfilter.specs.Abstract.{Outcome};
ghost use Rattle.sk_abswalk.specs.Keys.{Key, same_key, key_of_triple, own_outputs};

use sk_def::HookId;
use sk_lattice::{AbsTuple, NumDom};
use sk_table::{Table, Triple};

/// What tells the outputs of each key.
pub trait KeyOutputs<D: NumDom> {
    // the outputs of each key
    ghost by_key: { Self → Key → Outcome D };

    /// The outputs of the hook at the point, none where it has none.
    fn outputs_of(&self, hook: HookId, point: u16) -> Option<&AbsTuple<D>>
        ensures { option_copied result ≡ by_key self.now (hook, point) };
}

/// The triple of the hook at the point, none where there is none.
fn own_triple<D: NumDom>(table: &Table<D>, hook: HookId, point: u16) -> Option<&Triple<D>>
    ensures { option_copied result ≡ find (λ triple. same_key (key_of_triple triple) (hook, point)) table.now }
{
    table
        .as_slice()
        .iter()
        .find(|triple| triple.hook.0 == hook.0 && triple.point == point)
}

/// The outputs of each key's own triple.
impl<D: NumDom> KeyOutputs<D> for Table<D> {
    ghost by_key = { own_outputs };

    fn outputs_of(&self, hook: HookId, point: u16) -> Option<&AbsTuple<D>> {
        match own_triple(self, hook, point) {
            Some(triple) => triple.outs.as_ref(),
            None => None,
        }
    }
}
