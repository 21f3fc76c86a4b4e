//! The worlds of a rule at a bone.
ghost use Rattle.std.specs.Prelude.{◌≡◌, true};
ghost use Rattle.sk_concrete.specs.Fitting.{worlds_fit};

use crate::world::World;
use sk_base::Seq;
use sk_sort::VarSorts;

/// The worlds that some bones lead to, in the order of their steps, and the sorts of their variables. In each world
/// every variable that has a sort is defined, and is of it.
#[derive(Drop)]
pub struct Worlds {
    pub(crate) sorts: VarSorts,
    pub(crate) list: Seq<World>,
    pub ghost fit: { worlds_fit sorts list ≡ true },
}
