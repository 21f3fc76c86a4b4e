//! A definition with the places of its parts.

ghost use Rattle.std.specs.Prelude.{◌≡◌, ◌≢◌, ◌<◌, Some, None, length, slice_get};
ghost use Rattle.sk_deftext.specs.Places.{place_of_part};

use sk_base::{Place, Seq};
use sk_def::{Def, HookId};

/// A definition that was read, and where its parts stand in the text.
#[derive(Drop)]
pub struct Source {
    /// What the text says.
    pub def: Def,
    /// Where its parts stand.
    pub places: Places,
}

/// Where the parts of a definition stand in its text.
#[derive(Drop)]
pub struct Places {
    /// The word `hook` of each hook.
    pub hooks: Seq<Place>,
    /// Of each rule: its word `rule`, the first token of each bone, and the `->` after the last brace.
    pub rules: Seq<Seq<Place>>,
}

impl Places {
    /// Where a rule begins: its word `rule`. The rule is one of the definition's.
    pub fn rule(&self, rule: usize) -> Place
        requires { place_of_part self.now rule 0 ≢ None }
        ensures { place_of_part self.now rule 0 ≡ Some result }
    {
        self.bone(rule, 0)
    }

    /// Where a bone of a rule begins. The header is bone 0, and the closing is the number after the last bone.
    pub fn bone(&self, rule: usize, bone: usize) -> Place
        requires { place_of_part self.now rule bone ≢ None }
        ensures { place_of_part self.now rule bone ≡ Some result }
    {
        *self.rules.get(rule).get(bone)
    }

    /// The word `hook` of a hook of the definition.
    pub fn hook(&self, hook: HookId) -> Place
        requires { hook.0 < length self.now.hooks }
        ensures { slice_get self.now.hooks hook.0 ≡ Some result }
    {
        *self.hooks.get(hook.0 as usize)
    }
}
