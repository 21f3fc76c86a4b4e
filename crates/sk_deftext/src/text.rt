//! Reading the text of a definition.

ghost use Rattle.std.specs.Prelude.{◌≡◌, ◌-◌, ◌<◌, ◌^◌, length, All, Ok, IfOk};
ghost use Rattle.sk_base.specs.Answer.{Gives};
ghost use Rattle.sk_lex.specs.Tokens.{tokens_of};
ghost use Rattle.sk_def.specs.Fits.{DefinitionFits};
ghost use Rattle.sk_deftext.specs.Canonical.{definition_text};
ghost use Rattle.sk_deftext.specs.Faults.{refusal_of};
ghost use Rattle.sk_deftext.specs.Places.{PlacesFit};
ghost use Rattle.sk_deftext.specs.Texts.{read_definition, source_of};
ghost use Rattle.sk_deftext.specs.Written.{HasNames, IsInOrder, Says};

use crate::draft::Draft;
use crate::fault::DefFault;
use crate::places::{Cursor, place_at_token, places_of, rule_places};
use crate::read::read_draft;
use crate::source::{Places, Source};
use sk_base::{NoMemory, place_of};
use sk_lex::{LexFault, Refused, Token, tokens};
use std::alloc::Global;

/// What was read, with the places of its parts.
fn with_places(
    alloc: Global,
    text: &[u8],
    tokens: &[Token],
    draft: Draft,
) -> Result<Source, NoMemory>
    requires tokens { tokens_of text.now ≡ Ok tokens.now }
    requires short { length text.now < 2 ^ 32 - 1 }
    ensures { IfOk result (λ source. source ≡ source_of text.now tokens.now draft) }
{
    let places = Places {
        hooks: places_of(
            alloc,
            text,
            tokens,
            &mut Cursor::new(),
            draft.hooks.as_slice(),
        )?,
        rules: rule_places(alloc, text, tokens, draft.rules.as_slice())?,
    };
    Ok(Source {
        def: draft.def,
        places,
    })
}

/// Reads the text of a definition to its end. A fault stands at the first token that fits no case; a lexical one
/// comes before all others and stands at its byte.
#[tactic(auto, unfolding(crate::specs::Texts::read_definition))]
pub fn read_def(alloc: Global, text: &[u8]) -> Result<Source, DefFault>
    requires { length text.now < 2 ^ 32 - 1 }
    ensures gives { Gives (λ source. source) refusal_of result (read_definition text.now) }

    // What was read is within the limits, each number in it is of its lists, and each part of it has its place.
    ensures fits { IfOk result (λ source. DefinitionFits source.def) }
    ensures placed { IfOk result PlacesFit }

    // Its names are different words that are no keywords, and its lists are short.
    ensures named { IfOk result (λ source. HasNames source.def) }

    // In each rule the variables are numbered by their first appearance, and a branch bone has at most 8 branches.
    ensures in_order { IfOk result (λ source. All IsInOrder source.def.rules) }

    // Reading its canonical text gives the definition again.
    ensures again { IfOk result (λ source. Says (definition_text source.def) source.def) }
{
    let tokens = match tokens(alloc, text) {
        Ok(tokens) => tokens,
        Err(LexFault::Bad(error, at)) => return Err(DefFault::Lex(error, place_of(text, at))),
        Err(LexFault::NoMemory) => return Err(DefFault::NoMemory),
    };
    match read_draft(alloc, text, tokens.as_slice()) {
        Ok(draft) => Ok(with_places(alloc, text, tokens.as_slice(), draft)?),
        Err(Refused::Bad(error, number)) => Err(error.at(place_at_token(
            text,
            tokens.as_slice(),
            number,
        ))),
        Err(Refused::NoMemory) => Err(DefFault::NoMemory),
    }
}
