//! The reader of a definition's tokens.

ghost use Rattle.std.specs.Prelude.{◌≡◌, [], Ok, ⊤};
ghost use Rattle.sk_base.specs.Answer.{Gives};
ghost use Rattle.sk_lex.specs.Symbols.{symbols};
ghost use Rattle.sk_lex.specs.Tokens.{tokens_of};
ghost use Rattle.sk_lex.specs.Turns.{bad_of};
ghost use Rattle.sk_deftext.specs.Reading.{read_symbols, definition_rules};
ghost use Rattle.sk_deftext.specs.Meets.{IsWithin};

use crate::draft::Draft;
use crate::expected::Expected;
use crate::fault::{DefError, Refusal};
use crate::meet::meet;
use sk_lex::{Lexeme, Reader, Refused, Taken, Token, read_whole};
use std::alloc::Global;

impl Reader for Draft {
    type Expected = Expected;

    type Code = DefError;

    ghost rules = { definition_rules };

    ghost within = { IsWithin };

    ghost keeps = { λ _ _. ⊤ };

    ghost names = { λ _. [] };

    ghost names_refused = { λ _ _ _. [] };

    fn meet(
        &mut self,
        alloc: Global,
        expected: Expected,
        lexeme: Lexeme,
        _text: &[u8],
        _tokens: &[Token],
        at: usize,
    ) -> Result<Taken<Expected>, Refused<DefError>> {
        match meet(alloc, self, expected, lexeme, at) {
            Ok(expected) => Ok(Taken { expected, more: 0 }),
            Err(Refusal::Bad(error)) => Err(Refused::Bad(error, at)),
            Err(Refusal::NoMemory) => Err(Refused::NoMemory),
        }
    }

    fn may_end(expected: Expected) -> bool {
        matches!(expected, Expected::Item)
    }

    fn unexpected() -> DefError {
        DefError::Unexpected
    }
}

/// Reads the tokens of a definition.
#[tactic(auto, unfolding(crate::specs::Reading::read_symbols))]
pub(crate) fn read_draft(
    alloc: Global,
    text: &[u8],
    tokens: &[Token],
) -> Result<Draft, Refused<DefError>>
    requires tokens { tokens_of text.now ≡ Ok tokens.now }
    ensures { Gives (λ draft. draft) bad_of result (read_symbols (symbols text.now tokens.now)) }
{
    let mut draft = Draft::new(alloc);
    let start = [Expected::Skel, Expected::Version, Expected::Item];
    read_whole(alloc, &mut draft, &start, text, tokens)?;
    Ok(draft)
}
