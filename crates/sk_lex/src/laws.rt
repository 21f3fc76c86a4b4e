//! What printed numbers and words read as.

ghost use Rattle.std.specs.Prelude.{◌≡◌, ◌∷◌, [], List, ℕ, ℤ, true, Ok};
ghost use Rattle.std.specs.Fmt.{signed_decimal};
ghost use Rattle.std.specs.Prelude.{FitsSigned};
ghost use Rattle.std.specs.Int.{w64};
ghost use Rattle.sk_lex.specs.Spelling.{Spells, NoDigit, NoWord, is_plain_word, symbols_from};
ghost use Rattle.sk_lex.specs.Symbols.{Named, Plain, symbols};
ghost use Rattle.sk_lex.specs.Tokens.{tokens_of};
ghost use Rattle.sk_lex.specs.declared.token.Token.{Token};
ghost use Rattle.sk_lex.specs.declared.token.TokenKind.TheVariants.{Number};
ghost use Rattle.std.specs.Str.{chars};

/// A printed number reads as itself, where no digit follows it.
pub fn number_reads_back()
    ensures { (value : ℤ) → FitsSigned w64 value → Spells NoDigit (signed_decimal value) (Plain (Number value) ∷ []) }
{}

/// A printed word of plain characters reads as itself, where nothing goes on with it.
pub fn word_reads_back()
    ensures { (word : List ℕ) → is_plain_word word ≡ true → Spells NoWord word (Named word ∷ []) }
{}

/// What a text's characters spell are the symbols of its tokens.
pub fn tokens_spell()
    ensures { (text : List ℕ) (tokens : List Token) → tokens_of text ≡ Ok tokens → symbols_from 0 (chars text) ≡ Ok (symbols text tokens) }
{}
