//! From the numbers of tokens to their places in the text.

ghost use Rattle.std.specs.Prelude.{◌≡◌, ◌+◌, ◌-◌, ◌^◌, ◌<◌, ◌≤◌, map, length, Ok, OnOk, IfOk};
ghost use Rattle.sk_base.specs.Place.{place_at};
ghost use Rattle.sk_lex.specs.Symbols.{place_in};
ghost use Rattle.sk_lex.specs.Tokens.{tokens_of};
ghost use Rattle.sk_deftext.specs.Places.{column_after, Stands};

use sk_base::{NoMemory, Place, Seq, place_of};
use sk_lex::{Token, offset_at};
use std::alloc::Global;

/// A byte and its place. Places of later bytes are counted on from here.
#[derive(Clone, Copy)]
pub(crate) struct Cursor {
    pub at: usize,
    pub place: Place,
}

impl Cursor {
    /// The first byte of a text.
    pub(crate) fn new() -> Cursor
        ensures { result ≡ record { at = 0; place = record { line = 1; column = 1 } } }
    {
        Cursor {
            at: 0,
            place: Place { line: 1, column: 1 },
        }
    }
}

/// The place of the token of a number.
pub(crate) fn place_at_token(text: &[u8], tokens: &[Token], number: usize) -> Place
    requires tokens { tokens_of text.now ≡ Ok tokens.now }
    requires short { length text.now < 2 ^ 32 - 1 }
    ensures { result ≡ place_in text.now tokens.now number }
{
    place_of(text, offset_at(text, tokens, number))
}

/// The column after bytes that end there, counted from their own first byte.
fn column_after(column: u32, end: Place) -> u32
    requires some { 0 < end.column }
    requires short { column + end.column ≤ 2 ^ 32 }
    ensures { result ≡ column_after column end.line end.column }
{
    if end.line == 1 {
        column + (end.column - 1)
    } else {
        end.column
    }
}

/// The place of the byte at `to`, from that of an earlier one. Looks at the bytes between alone.
fn place_after(text: &[u8], cursor: Cursor, to: usize) -> Place
    requires order { cursor.at ≤ to }
    requires within { to ≤ length text.now }
    requires short { length text.now < 2 ^ 32 - 1 }
    requires stands { Stands text.now cursor.at cursor.place }
    ensures { result ≡ place_at text.now to }
{
    let between = &text[cursor.at..to];
    let end = place_of(between, between.len());
    Place {
        line: cursor.place.line + (end.line - 1),
        column: column_after(cursor.place.column, end),
    }
}

/// The place of the token of a number, where the cursor goes.
fn go_to(text: &[u8], tokens: &[Token], cursor: &mut Cursor, number: usize) -> Place
    requires tokens { tokens_of text.now ≡ Ok tokens.now }
    requires short { length text.now < 2 ^ 32 - 1 }
    requires stands { Stands text.now cursor.old.at cursor.old.place }
    ensures place { result ≡ place_in text.now tokens.now number }
    ensures stands { Stands text.now cursor.new.at cursor.new.place }
{
    let to = offset_at(text, tokens, number);
    let place = if cursor.at <= to {
        place_after(text, *cursor, to)
    } else {
        place_of(text, to)
    };
    *cursor = Cursor { at: to, place };
    place
}

/// The places of tokens.
pub(crate) fn places_of(
    alloc: Global,
    text: &[u8],
    tokens: &[Token],
    cursor: &mut Cursor,
    numbers: &[usize],
) -> Result<Seq<Place>, NoMemory>
    requires tokens { tokens_of text.now ≡ Ok tokens.now }
    requires short { length text.now < 2 ^ 32 - 1 }
    requires stands { Stands text.now cursor.old.at cursor.old.place }
    ensures places { IfOk result (λ places. places ≡ map (place_in text.now tokens.now) numbers.now) }
    ensures stands { Stands text.now cursor.new.at cursor.new.place }
{
    let mut places = Seq::new(alloc);
    for number in numbers {
        places.push(go_to(text, tokens, cursor, *number))?;
    }
    Ok(places)
}

/// The places of the tokens of each rule.
pub(crate) fn rule_places(
    alloc: Global,
    text: &[u8],
    tokens: &[Token],
    rules: &[Seq<usize>],
) -> Result<Seq<Seq<Place>>, NoMemory>
    requires tokens { tokens_of text.now ≡ Ok tokens.now }
    requires short { length text.now < 2 ^ 32 - 1 }
    ensures { IfOk result (λ places. places ≡ map (map (place_in text.now tokens.now)) rules.now) }
{
    let mut cursor = Cursor::new();
    let mut places = Seq::new(alloc);
    for numbers in rules {
        places.push(places_of(alloc, text, tokens, &mut cursor, numbers.as_slice())?)?;
    }
    Ok(places)
}
