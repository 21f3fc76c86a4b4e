//! Refused texts, and the line that says so.
ghost use Rattle.std.specs.Prelude.{◌≡◌, ◌-◌, ◌<◌, ◌^◌, length};
ghost use Rattle.sk_bench.specs.Following.{Prepares};
ghost use Rattle.sk_bench.specs.Plan.{Write};
ghost use Rattle.sk_bench.specs.Refused.{refused_of, refused_line, missing};

use crate::status::{Ending, Output, Stop};
use sk_base::{Place, place_of};
use sk_value::{put_bytes, put_count};
use std::alloc::Global;

/// Why a text is refused: its error's name, and the error's place.
#[derive(Clone, Copy)]
pub(crate) struct Refusal {
    pub(crate) code: &'static str,
    pub(crate) place: Place,
}

/// Why a text isn't accepted.
#[derive(Clone, Copy)]
pub(crate) enum Unaccepted {
    Refused(Refusal),
    NoMemory,
}

/// The refusal of a job that lacks a line, at the end of its text.
pub(crate) fn missing(code: &'static str, text: &[u8]) -> Refusal
    requires { length text.now < 2 ^ 32 - 1 }
    ensures { refused_of result ≡ missing code.now text.now }
{
    Refusal {
        code,
        place: place_of(text, text.len()),
    }
}

/// The line for a refused text of a kind, as the end of a command.
pub(crate) fn refuse(
    alloc: Global,
    ending: Ending,
    kind: &str,
    refusal: Refusal,
) -> Result<Output, Stop>
    ensures { Prepares (Write ending (refused_line kind.now (refused_of refusal))) result }
{
    let mut text = Vec::new(alloc);
    put_bytes(&mut text, b"refused ")?;
    put_bytes(&mut text, kind.as_bytes())?;
    put_bytes(&mut text, b" ")?;
    put_count(&mut text, refusal.place.line as usize)?;
    put_bytes(&mut text, b":")?;
    put_count(&mut text, refusal.place.column as usize)?;
    put_bytes(&mut text, b" ")?;
    put_bytes(&mut text, refusal.code.as_bytes())?;
    put_bytes(&mut text, b"\n")?;
    Ok(Output { ending, text })
}
