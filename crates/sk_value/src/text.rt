//! Pieces of texts. Where memory is refused they leave what stood as it was.
ghost use Rattle.std.specs.Prelude.{◌≡◌, ◌++◌, decimal, OnOk, OnErr};
ghost use Rattle.std.specs.Fmt.{signed_decimal};
ghost use Rattle.sk_value.specs.Texts.{between, truth_text, value_text};

use crate::Value;
use itoa::Buffer;
use sk_base::NoMemory;

/// Appends bytes.
pub fn put_bytes(out: &mut Vec<u8>, bytes: &[u8]) -> Result<(), NoMemory>
    ensures ok { OnOk result (out.new.items ≡ out.old.items ++ bytes.now) }
    ensures err { OnErr result (out.new.items ≡ out.old.items) }
{
    out.extend_from_slice(bytes)?;
    Ok(())
}

/// Appends a number's digits, after a `-` where it is negative.
pub fn put_number(out: &mut Vec<u8>, number: i64) -> Result<(), NoMemory>
    ensures ok { OnOk result (out.new.items ≡ out.old.items ++ signed_decimal number) }
    ensures err { OnErr result (out.new.items ≡ out.old.items) }
{
    let mut buffer = Buffer::new();
    put_bytes(out, buffer.format(number).as_bytes())
}

/// Appends a count's digits.
pub fn put_count(out: &mut Vec<u8>, count: usize) -> Result<(), NoMemory>
    ensures ok { OnOk result (out.new.items ≡ out.old.items ++ decimal count) }
    ensures err { OnErr result (out.new.items ≡ out.old.items) }
{
    let mut buffer = Buffer::new();
    put_bytes(out, buffer.format(count).as_bytes())
}

/// Appends `true` or `false`.
pub fn put_truth(out: &mut Vec<u8>, truth: bool) -> Result<(), NoMemory>
    ensures ok { OnOk result (out.new.items ≡ out.old.items ++ truth_text truth) }
    ensures err { OnErr result (out.new.items ≡ out.old.items) }
{
    put_bytes(out, if truth { b"true" } else { b"false" })
}

/// Appends what stands before an entry of a list, which is nothing before the first.
pub fn put_between(out: &mut Vec<u8>, is_first: bool) -> Result<(), NoMemory>
    ensures ok { OnOk result (out.new.items ≡ out.old.items ++ between is_first) }
    ensures err { OnErr result (out.new.items ≡ out.old.items) }
{
    put_bytes(out, if is_first { b"" } else { b", " })
}

/// Appends a value's text.
pub fn put_value(out: &mut Vec<u8>, value: Value) -> Result<(), NoMemory>
    ensures ok { OnOk result (out.new.items ≡ out.old.items ++ value_text value) }
    ensures err { OnErr result (out.new.items ≡ out.old.items) }
{
    match value {
        Value::Int(number) => put_number(out, number),
        Value::Bool(truth) => put_truth(out, truth),
    }
}
