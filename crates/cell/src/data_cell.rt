// The typed cell as a kind of cell.
ghost use Rattle.std.specs.Prelude.{◌≡◌, IfSome};
ghost use Rattle.std.specs.Option.{option_map};
ghost use Rattle.cell.specs.Kinds.{data_meaning, sound_part};
ghost use Rattle.cell.specs.Soundness.{StandsAt};
ghost use Rattle.std.proofs.Common.{rules};

use crate::cell::Cell;
use datatype::data::{Data, TextPart};
use datatype::value::{TextValue, Value};
use number::float::float_of_bits;
use text::utf8::is_utf8;

/// The bytes of a part: none where it leaves the text or is not UTF-8.
fn sound_part(part: TextPart, text: &[u8]) -> Option<TextValue<'_>>
    ensures bytes { option_map (λ t. t.bytes.now) result ≡ sound_part part.place part.len text.now }
    ensures lies { IfSome result (λ t. StandsAt text.now t.place t.bytes.now) }
{
    let bytes = part.bytes(text)?;
    let place = part.place as usize;
    is_utf8(bytes).then_some(TextValue { place, bytes })
}

impl Cell for Data {
    ghost meaning = { data_meaning };

    ghost encoded = { Prim.search rules };

    fn is_empty(&self, _text: &[u8]) -> bool {
        matches!(*self, Data::Empty)
    }

    fn value<'a>(&self, text: &'a [u8]) -> Value<'a> {
        match *self {
            Data::Int(whole) => Value::Int(whole),
            Data::Float(bits) => Value::Float(float_of_bits(bits)),
            Data::String(part) => sound_part(part, text).map_or(Value::Unsound, Value::String),
            Data::Bool(yes) => Value::Bool(yes),
            Data::DateTime(serial) => Value::DateTime(serial),
            Data::DateTimeIso(part) => sound_part(part, text).map_or(
                Value::Unsound,
                Value::DateTimeIso,
            ),
            Data::DurationIso(part) => sound_part(part, text).map_or(
                Value::Unsound,
                Value::DurationIso,
            ),
            Data::Error(error) => Value::Error(error),
            Data::Empty => Value::Empty,
        }
    }
}
