// The count cell: one signed number, whose least value stands for empty, as its format has it.
ghost use Rattle.cell.specs.Kinds.{count_meaning};
ghost use Rattle.std.proofs.Common.{rules};

use crate::cell::Cell;
use datatype::value::Value;

#[derive(Clone, Copy, PartialEq, Eq, Debug)]
pub struct Count(pub i32);

impl Cell for Count {
    ghost meaning = { count_meaning };

    ghost encoded = { Prim.search rules };

    fn is_empty(&self, _text: &[u8]) -> bool {
        self.0 == i32::MIN
    }

    fn value<'a>(&self, text: &'a [u8]) -> Value<'a> {
        if self.is_empty(text) {
            Value::Empty
        } else {
            Value::Int(i64::from(self.0))
        }
    }
}
