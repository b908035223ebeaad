// The eight errors that a cell may hold, in the order in which a sheet file numbers them.
ghost use Rattle.datatype.specs.Errors.{Numbered};

#[derive(Clone, Copy, PartialEq, Eq, Debug)]
pub enum CellErrorType {
    /// division by zero
    Div0,
    /// unavailable value
    NA,
    /// invalid name
    Name,
    /// null value
    Null,
    /// number error
    Num,
    /// invalid cell reference
    Ref,
    /// value error
    Value,
    /// data still being fetched
    GettingData,
}

/// A number that no error has.
#[derive(Clone, Copy, PartialEq, Eq, Debug)]
pub struct UnknownErrorType(pub u64);

impl TryFrom<u64> for CellErrorType {
    type Error = UnknownErrorType;

    ghost try_from_gives = { Numbered };

    fn try_from(number: u64) -> Result<CellErrorType, UnknownErrorType> {
        match number {
            0 => Ok(CellErrorType::Div0),
            1 => Ok(CellErrorType::NA),
            2 => Ok(CellErrorType::Name),
            3 => Ok(CellErrorType::Null),
            4 => Ok(CellErrorType::Num),
            5 => Ok(CellErrorType::Ref),
            6 => Ok(CellErrorType::Value),
            7 => Ok(CellErrorType::GettingData),
            _ => Err(UnknownErrorType(number)),
        }
    }
}
