// A refused reading gives the store back, with the fault.
use crate::fault::FileFault;
use datatype::data::Data;

#[derive(Drop)]
pub struct Refused<'a> {
    pub fault: FileFault,
    pub store: &'a mut [Data],
}
