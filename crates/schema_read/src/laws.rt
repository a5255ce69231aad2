ghost use Rattle.schema_read.specs.Laws.{SchemaHasNoFault, FirstFaultIsOne, FileIsOneSchema};

use type_core::types_are_one;

/// Bytes that are a schema have no fault.
pub fn schema_has_no_fault()
    ensures { SchemaHasNoFault }
{}

/// Bytes have one first fault at most.
pub fn first_fault_is_one()
    ensures { FirstFaultIsOne }
{}

/// Bytes are one schema at most.
pub fn file_is_one_schema()
    ensures { FileIsOneSchema }
{
    types_are_one();
}
