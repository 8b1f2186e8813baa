//! Laws of slices, each the contract of a function that does nothing.
ghost use Rattle.slicer.specs.Laws.{EachHasSlices, SlicesAreUnique, SlicesPartition};

/// Every condition has slices, whatever its size and whatever its atoms name.
pub fn slices_exist()
    ensures { EachHasSlices }
{}

/// A condition has one list of slices alone.
pub fn slices_are_unique()
    ensures { SlicesAreUnique }
{}

/// Each variable and each atom of a condition stands in one slice, an atom with the variables that it names, where
/// the atoms name only variables that the condition declares.
pub fn slices_are_a_partition()
    ensures { SlicesPartition }
{}
