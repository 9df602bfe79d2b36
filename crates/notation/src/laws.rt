ghost use Rattle.notation.specs.Labelling.{LabelsNameCells};
ghost use Rattle.notation.specs.Reading.{ReadsBack};

// What a listing says of a sheet assembles to the sheet's bytes.
pub fn listings_read_back()
    ensures { ReadsBack }
{}

// In a text that assembles, a label stands for the address of the next cell, and no other line has it.
pub fn labels_name_cells()
    ensures { LabelsNameCells }
{}
