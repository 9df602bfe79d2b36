// What a text should have at a place where it has something else.
#[derive(Clone, Copy, Debug, PartialEq, Eq)]
pub enum Expected {
    // a number of steps
    Steps,
    // a register
    Register,
    // a register, a constant or a label
    Operand,
    // an address or a label
    Address,
    // a locality
    Locality,
    // an instruction, an integer, a label or a permission, with which a capability begins
    Word,
    // the end of the line
    End,
    // a name that a label may have
    LabelName,
    // a label that no earlier line has
    NewLabel,
    // no second budget
    OneBudget,
    // no second word for a register
    OneWord,
    // an address that the cells before it have not passed, up to 2,048
    AddressAhead,
    // no cell more than 2,048
    Room,
    // a budget, which the text has not
    Budget,
}
