// What a step that does not fault came to. A halt has changed no register and no cell.
#[derive(Clone, Copy, Debug, PartialEq, Eq)]
pub enum Flow {
    Moved,
    Halted,
}
