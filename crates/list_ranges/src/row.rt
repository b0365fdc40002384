// A row of classes.
ghost use Rattle.std.specs.Prelude.{◌≤◌};

// The classes of cells or of other elements, a byte each: those with the numbers from `first` on.
#[derive(Clone, Copy)]
pub struct Row<'a> {
    pub class: &'a [u8],
    pub first: usize,
    pub ghost fits: { first ≤ 65536 },
}
