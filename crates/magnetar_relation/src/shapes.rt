// The shapes of the six matrices of a relation.

// A matrix: how many rows, columns and entries it has.
#[repr(C)]
#[derive(Clone, Copy)]
pub struct Shape {
    pub rows: usize,
    pub cols: usize,
    pub entries: usize,
}

// The matrices A, B and C of a system.
#[repr(C)]
#[derive(Clone, Copy)]
pub struct SystemShape {
    pub a: Shape,
    pub b: Shape,
    pub c: Shape,
}

// Both systems of a relation. The entries of all six matrices are lent one behind the other: A, B, C of bin, then A, B, C of fld.
#[repr(C)]
#[derive(Clone, Copy)]
pub struct Shapes {
    pub bin: SystemShape,
    pub fld: SystemShape,
}
