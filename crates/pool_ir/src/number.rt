// What code names beside functions, points and registers.

/// What holds a pool in an activation, by its number in the function. Those that the function takes come first.
#[derive(Clone, Copy, Debug, PartialEq, Eq)]
pub struct Descriptor(pub usize);

/// A kind of pools, by how many stand before it in the code.
#[derive(Clone, Copy, Debug, PartialEq, Eq)]
pub struct KindId(pub usize);

/// Functions of one type have one signature: how many functions stand before the first of them.
#[derive(Clone, Copy, Debug, PartialEq, Eq)]
pub struct Signature(pub usize);
