// Vertex, edge, node and layer numbers are kept apart, as the Rust names them.
#[derive(Clone, Copy, Debug, PartialEq, Eq)]
pub struct VertexIndex(pub u16);

#[derive(Clone, Copy, Debug, PartialEq, Eq)]
pub struct EdgeIndex(pub u16);

// In a register 65,535 is no node and 65,534 the virtual node; instructions carry 0..32,767.
#[derive(Clone, Copy, Debug, PartialEq, Eq)]
pub struct NodeIndex(pub u16);

#[derive(Clone, Copy, Debug, PartialEq, Eq)]
pub struct LayerId(pub u16);
