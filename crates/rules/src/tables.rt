// The tables that calls are lent.
ghost use Rattle.std.specs.Prelude.{◌≡◌, false, replicate};

// The registers of each vertex, or its shadow, in one word (specs/Registers.antt).
pub type Registers = [u64; 256];

// The weight register of each edge.
pub type Weights = [u32; 1024];

// The pair list, as a flag for each edge.
pub type Stalls = [bool; 1024];

// A flag for each vertex.
pub type VertexFlags = [bool; 256];

// No flag is raised.
pub fn no_flags<const N: usize>() -> [bool; N]
    ensures { result ≡ replicate N false }
{
    [false; N]
}
