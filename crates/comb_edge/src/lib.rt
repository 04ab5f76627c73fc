// Stages 1 and 7 of one edge, from its entry in the graph, its fetch weight and the vertices' registers.
#![tactic(auto, using(laws::specs::Tests::tests), unfolding(crate::specs::Edge::far_end_by, crate::specs::Edge::reduced_by, crate::specs::Edge::weight_by, crate::specs::Edge::grown_by, crate::specs::Edge::tight_by, crate::specs::Edge::counted_tight_by, crate::specs::Edge::remaining_by, crate::specs::Edge::idle_by, crate::specs::Edge::meeting_by))]

pub mod length;
pub mod respond;
pub mod stage;

ghost use Rattle.std.specs.Prelude.{◌≡◌, ◌/◌, ◌%◌, ◌<◌};
ghost use Rattle.rules.specs.Registers as Registers;
ghost use Rattle.comb_edge.specs.Edge.{far_end_by, reduced_by, weight_by, grown_by, tight_by, counted_tight_by, remaining_by, idle_by, meeting_by};

use rules::finding::{Finding, Length, OddRemaining};
use rules::index::VertexIndex;
use rules::registers::{VertexRegisters, at};
use rules::tables::Registers;

// An edge's entry in the graph: the left end in the lowest 8 bits, the right end in the next 8, then the conditioned vertex.
#[derive(Clone, Copy, Debug, PartialEq, Eq)]
pub struct Edge(pub u32);

impl Edge {
    pub fn left(self) -> VertexIndex
        ensures { result.0 ≡ self.0 % 256 }
    {
        VertexIndex((self.0 % 256) as u16)
    }

    pub fn right(self) -> VertexIndex
        ensures { result.0 ≡ self.0 / 256 % 256 }
    {
        VertexIndex((self.0 / 256 % 256) as u16)
    }

    // Over 255 for none. No Option: the definitions take the entry's own number, and compare it with 256.
    pub fn condition(self) -> VertexIndex
        ensures { result.0 ≡ self.0 / 65_536 }
    {
        VertexIndex((self.0 / 65_536) as u16)
    }

    // The end that is not the vertex.
    pub fn far_end(self, vertex: VertexIndex) -> VertexIndex
        ensures { (result.0 ≡ far_end_by self.0 vertex.0) × (result.0 < 256) }
    {
        let near = self.left();
        if near == vertex { self.right() } else { near }
    }

    fn left_at(self, registers: &Registers) -> VertexRegisters
        ensures value { result ≡ Registers.at registers.now (self.0 % 256) }
        ensures grown { result.grown < 67_108_864 }
    {
        at(registers, self.left().0 as u8)
    }

    fn right_at(self, registers: &Registers) -> VertexRegisters
        ensures value { result ≡ Registers.at registers.now (self.0 / 256 % 256) }
        ensures grown { result.grown < 67_108_864 }
    {
        at(registers, self.right().0 as u8)
    }

    // "its conditioned vertex is virtual"
    pub fn is_reduced(self, registers: &Registers) -> bool
        ensures { result ≡ reduced_by self.0 registers.now }
    {
        let conditioned = self.condition();
        conditioned.0 < 256 && at(registers, conditioned.0 as u8).is_virtual
    }

    // "the edge's weight, or weight / 4 * 2 (whole division) while its conditioned vertex is virtual"
    pub fn post_fetch_weight(self, weight: u32, registers: &Registers) -> u32
        ensures { result ≡ weight_by self.0 registers.now weight }
    {
        if self.is_reduced(registers) {
            weight / 4 * 2
        } else {
            weight
        }
    }

    fn grown(self, registers: &Registers) -> u32
        ensures { result ≡ grown_by self.0 registers.now }
    {
        self.left_at(registers).grown + self.right_at(registers).grown
    }

    // "the two grown amounts add to at least it"
    pub fn post_fetch_is_tight(self, fetched: u32, registers: &Registers) -> bool
        ensures { result ≡ tight_by self.0 registers.now fetched }
    {
        fetched <= self.grown(registers)
    }

    // "tight, and no condition on a virtual vertex"
    pub fn post_fetch_count_tight(self, fetched: u32, registers: &Registers) -> bool
        ensures { result ≡ counted_tight_by self.0 registers.now fetched }
    {
        !self.is_reduced(registers) && self.post_fetch_is_tight(fetched, registers)
    }

    // "remaining = fetch weight less new grown amounts"
    pub fn remaining(self, fetched: u32, registers: &Registers) -> Length
        ensures { result ≡ remaining_by self.0 registers.now fetched }
    {
        length::less(fetched, self.grown(registers))
    }

    // "An edge with equal shadow nodes, or joint speed not positive": most edges, told by their shadows alone.
    pub fn is_idle(self, shadows: &Registers) -> bool
        ensures { result ≡ idle_by self.0 shadows.now }
    {
        respond::is_idle(self.left_at(shadows), self.right_at(shadows))
    }

    // What an edge that is not idle reports of the registers after stage 5 and the shadows.
    pub fn meeting(
        self,
        fetched: u32,
        registers: &Registers,
        shadows: &Registers,
    ) -> Result<Finding, OddRemaining>
        ensures { result ≡ meeting_by self.0 registers.now shadows.now fetched }
    {
        respond::meeting(
            self.left_at(shadows),
            self.right_at(shadows),
            self.left(),
            self.right(),
            self.remaining(fetched, registers),
        )
    }
}
