// Stage 3 on one vertex: the registers after an instruction (specs/Execute.antt).
ghost use Rattle.std.specs.Prelude.{◌≡◌, eqb};
ghost use Rattle.laws.specs.Choice.{pick, ◌or◌};
ghost use Rattle.rules.specs.Execute as Execute;
ghost use Rattle.rules.specs.Registers.{same_node};
ghost use Rattle.rules.specs.declared.instruction.CompactGrowState.TheVariants.{Grow, Shrink};

use crate::index::{LayerId, NodeIndex, VertexIndex};
use crate::instruction::{CompactGrowState, Instruction};
use crate::registers::{MoveError, VertexRegisters};

impl VertexRegisters {
    // speed, node and root at once
    pub fn led(self, speed: CompactGrowState, node: NodeIndex, root: NodeIndex) -> VertexRegisters
        ensures { result ≡ Execute.led speed node root self }
    {
        VertexRegisters {
            speed,
            node,
            root,
            ..self
        }
    }

    pub fn with_speed(self, speed: CompactGrowState) -> VertexRegisters
        ensures { result ≡ Execute.with_speed speed self }
    {
        VertexRegisters { speed, ..self }
    }

    // "SetSpeed: vertices with that node"
    #[tactic(auto, using(laws::specs::Tests::tests))]
    fn set_speed(self, node: NodeIndex, speed: CompactGrowState) -> VertexRegisters
        ensures { result ≡ pick (same_node self.node node) (Execute.with_speed speed self) self }
    {
        if self.node == node {
            self.with_speed(speed)
        } else {
            self
        }
    }

    // "whose node or root is the given one"
    #[tactic(auto, using(laws::specs::Tests::tests))]
    pub fn belongs_to(self, node: NodeIndex) -> bool
        ensures { result ≡ (same_node self.node node or same_node self.root node) }
    {
        self.node == node || self.root == node
    }

    // "SetBlossom: vertices whose node or root is the given one get the blossom as node and Grow; the root stays"
    #[tactic(auto, using(laws::specs::Tests::tests))]
    fn set_blossom(self, node: NodeIndex, blossom: NodeIndex) -> VertexRegisters
        ensures { result ≡ pick (same_node self.node node or same_node self.root node) (Execute.led Grow blossom self.root self) self }
    {
        if self.belongs_to(node) {
            self.led(CompactGrowState::Grow, blossom, self.root)
        } else {
            self
        }
    }

    fn as_defect(self, node: NodeIndex) -> VertexRegisters
        ensures { result ≡ Execute.as_defect node self }
    {
        VertexRegisters {
            is_defect: true,
            ..self.led(CompactGrowState::Grow, node, node)
        }
    }

    // "AddDefectVertex: defect, Grow, node and root; an unknown vertex changes no one"
    #[tactic(auto, using(laws::specs::Tests::tests))]
    fn add_defect_vertex(
        self,
        place: VertexIndex,
        node: NodeIndex,
        vertex: VertexIndex,
    ) -> VertexRegisters
        ensures { result ≡ pick (eqb place.0 vertex.0) (Execute.as_defect node self) self }
    {
        if place == vertex {
            self.as_defect(node)
        } else {
            self
        }
    }

    // "LoadDefectsExternal: vertices of that layer cease to be virtual"
    #[tactic(auto, using(laws::specs::Tests::tests))]
    fn load_defects_external(self, time: LayerId, layer: LayerId) -> VertexRegisters
        ensures { result ≡ pick (eqb layer.0 time.0) (Execute.not_virtual self) self }
    {
        if layer == time {
            VertexRegisters {
                is_virtual: false,
                ..self
            }
        } else {
            self
        }
    }

    #[tactic(auto, using(laws::specs::Tests::tests), unfolding(crate::specs::Execute::moved))]
    fn raise(self, length: u32) -> Result<VertexRegisters, MoveError>
        ensures { result ≡ Execute.moved Grow length self }
    {
        let sum = u64::from(self.grown) + u64::from(length);
        if sum > 67_108_863 {
            return Err(MoveError::AboveBound);
        }
        Ok(VertexRegisters {
            grown: sum as u32,
            ..self
        })
    }

    #[tactic(auto, using(laws::specs::Tests::tests), unfolding(crate::specs::Execute::moved))]
    fn lower(self, length: u32) -> Result<VertexRegisters, MoveError>
        ensures { result ≡ Execute.moved Shrink length self }
    {
        if self.grown < length {
            return Err(MoveError::BelowZero);
        }
        Ok(VertexRegisters {
            grown: self.grown - length,
            ..self
        })
    }

    // "grown plus speed times length"
    #[tactic(auto, using(laws::specs::Tests::tests), unfolding(crate::specs::Execute::moved))]
    fn moved(self, length: u32) -> Result<VertexRegisters, MoveError>
        ensures { result ≡ Execute.moved self.speed length self }
    {
        match self.speed {
            CompactGrowState::Stay => Ok(self),
            CompactGrowState::Grow => self.raise(length),
            CompactGrowState::Shrink => self.lower(length),
        }
    }

    // "Grow: grown plus speed times length unless stalled, or virtual with a layer"
    #[tactic(auto, using(laws::specs::Tests::tests))]
    fn grow(self, length: u32, still: bool) -> Result<VertexRegisters, MoveError>
        ensures { result ≡ pick still (Ok self) (Execute.moved self.speed length self) }
    {
        if still {
            return Ok(self);
        }
        self.moved(length)
    }

    // layer is the vertex's own; still where it is stalled, or virtual with a layer
    #[tactic(auto, using(laws::specs::Tests::tests), unfolding(crate::specs::Execute::execute))]
    pub fn execute(
        self,
        instruction: Instruction,
        vertex: VertexIndex,
        layer: LayerId,
        still: bool,
    ) -> Result<VertexRegisters, MoveError>
        ensures { result ≡ Execute.execute instruction vertex.0 layer.0 still self }
    {
        match instruction {
            Instruction::SetSpeed { node, speed } => Ok(self.set_speed(node, speed)),
            Instruction::SetBlossom { node, blossom } => Ok(self.set_blossom(node, blossom)),
            Instruction::AddDefectVertex {
                vertex: place,
                node,
            } => Ok(self.add_defect_vertex(place, node, vertex)),
            Instruction::FindObstacle => Ok(self),
            Instruction::Grow { length } => self.grow(length, still),
            Instruction::LoadDefectsExternal { time } => Ok(self.load_defects_external(
                time, layer,
            )),
        }
    }
}
