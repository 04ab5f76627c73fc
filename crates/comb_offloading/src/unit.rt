// A unit, taken out of its word.
ghost use Rattle.std.specs.Prelude.{◌≡◌};
ghost use Rattle.rules.specs.Graph.{unit_of};
ghost use Rattle.rules.specs.Units.{edge_of};
ghost use Rattle.comb_offloading.specs.Unit.{says};
ghost use Rattle.comb_offloading.specs.On.{holds_on, stalls_on};

use crate::defect_match::{defect_match, stall_ends};
use crate::edge::EdgeAt;
use crate::fusion_match::{fusion_match, stall_peer};
use crate::stall_around::stall_around;
use crate::virtual_match::virtual_match;
use comb_edge::stage::Stage;
use rules::tables::VertexFlags;

// The unit of the rules. Their OffloadingType, of which the definitions speak, carries any numbers; these fit their tables.
#[derive(Clone, Copy, Debug, PartialEq, Eq)]
pub(crate) enum OffloadingUnit {
    DefectMatch { edge: EdgeAt },
    VirtualMatch { edge: EdgeAt, vertex: u8 },
    FusionMatch { edge: EdgeAt, vertex: u8 },
}

impl OffloadingUnit {
    // The edge in 10 bits, the vertex in 8, then the kind.
    #[tactic(auto, using(laws::specs::Tests::tests), unfolding(rules::specs::Graph::unit_of))]
    pub(crate) fn of(word: u32) -> Self
        ensures { says result ≡ unit_of word }
    {
        let edge = EdgeAt::of(word);
        let vertex = (word / 1_024 % 256) as u8;
        match word / 262_144 {
            0 => Self::DefectMatch { edge },
            1 => Self::VirtualMatch { edge, vertex },
            _ => Self::FusionMatch { edge, vertex },
        }
    }

    pub(crate) fn edge(self) -> EdgeAt
        ensures { result.number ≡ edge_of (says self) }
    {
        match self {
            Self::DefectMatch { edge }
            | Self::VirtualMatch { edge, .. }
            | Self::FusionMatch { edge, .. } => edge,
        }
    }

    #[tactic(auto, unfolding(rules::specs::Units::holds))]
    pub(crate) fn holds(self, stage: &Stage) -> bool
        ensures { result ≡ holds_on stage.now.board.now.table stage.now.before.now stage.now.weights.now (says self) }
    {
        match self {
            Self::DefectMatch { edge } => defect_match(edge, stage),
            Self::VirtualMatch { edge, vertex } => virtual_match(edge, vertex, stage),
            Self::FusionMatch { edge, vertex } => fusion_match(edge, vertex, stage),
        }
    }

    // The vertices that it stalls where it holds.
    #[tactic(auto, unfolding(rules::specs::Units::stalls))]
    pub(crate) fn stall(self, stage: &Stage, vertices: &mut VertexFlags)
        ensures { vertices.new ≡ stalls_on stage.now.board.now.table stage.now.before.now stage.now.weights.now (says self) vertices.old }
    {
        let board = stage.board;
        match self {
            Self::DefectMatch { edge } => stall_ends(edge, board, vertices),
            Self::VirtualMatch { edge, vertex } => {
                stall_around(edge, edge.far_end(vertex, board), stage, vertices);
            }
            Self::FusionMatch { edge, vertex } => stall_peer(edge, vertex, board, vertices),
        }
    }
}
