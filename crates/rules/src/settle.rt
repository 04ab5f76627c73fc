// Stages 4 to 6 on one vertex: the registers that are written, and what edges see of them.
ghost use Rattle.std.specs.Prelude.{◌≡◌, eqb};
ghost use Rattle.laws.specs.Choice.{pick, ◌and◌};
ghost use Rattle.rules.specs.Execute as Execute;
ghost use Rattle.rules.specs.Peer.{is_propagating};
ghost use Rattle.rules.specs.Registers as Registers;
ghost use Rattle.rules.specs.Shadow as Shadow;
ghost use Rattle.rules.specs.Update as Update;
ghost use Rattle.rules.specs.declared.instruction.CompactGrowState.TheVariants.{Stay};

use crate::index::NodeIndex;
use crate::instruction::CompactGrowState;
use crate::registers::{Lead, VertexRegisters};

const NO_NODE: NodeIndex = NodeIndex(65_535);

impl CompactGrowState {
    pub fn is_growing(self) -> bool
        ensures { result ≡ Registers.growing self }
    {
        self == CompactGrowState::Grow
    }

    pub fn is_shrinking(self) -> bool
        ensures { result ≡ Registers.shrinking self }
    {
        self == CompactGrowState::Shrink
    }
}

impl VertexRegisters {
    // "not virtual and has Grow after stage 3"
    #[tactic(auto, using(laws::specs::Tests::tests), unfolding(crate::specs::Peer::is_propagating))]
    pub fn is_propagating(self) -> bool
        ensures { result ≡ is_propagating self }
    {
        self.speed.is_growing() && !self.is_virtual
    }

    // none, none, Stay
    fn freed(self) -> VertexRegisters
        ensures { result ≡ Execute.led Stay Registers.no_node Registers.no_node self }
    {
        self.led(CompactGrowState::Stay, NO_NODE, NO_NODE)
    }

    // "a vertex neither defect nor virtual with grown 0"
    #[tactic(auto, using(laws::specs::Tests::tests), unfolding(crate::specs::Update::is_loose))]
    fn is_loose(self) -> bool
        ensures { result ≡ Update.is_loose self }
    {
        !self.is_defect && !self.is_virtual && self.grown == 0
    }

    // "takes the peer's node and root and Grow, or none, none, Stay"
    fn follow(self, peer: Option<Lead>) -> VertexRegisters
        ensures { result ≡ Update.follow peer self }
    {
        match peer {
            Some(lead) => self.led(CompactGrowState::Grow, lead.node, lead.root),
            None => self.freed(),
        }
    }

    // stage 5
    #[tactic(auto, using(laws::specs::Tests::tests), unfolding(crate::specs::Update::update))]
    pub fn update(self, peer: Option<Lead>) -> VertexRegisters
        ensures { result ≡ Update.update peer self }
    {
        if self.is_loose() {
            self.follow(peer)
        } else {
            self
        }
    }

    // "Shrink at grown 0"
    #[tactic(auto, using(laws::specs::Tests::tests))]
    fn is_spent(self) -> bool
        ensures { result ≡ (Registers.shrinking self.speed and eqb self.grown 0) }
    {
        self.speed.is_shrinking() && self.grown == 0
    }

    // "with a peer, the peer's node, root and Grow"
    fn yield_to(self, peer: Option<Lead>) -> VertexRegisters
        ensures { result ≡ Shadow.yield peer self }
    {
        match peer {
            Some(lead) => self.led(CompactGrowState::Grow, lead.node, lead.root),
            None => self,
        }
    }

    #[tactic(auto, using(laws::specs::Tests::tests), unfolding(crate::specs::Shadow::yielded))]
    fn yielded(self, peer: Option<Lead>) -> VertexRegisters
        ensures { result ≡ Shadow.yielded peer self }
    {
        if self.is_spent() {
            self.yield_to(peer)
        } else {
            self
        }
    }

    // "if virtual with a layer, none, none, Stay"
    #[tactic(auto, using(laws::specs::Tests::tests))]
    fn unstalled(self, peer: Option<Lead>, waiting: bool) -> VertexRegisters
        ensures { result ≡ pick waiting (Execute.led Stay Registers.no_node Registers.no_node self) (Shadow.yielded peer self) }
    {
        if waiting {
            self.freed()
        } else {
            self.yielded(peer)
        }
    }

    // stage 6
    #[tactic(auto, using(laws::specs::Tests::tests), unfolding(crate::specs::Shadow::shadow, laws::specs::Choice::pick))]
    pub fn shadow(self, peer: Option<Lead>, waiting: bool, stalled: bool) -> VertexRegisters
        ensures { result ≡ Shadow.shadow peer waiting stalled self }
    {
        let seen = self.unstalled(peer, waiting);
        // "if stalled, Stay"
        if stalled {
            seen.with_speed(CompactGrowState::Stay)
        } else {
            seen
        }
    }
}
