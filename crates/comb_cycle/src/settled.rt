// What stages 7 and 8 read.
use comb_edge::stage::Stage;
use rules::tables::Registers;

// What the stages before read, and what stages 5 and 6 made of it: the vertices' new registers, and their shadows.
#[derive(Clone, Copy)]
pub(crate) struct Settled<'a> {
    pub(crate) stage: Stage<'a>,
    pub(crate) registers: &'a Registers,
    pub(crate) shadows: &'a Registers,
}
